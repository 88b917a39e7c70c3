// Parses a number of a frame's header.
ghost use Rattle.std.specs.Prelude.{◌≡◌, ◌*◌, ◌+◌, ◌≤◌, length, IfSome};
ghost use Rattle.ts_mux.specs.Capture.{with_byte as byte_after, within as number_within};
ghost use Rattle.ts_mux.specs.Headers.{IsNumber, ended_number};

// A number that was looked for from some offset on.
pub(crate) enum FoundNumber {
    // the number, and the offset of the byte that ends it
    Whole(u32, usize),
    // the bytes end before the number does
    NotYet,
    // the byte at this offset cannot continue the number
    Broken(usize),
}

// Parses the digits from this offset on, up to the byte `last`. The number must be in `least..=most`.
#[inline(always)]
pub(crate) fn read_number(bytes: &[u8], from: usize, least: u32, most: u32, last: u8) -> FoundNumber
    requires { from ≤ length bytes.now }
    ensures { IsNumber result least most last bytes.now from }
{
    let mut number = None;
    let mut at = from;
    while at < bytes.len() {
        let byte = bytes[at];
        if byte == last {
            return end_number(number, at);
        }
        match with_byte(least, most, number, byte) {
            None => return FoundNumber::Broken(at),
            Some(next) => number = Some(next),
        }
        at += 1;
    }
    FoundNumber::NotYet
}

// Ends a number before the byte at this offset. A number has at least one digit.
fn end_number(number: Option<u32>, at: usize) -> FoundNumber
    ensures { result ≡ ended_number number at }
{
    match number {
        None => FoundNumber::Broken(at),
        Some(number) => FoundNumber::Whole(number, at),
    }
}

// Appends a digit to a number. Returns `None` if the byte is no digit or the result is not in `least..=most`.
fn with_byte(least: u32, most: u32, so_far: Option<u32>, byte: u8) -> Option<u32>
    ensures number { result ≡ byte_after least most so_far byte }
    ensures range { IfSome result (λ number. (least ≤ number) × (number ≤ most)) }
{
    if byte < b'0' || byte > b'9' {
        return None;
    }
    let digit = (byte - b'0') as u64;
    match so_far {
        None => within(least, most, digit),
        Some(0) => None,
        Some(number) => within(least, most, 10 * number as u64 + digit),
    }
}

fn within(least: u32, most: u32, number: u64) -> Option<u32>
    ensures number { result ≡ number_within least most number }
    ensures range { IfSome result (λ number. (least ≤ number) × (number ≤ most)) }
{
    if number < least as u64 || number > most as u64 {
        return None;
    }
    Some(number as u32)
}

// A fast path for short texts, which most values have: one pass in 64 bits.
ghost use Rattle.std.specs.Prelude.{◌≡◌, ℕ, ◌+◌, ◌*◌, ◌^◌, ◌≤◌, Bool, length, IfSome};
ghost use Rattle.ts_spec.specs.Value.{digits, after_digits, number_after, decimal_of};
ghost use Rattle.ts_decimal.specs.Reading.{IsRounded};

use crate::arithmetic::power_of_ten;
use crate::lexer::split_digit;
use crate::reading::PLACES;

/// The longest text that is parsed in 64 bits.
const MAX_SHORT_BYTES: usize = 12;

/// Appends the leading digits of `text` to `number`. Returns the result and the rest of the text.
#[inline]
fn accumulate_digits(number: u64, text: &[u8]) -> (u64, &[u8])
    requires { (number + 1) * 10 ^ length text.now ≤ 10 ^ 12 }
    ensures number { result.0 ≡ number_after number (digits text.now) }
    ensures rest { result.1.now ≡ after_digits text.now }
    ensures count { length result.1.now + length (digits text.now) ≡ length text.now }
    ensures room { (result.0 + 1) * 10 ^ length result.1.now ≤ 10 ^ 12 }
{
    let mut number = number;
    let mut rest = text;
    while let Some((digit, after)) = split_digit(rest) {
        number = 10 * number + u64::from(digit);
        rest = after;
    }
    (number, rest)
}

/// Parses a short decimal without sign: at most 12 bytes, digits only, with an optional point and at most six digits
/// after it. Returns the magnitude in millionths. `None` means that the general parser has to read the text.
#[inline]
pub fn short_magnitude(text: &[u8]) -> Option<u64>
    ensures value { IfSome result (λ m. (negative : Bool) → IsRounded negative m (decimal_of negative text.now)) }
    ensures small { IfSome result (λ m. m ≤ 10 ^ 18) }
{
    if text.len() > MAX_SHORT_BYTES {
        return None;
    }
    let (whole, rest) = accumulate_digits(0, text);
    if rest.is_empty() {
        if text.is_empty() {
            return None;
        }
        return Some(whole * 1_000_000);
    }
    let [point, part @ ..] = rest else {
        return None;
    };
    if *point != b'.' {
        return None;
    }
    let (number, after) = accumulate_digits(whole, part);
    if !after.is_empty() {
        return None;
    }
    if text.len() == 1 {
        return None;
    }
    if part.len() > PLACES {
        return None;
    }
    Some(number * power_of_ten(PLACES - part.len()) as u64)
}

// Parses numbers that stand as words of a record.
ghost use Rattle.std.specs.Prelude.{◌≡◌, ◌^◌, ◌<◌, ◌≤◌, IfSome};
ghost use Rattle.ts_spec.specs.Sample.{MAX_TIME};
ghost use Rattle.ts_checkpoint.specs.Numbers as spec;

use ts_decimal::parse;
use ts_sample::{MAX_TIME, Units};

// The most digits of a number. More might not fit 127 bits.
const DIGITS: usize = 38;

// Parses 1 to 38 digits.
#[tactic(auto, unfolding(crate::specs::Numbers::whole))]
fn whole(word: &[u8]) -> Option<u128>
    ensures value { result ≡ spec.whole word.now }
    ensures small { IfSome result (λ n. n < 10 ^ 38) }
{
    if word.is_empty() || word.len() > DIGITS {
        return None;
    }
    let mut total: u128 = 0;
    for byte in word {
        if !byte.is_ascii_digit() {
            return None;
        }
        total = total * 10 + u128::from(*byte - b'0');
    }
    Some(total)
}

// Parses a number between two others, both included.
#[tactic(auto, unfolding(crate::specs::Numbers::number_in))]
pub(crate) fn number_in(least: u64, most: u64, word: &[u8]) -> Option<u64>
    ensures value { result ≡ spec.number_in least most word.now }
    ensures most { IfSome result (λ n. n ≤ most) }
{
    let number = whole(word)?;
    if u128::from(least) <= number && number <= u128::from(most) {
        Some(number as u64)
    } else {
        None
    }
}

// Parses a time.
pub(crate) fn time_in(word: &[u8]) -> Option<u64>
    ensures value { result ≡ spec.time_in word.now }
    ensures bound { IfSome result (λ t. t ≤ MAX_TIME) }
{
    number_in(0, MAX_TIME, word)
}

// Parses a number of 32 bits.
pub(crate) fn small_number_in(least: u32, most: u32, word: &[u8]) -> Option<u32>
    ensures { result ≡ spec.number_in least most word.now }
{
    let number = number_in(u64::from(least), u64::from(most), word)?;
    Some(number as u32)
}

// Parses a time, or `-` for none.
#[tactic(auto, unfolding(crate::specs::Numbers::time_or_none))]
pub(crate) fn time_or_none(word: &[u8]) -> Option<Option<u64>>
    ensures { result ≡ spec.time_or_none word.now }
{
    if word == b"-".as_slice() {
        return Some(None);
    }
    let time = time_in(word)?;
    Some(Some(time))
}

// Parses an integer.
#[tactic(auto, unfolding(crate::specs::Numbers::integer))]
pub(crate) fn integer(word: &[u8]) -> Option<i128>
    ensures { result ≡ spec.integer word.now }
{
    let [first, digits @ ..] = word else {
        return None;
    };
    if *first == b'-' {
        let magnitude = whole(digits)?;
        return Some(-(magnitude as i128));
    }
    let number = whole(word)?;
    Some(number as i128)
}

// Parses a value.
#[tactic(auto, unfolding(crate::specs::Numbers::value_in))]
pub(crate) fn value_in(word: &[u8]) -> Option<Units>
    ensures { result ≡ spec.value_in word.now }
{
    match parse(word) {
        Ok(value) => Some(value),
        Err(_) => None,
    }
}

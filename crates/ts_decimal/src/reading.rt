// Parses a decimal text into a value.
ghost use Rattle.std.specs.Prelude.{◌≡◌, ℕ, ◌+◌, ◌*◌, ◌/◌, ◌^◌, ◌≤◌, ◌<◌, Bool, length, MatchOption, IfSome};
ghost use Rattle.ts_spec.specs.Value.{bound, value, nearest, signed, decimal_of};
ghost use Rattle.ts_decimal.specs.Leading.{Leads};
ghost use Rattle.ts_decimal.specs.Reading.{IsSpelled, in_range_of};

use crate::arithmetic::power_of_ten;
use crate::lexer::{Leading, read_exponent, split_sign};
use crate::short::short_magnitude;
use ts_sample::Units;
use ts_spec::ValueFault;

/// The length limit of a value's text, in bytes.
const MAX_TEXT_BYTES: usize = 64;

/// The decimal places of a value.
pub(crate) const PLACES: usize = 6;

/// Raising even the digit 1 by more places than this exceeds the largest value.
const MAX_RAISE: usize = 24;

/// Lowering the stored digits by more places than this gives less than a half.
const MAX_LOWER: usize = 30;

/// A decimal without its sign: digits * 10^up / 10^down.
#[derive(Clone, Copy)]
struct Decimal {
    digits: Leading,
    up: usize,
    down: usize,
}

impl Decimal {
    /// Parses a decimal without its sign.
    fn read(text: &[u8]) -> Option<Decimal>
        requires { length text.now ≤ 64 }
        ensures value { (negative : Bool) → MatchOption result
            (decimal_of negative text.now ≡ None)
            (λ d. IsSpelled negative d.digits.first d.digits.dropped d.up d.down (decimal_of negative text.now)) }
        ensures bound { IfSome result (λ d. (d.digits.dropped ≤ 64) × (d.up < 1000)) }
        ensures kept { IfSome result (λ d. d.digits.first < 10 ^ 30) }
    {
        let mut digits = Leading::new();
        let after_whole = digits.read_digits(text);
        let whole = text.len() - after_whole.len();
        let (places, rest) = digits.read_fraction(after_whole);
        let scale = read_exponent(rest)?;
        if whole + places == 0 {
            return None;
        }
        Some(Decimal {
            digits,
            up: scale.up,
            down: places + scale.down,
        })
    }

    /// The magnitude in millionths, rounded. `None` if it certainly exceeds the largest value.
    fn millionths(&self) -> Option<u128>
        requires kept { self.now.digits.first < 10 ^ 30 }
        requires dropped { self.now.digits.dropped ≤ 64 }
        requires up { self.now.up < 1000 }
        ensures value { (n : ℕ) → Leads self.now.digits.first self.now.digits.dropped n → MatchOption result
            (bound < nearest (n * 10 ^ (self.now.up + 6)) (10 ^ self.now.down))
            (λ m. nearest (n * 10 ^ (self.now.up + 6)) (10 ^ self.now.down) ≡ m) }
        ensures small { IfSome result (λ m. m < 2 ^ 127) }
    {
        let raised = self.digits.dropped + self.up + PLACES;
        if self.down <= raised {
            raise(self.digits.first, raised - self.down)
        } else {
            Some(lower(self.digits.first, self.down - raised))
        }
    }
}

/// first * 10^k, or `None` if that exceeds the largest value.
fn raise(first: u128, k: usize) -> Option<u128>
    ensures value { MatchOption result (bound < first * 10 ^ k) (λ m. m ≡ first * 10 ^ k) }
    ensures within { IfSome result (λ m. m ≤ bound) }
{
    if first == 0 {
        return Some(0);
    }
    if k > MAX_RAISE || first > power_of_ten(MAX_RAISE - k) {
        return None;
    }
    Some(first * power_of_ten(k))
}

/// first / 10^k, rounded to the nearest whole number, and a tie upwards.
fn lower(first: u128, k: usize) -> u128
    requires kept { first < 10 ^ 30 }
    requires some { 0 < k }
    ensures value { result ≡ (first + 10 ^ k / 2) / 10 ^ k }
    ensures small { result ≤ 10 ^ 30 }
{
    if k > MAX_LOWER {
        return 0;
    }
    let power = power_of_ten(k);
    (first + power / 2) / power
}

fn with_sign(negative: bool, magnitude: u128) -> i128
    requires { magnitude < 2 ^ 127 }
    ensures { result ≡ signed negative magnitude }
{
    let number = magnitude as i128;
    if negative { -number } else { number }
}

/// A number of millionths as a value, or `OutOfRange`.
fn in_range(millionths: i128) -> Result<Units, ValueFault>
    ensures { result ≡ in_range_of millionths }
{
    match Units::new(millionths) {
        Some(value) => Ok(value),
        None => Err(ValueFault::OutOfRange),
    }
}

/// Parses a value: 1 to 64 bytes of an optional `+` or `-`, digits with at most one point and at least one digit, and
/// optionally `e` or `E`, a sign and one to three digits. Rounds to the nearest millionth, and a tie away from zero.
/// A value beyond 10^24 millionths, or below their negative, is `OutOfRange`. Any other text is `NotANumber`.
pub fn parse(text: &[u8]) -> Result<Units, ValueFault>
    ensures { result ≡ value text.now }
{
    if text.is_empty() || text.len() > MAX_TEXT_BYTES {
        return Err(ValueFault::NotANumber);
    }
    let (negative, body) = split_sign(text);
    if let Some(magnitude) = short_magnitude(body) {
        return in_range(with_sign(negative, u128::from(magnitude)));
    }
    let Some(decimal) = Decimal::read(body) else {
        return Err(ValueFault::NotANumber);
    };
    let Some(magnitude) = decimal.millionths() else {
        return Err(ValueFault::OutOfRange);
    };
    in_range(with_sign(negative, magnitude))
}

// Splits a sign, a digit or an exponent off a decimal text, and reads the leading digits of a number of any length:
// enough of them to round it.
ghost use Rattle.std.specs.Prelude.{◌≡◌, ◌≤◌, length, MatchOption, ◌<◌, ℕ, true, false, IfSome, ◌+◌, ◌*◌, ◌^◌};
ghost use Rattle.ts_spec.specs.Value.{is_negative, unsigned, is_short, number_after, exponent, digits, after_digits};
ghost use Rattle.ts_spec.specs.Value.{fraction, after_fraction};
ghost use Rattle.ts_decimal.specs.Digits.{BeginsWith, HasNoDigit};
ghost use Rattle.ts_decimal.specs.Leading.{Leads};

use std::marker::Model;

/// Returns whether `text` starts with a minus, and the text after the optional sign.
pub fn split_sign(text: &[u8]) -> (bool, &[u8])
    ensures negative { result.0 ≡ is_negative text.now }
    ensures rest { result.1.now ≡ unsigned text.now }
    ensures bound { length result.1.now ≤ length text.now }
{
    match text {
        [b'-', rest @ ..] => (true, rest),
        [b'+', rest @ ..] => (false, rest),
        _ => (false, text),
    }
}

/// The leading digit of `text` and the rest, or `None` if it does not start with a digit.
pub fn split_digit(text: &[u8]) -> Option<(u8, &[u8])>
    ensures { MatchOption result (HasNoDigit text.now) (λ p. BeginsWith text.now p.0 p.1.now) }
{
    match text {
        [digit @ b'0'..=b'9', after @ ..] => Some((digit - b'0', after)),
        _ => None,
    }
}

/// The factor 10^up / 10^down.
#[derive(Clone, Copy)]
pub struct Scale {
    pub up: usize,
    pub down: usize,
}

impl Model for Scale {
    ghost use Rattle.ts_spec.specs.Value.{Scale};

    ghost Value = { Scale };

    ghost view = { λ s. record { up = s.up; down = s.down } };

    ghost inverse = { λ s. record { up = s.up; down = s.down } };
}

/// Parses a text of one to three digits. Any other text is `None`.
fn short_number(text: &[u8]) -> Option<usize>
    ensures value { MatchOption result (is_short text.now ≡ false) (λ n. (is_short text.now ≡ true)
        × (n ≡ number_after 0 text.now)) }
    ensures bound { IfSome result (λ n. n < 1000) }
{
    if text.is_empty() || text.len() > 3 {
        return None;
    }
    let mut number = 0;
    let mut rest = text;
    while let Some((digit, after)) = split_digit(rest) {
        number = 10 * number + usize::from(digit);
        rest = after;
    }
    if rest.is_empty() { Some(number) } else { None }
}

/// Parses the exponent at the end of a decimal: an empty text, or `e` or `E`, an optional sign and one to three
/// digits. Any other text is `None`.
pub fn read_exponent(text: &[u8]) -> Option<Scale>
    ensures value { result ≡ exponent text.now }
    ensures bound { IfSome result (λ s. (s.up < 1000) × (s.down < 1000)) }
{
    match text {
        [] => Some(Scale { up: 0, down: 0 }),
        [b'e' | b'E', rest @ ..] => {
            let (negative, digits) = split_sign(rest);
            let number = short_number(digits)?;
            Some(if negative {
                Scale {
                    up: 0,
                    down: number,
                }
            } else {
                Scale {
                    up: number,
                    down: 0,
                }
            })
        }
        _ => None,
    }
}

/// Digits are stored while the number is below this. That is at most 30 digits, more than the largest value has.
const DROP_THRESHOLD: u128 = 100_000_000_000_000_000_000_000_000_000;

/// A whole number: its leading digits, and how many digits were dropped after them.
#[derive(Clone, Copy)]
pub struct Leading {
    pub first: u128,
    pub dropped: usize,
}

impl Leading {
    /// No digits yet.
    pub fn new() -> Leading
        ensures value { Leads result.first result.dropped 0 }
        ensures none { result.dropped ≡ 0 }
    {
        Leading {
            first: 0,
            dropped: 0,
        }
    }

    /// Appends one digit.
    fn with(self, digit: u8) -> Leading
        requires digit { digit < 10 }
        requires room { self.dropped < 1000 }
        ensures value { (n : ℕ) → Leads self.first self.dropped n → Leads result.first result.dropped (n * 10 + digit) }
        ensures bound { result.dropped ≤ self.dropped + 1 }
    {
        if self.first < DROP_THRESHOLD {
            Leading {
                first: 10 * self.first + u128::from(digit),
                dropped: self.dropped,
            }
        } else {
            Leading {
                first: self.first,
                dropped: self.dropped + 1,
            }
        }
    }

    /// Reads the leading digits of `text` and returns the rest of it.
    pub fn read_digits<'a>(&mut self, text: &'a [u8]) -> &'a [u8]
        requires room { self.old.dropped + length text.now ≤ 1000 }
        ensures rest { result.now ≡ after_digits text.now }
        ensures value { (n : ℕ) → Leads self.old.first self.old.dropped n
            → Leads self.new.first self.new.dropped (number_after n (digits text.now)) }
        ensures bound { self.new.dropped + length result.now ≤ self.old.dropped + length text.now }
        ensures count { length result.now + length (digits text.now) ≡ length text.now }
    {
        let mut number = *self;
        let mut rest = text;
        while let Some((digit, after)) = split_digit(rest) {
            number = number.with(digit);
            rest = after;
        }
        *self = number;
        rest
    }

    /// Reads a point and the digits after it, if `text` starts with a point. Returns the number of digits and the
    /// rest of the text.
    pub fn read_fraction<'a>(&mut self, text: &'a [u8]) -> (usize, &'a [u8])
        requires room { self.old.dropped + length text.now ≤ 1000 }
        ensures places { result.0 ≡ length (fraction text.now) }
        ensures rest { result.1.now ≡ after_fraction text.now }
        ensures value { (n : ℕ) → Leads self.old.first self.old.dropped n
            → Leads self.new.first self.new.dropped (number_after n (fraction text.now)) }
        ensures bound { self.new.dropped ≤ self.old.dropped + length text.now }
        ensures few { result.0 ≤ length text.now }
    {
        match text {
            [b'.', part @ ..] => {
                let rest = self.read_digits(part);
                (part.len() - rest.len(), rest)
            }
            _ => (0, text),
        }
    }
}

// The check number of a list of words, one word after another.
ghost use Rattle.std.specs.Prelude.{◌≡◌, ◌<◌, ◌^◌, ◌++◌, List, ℕ, [], ◌∷◌, fold};
ghost use Rattle.ts_restore.specs.CheckNumber.{MODULUS, check_symbol, check_word, check_number, number};

use std::marker::Model;

// The greatest prime number below 2^32.
const PRIME: u64 = 4_294_967_291;

// What stands for the end of a word.
const WORD_END: u64 = 256;

// The remainders of 257^4 and 257^8 divided by the prime.
const FOUR: u64 = 67_503_110;

const EIGHT: u64 = 1_621_696_888;

/// The check number of the words that were added to it. It changes if any one byte of them does.
#[derive(Clone, Copy, Debug, PartialEq, Eq)]
pub struct CheckNumber {
    value: u32,
}

impl Model for CheckNumber {
    ghost use Rattle.std.specs.Prelude.{ℕ, ◌<◌};
    ghost use Rattle.ts_restore.specs.CheckNumber.{MODULUS};

    ghost Value = { ℕ };

    ghost view = { λ c. c.value };

    ghost invariant = { λ c. c.value < MODULUS };

    ghost inverse = { λ n. record { value = n } };
}

impl CheckNumber {
    /// The check number of no words.
    pub fn new() -> CheckNumber
        ensures { result ≡ check_number [] }
    {
        CheckNumber { value: 0 }
    }

    /// Adds a word.
    pub fn add(&mut self, word: &[u8])
        ensures word { self.new ≡ check_word self.old word.now }
        ensures words { (words : List (List ℕ)) → self.old ≡ check_number words
            → self.new ≡ check_number (words ++ word.now ∷ []) }
    {
        self.value = with_word(self.value, word);
    }

    /// The number, below 4,294,967,291.
    pub fn get(self) -> u32
        ensures value { result ≡ self }
        ensures bounded { result < MODULUS }
    {
        self.value
    }
}

// The check number after a word. Takes eight bytes at a time, since each division waits for the one before it.
fn with_word(check: u32, word: &[u8]) -> u32
    ensures value { result ≡ check_word check word.now }
    ensures bounded { result < MODULUS }
{
    let mut so_far = check;
    let mut left = word;
    while let [a, b, c, d, e, f, g, h, rest @ ..] = left {
        so_far = with_eight(so_far, [*a, *b, *c, *d], [*e, *f, *g, *h]);
        left = rest;
    }
    for byte in left {
        so_far = with_symbol(so_far, u64::from(*byte));
    }
    with_symbol(so_far, WORD_END)
}

// The check number after eight bytes.
fn with_eight(check: u32, high: [u8; 4], low: [u8; 4]) -> u32
    ensures value { result ≡ fold check_symbol check (high ++ low) }
    ensures bounded { result < MODULUS }
{
    ((EIGHT * u64::from(check) + (FOUR * number(high) + number(low))) % PRIME) as u32
}

// Four bytes as a number to the base of 257, with one added to each.
fn number(bytes: [u8; 4]) -> u64
    ensures value { result ≡ number bytes }
    ensures bounded { result < 257 ^ 4 }
{
    let [a, b, c, d] = bytes;
    let front = 257 * (257 * (u64::from(a) + 1) + u64::from(b) + 1) + u64::from(c) + 1;
    257 * front + u64::from(d) + 1
}

// The check number after a byte or the end of a word.
fn with_symbol(check: u32, symbol: u64) -> u32
    requires { symbol < 257 }
    ensures value { result ≡ check_symbol check symbol }
    ensures bounded { result < MODULUS }
{
    ((257 * u64::from(check) + symbol + 1) % PRIME) as u32
}

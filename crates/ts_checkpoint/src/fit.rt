// Whether a record is within limits, and how it is encoded.
ghost use Rattle.std.specs.Prelude.{◌≡◌, ◌++◌, ◌↔◌, IsTrue, OnOk};
ghost use Rattle.ts_spec.specs.Encoded.{Fits, encoded_request, encoded_words};
ghost use Rattle.ts_checkpoint.specs.WithinLimits.{fit_within};

use std::alloc::AllocError;
use ts_resp::{Out, Word, encode_bulk, encode_count};
use ts_spec::WireLimits;

/// Whether a record has words and is within these limits. Allocates nothing.
pub fn fits(words: &[Word], limits: WireLimits) -> bool
    ensures { IsTrue result ↔ Fits limits words.now }
{
    if words.is_empty() {
        return false;
    }
    if words.len() > limits.words as usize {
        return false;
    }
    fit_within(words, limits)
}

// Whether the bytes of words are within these limits.
fn fit_within(words: &[Word], limits: WireLimits) -> bool
    ensures { result ≡ fit_within limits.word_bytes limits.request_bytes words.now }
{
    let mut left = limits.request_bytes as usize;
    for word in words {
        let size = word.bytes().len();
        if size > limits.word_bytes as usize || size > left {
            return false;
        }
        left -= size;
    }
    true
}

/// Appends a record as a RESP request.
pub fn encode_record(words: &[Word], out: &mut Out) -> Result<(), AllocError>
    ensures { OnOk result (out.new.bytes ≡ out.old.bytes ++ encoded_request words.now) }
{
    encode_count(words.len(), out)?;
    encode_words(words, out)
}

// Appends words as bulk strings.
fn encode_words(words: &[Word], out: &mut Out) -> Result<(), AllocError>
    ensures { OnOk result (out.new.bytes ≡ out.old.bytes ++ encoded_words words.now) }
{
    for word in words {
        encode_bulk(word.bytes(), out)?;
    }
    Ok(())
}

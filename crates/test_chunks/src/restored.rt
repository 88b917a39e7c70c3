// A packed chunk made from bytes in hexadecimal digits.
ghost use Rattle.std.specs.Prelude.{◌≤◌, IfSome};

use crate::texts::chunk_text;
use std::alloc::{AllocError, Global};
use std::sync::ledger::Ledger;
use ts_chunk_packed::PackedChunk;
use ts_sample::Steps;

// Prints the chunk of this limit with these bytes, or `none`. Returns `None` if the text is not a limit and bytes.
pub(crate) fn restored_text<L: Ledger>(
    alloc: Global,
    text: &str,
    steps: &mut Steps<L>,
) -> Result<Option<String>, AllocError> {
    let (limit, digits) = text.split_once(' ').unwrap_or((text, ""));
    let Ok(limit) = limit.parse::<u32>() else {
        return Ok(None);
    };
    if limit < 48 || 1_048_576 < limit {
        return Ok(None);
    }
    let Some(bytes) = bytes_of(alloc, digits.as_bytes())? else {
        return Ok(None);
    };
    match PackedChunk::of_bytes(alloc, limit, &bytes)? {
        Some(restored) => Ok(Some(chunk_text(alloc, &restored.chunk, steps)?)),
        None => Ok(Some(String::from_str(alloc, "none")?)),
    }
}

// The bytes of hexadecimal digits, two a byte.
fn bytes_of(alloc: Global, digits: &[u8]) -> Result<Option<Vec<u8>>, AllocError> {
    let mut bytes = Vec::new(alloc);
    let mut rest = digits;
    while let [high, low, after @ ..] = rest {
        let (Some(high), Some(low)) = (digit_of(*high), digit_of(*low)) else {
            return Ok(None);
        };
        bytes.push(high * 16 + low)?;
        rest = after;
    }
    Ok(if rest.is_empty() { Some(bytes) } else { None })
}

// The value of a hexadecimal digit.
fn digit_of(digit: u8) -> Option<u8>
    ensures { IfSome result (λ n. n ≤ 15) }
{
    match digit {
        b'0'..=b'9' => Some(digit - b'0'),
        b'a'..=b'f' => Some(digit - b'a' + 10),
        _ => None,
    }
}

// Bytes, packets and numbers as text.
use std::alloc::{AllocError, Global};
use ts_io::Packet;

// Appends the bytes of a text with the escapes `\r`, `\n`, `\0` and `\x14`. Returns whether it has no others.
pub(crate) fn push_text(bytes: &mut Vec<u8>, text: &str) -> Result<bool, AllocError> {
    let Some((plain, escaped)) = text.split_once('\\') else {
        bytes.extend_from_slice(text.as_bytes())?;
        return Ok(true);
    };
    bytes.extend_from_slice(plain.as_bytes())?;
    for piece in escaped.split('\\') {
        if !push_escaped(bytes, piece.as_bytes())? {
            return Ok(false);
        }
    }
    Ok(true)
}

// Appends an escape, without its backslash, and the text after it. Returns whether there is such an escape.
fn push_escaped(bytes: &mut Vec<u8>, piece: &[u8]) -> Result<bool, AllocError> {
    let (byte, rest) = match piece {
        [b'r', rest @ ..] => (b'\r', rest),
        [b'n', rest @ ..] => (b'\n', rest),
        [b'0', rest @ ..] => (b'\0', rest),
        [b'x', high, low, rest @ ..] => (digit(*high) << 4 | digit(*low), rest),
        _ => return Ok(false),
    };
    bytes.push(byte)?;
    bytes.extend_from_slice(rest)?;
    Ok(true)
}

// The value of a hexadecimal digit.
fn digit(letter: u8) -> u8 {
    match letter {
        b'0'..=b'9' => letter - b'0',
        b'a'..=b'f' => letter - b'a' + 10,
        _ => 0,
    }
}

// The packet that is written as the number of a link and its bytes.
pub(crate) fn packet_of(alloc: Global, text: &str) -> Result<Option<Packet>, AllocError> {
    let (link, text) = text.split_once(' ').unwrap_or((text, ""));
    let Ok(link) = link.parse::<u64>() else {
        return Ok(None);
    };
    let mut bytes = Vec::new(alloc);
    if !push_text(&mut bytes, text)? {
        return Ok(None);
    }
    Ok(Some(Packet { link, bytes }))
}

// Appends the numbers in a text, separated by spaces. Returns whether it has nothing else.
pub(crate) fn push_numbers(numbers: &mut Vec<u64>, text: &str) -> Result<bool, AllocError> {
    for word in text.split(' ') {
        let Ok(number) = word.parse::<u64>() else {
            return Ok(false);
        };
        numbers.push(number)?;
    }
    Ok(true)
}

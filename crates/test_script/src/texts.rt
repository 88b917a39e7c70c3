// Bytes and answers as text.
use std::alloc::{AllocError, Global};
use std::fmt::Display;
use std::io;
use ts_io::{Cause, Failed};

/// An answer that has this text.
pub fn answer_of<D: Display + Drop>(alloc: Global, value: D) -> io::Result<Option<String>> {
    Ok(Some(format!(in alloc; "{value}")?))
}

/// The answer of a call that returns nothing.
pub fn silent(alloc: Global) -> io::Result<Option<String>> {
    Ok(Some(String::new(alloc)))
}

/// `ok` or `failed`.
pub fn done(alloc: Global, outcome: Result<(), Failed>) -> io::Result<Option<String>> {
    answer_of(alloc, if outcome.is_ok() { "ok" } else { "failed" })
}

/// A count, or `failed`.
pub fn counted(alloc: Global, outcome: Result<usize, Failed>) -> io::Result<Option<String>> {
    match outcome {
        Ok(count) => answer_of(alloc, count),
        Err(_) => answer_of(alloc, "failed"),
    }
}

/// How many bytes were read and then all of the buffer, or `failed`.
pub fn bytes_read(
    alloc: Global,
    outcome: Result<usize, Failed>,
    buf: &[u8],
) -> io::Result<Option<String>> {
    let Ok(count) = outcome else {
        return answer_of(alloc, "failed");
    };
    let mut text = format!(in alloc; "{count} ")?;
    push_bytes(&mut text, buf)?;
    Ok(Some(text))
}

/// A cause, or `none`.
pub fn cause(alloc: Global, cause: Option<Cause>) -> io::Result<Option<String>> {
    match cause {
        Some(cause) => Ok(Some(format!(in alloc; "{cause:?}")?)),
        None => answer_of(alloc, "none"),
    }
}

/// An answer that has these bytes, with the escapes `\r`, `\n` and `\0`.
pub fn shown(alloc: Global, bytes: &[u8]) -> io::Result<Option<String>> {
    let mut text = String::new(alloc);
    push_bytes(&mut text, bytes)?;
    Ok(Some(text))
}

/// Appends these bytes in the same way.
pub fn push_bytes(text: &mut String, bytes: &[u8]) -> Result<(), AllocError> {
    for byte in bytes {
        match *byte {
            b'\r' => text.push_str("\\r")?,
            b'\n' => text.push_str("\\n")?,
            b'\0' => text.push_str("\\0")?,
            other => text.push(char::from(other))?,
        }
    }
    Ok(())
}

/// The bytes of a text. Its parts stand between ` + `. A part `numbered 1000` has this many bytes, each of which tells
/// its offset; a part `repeated 1000 q` has one text as often; and any other part is written with the escapes of
/// `shown`.
pub fn bytes_of(alloc: Global, text: &str) -> Result<Vec<u8>, AllocError> {
    let mut bytes = Vec::new(alloc);
    for part in text.split(" + ") {
        push_part(&mut bytes, part)?;
    }
    Ok(bytes)
}

fn push_part(bytes: &mut Vec<u8>, part: &str) -> Result<(), AllocError> {
    if let Some(count) = part.strip_prefix("numbered ") {
        return push_numbered(bytes, number_of(count));
    }
    match part.strip_prefix("repeated ") {
        Some(rest) => push_repeated(bytes, rest),
        None => push_text(bytes, part),
    }
}

fn push_repeated(bytes: &mut Vec<u8>, part: &str) -> Result<(), AllocError> {
    let (count, text) = part.split_once(' ').unwrap_or((part, ""));
    for _ in 0..number_of(count) {
        bytes.extend_from_slice(text.as_bytes())?;
    }
    Ok(())
}

fn push_numbered(bytes: &mut Vec<u8>, count: u64) -> Result<(), AllocError> {
    let mut pattern = [0; 251];
    for place in 0..251_u8 {
        pattern[usize::from(place)] = place;
    }
    for _ in 0..count / 251 {
        bytes.extend_from_slice(&pattern)?;
    }
    bytes.extend_from_slice(&pattern[..(count % 251) as usize])
}

fn push_text(bytes: &mut Vec<u8>, text: &str) -> Result<(), AllocError> {
    let mut is_escaped = false;
    for byte in text.as_bytes() {
        match (is_escaped, *byte) {
            (false, b'\\') => is_escaped = true,
            (false, byte) => bytes.push(byte)?,
            (true, letter) => {
                bytes.push(escaped(letter))?;
                is_escaped = false;
            }
        }
    }
    Ok(())
}

fn escaped(letter: u8) -> u8 {
    match letter {
        b'r' => b'\r',
        b'n' => b'\n',
        _ => b'\0',
    }
}

/// A number, or 0 if the text is none.
pub fn number_of(text: &str) -> u64 {
    text.parse::<u64>().unwrap_or(0)
}

/// The numbers in a text, separated by spaces.
pub fn numbers_of(alloc: Global, text: &str) -> Result<Vec<u64>, AllocError> {
    let mut numbers = Vec::new(alloc);
    for word in text.split(' ') {
        if let Ok(number) = word.parse::<u64>() {
            numbers.push(number)?;
        }
    }
    Ok(numbers)
}

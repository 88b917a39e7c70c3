// The bytes of requests and expected replies.
use itoa::Buffer;
use std::alloc::{AllocError, Global};

/// The bytes of requests, and of the expected replies.
#[derive(Drop)]
pub struct Exchange {
    pub input: Vec<u8>,
    pub out: Vec<u8>,
}

impl Exchange {
    // Creates one without requests.
    pub(crate) fn new(alloc: Global) -> Exchange {
        Exchange {
            input: Vec::new(alloc),
            out: Vec::new(alloc),
        }
    }

    // Adds a command, with its arguments separated by spaces, and its reply in either form.
    pub(crate) fn push(&mut self, command: &str, reply: &str) -> Result<(), AllocError> {
        push_request(command, &mut self.input)?;
        match reply.strip_prefix('[') {
            Some(rest) => push_rows(rest.trim_end_matches(']'), &mut self.out),
            None => push_lines(reply, &mut self.out),
        }
    }

    // Adds bytes to send, and expected bytes.
    pub(crate) fn push_bytes(&mut self, sent: &str, due: &str) -> Result<(), AllocError> {
        push_bytes(sent, &mut self.input)?;
        push_bytes(due, &mut self.out)
    }
}

// Appends a type byte, a number and CRLF.
fn push_header(mark: u8, number: usize, bytes: &mut Vec<u8>) -> Result<(), AllocError> {
    let mut digits = Buffer::new();
    bytes.push(mark)?;
    bytes.extend_from_slice(digits.format(number).as_bytes())?;
    bytes.extend_from_slice(b"\r\n")
}

// Appends the request of a command.
pub(crate) fn push_request(command: &str, bytes: &mut Vec<u8>) -> Result<(), AllocError> {
    push_header(b'*', command.split(' ').count(), bytes)?;
    for word in command.split(' ') {
        push_header(b'$', word.len(), bytes)?;
        bytes.extend_from_slice(word.as_bytes())?;
        bytes.extend_from_slice(b"\r\n")?;
    }
    Ok(())
}

// Appends a reply whose lines are separated by ` | `.
fn push_lines(reply: &str, bytes: &mut Vec<u8>) -> Result<(), AllocError> {
    for line in reply.split(" | ") {
        bytes.extend_from_slice(line.as_bytes())?;
        bytes.extend_from_slice(b"\r\n")?;
    }
    Ok(())
}

// Appends rows written as `1:2, 3:4`, each a time and a value. An empty text has no rows.
fn push_rows(rows: &str, bytes: &mut Vec<u8>) -> Result<(), AllocError> {
    push_header(b'*', rows.matches(':').count(), bytes)?;
    for row in rows.split(", ") {
        if let Some((time, value)) = row.split_once(':') {
            bytes.extend_from_slice(b"*2\r\n:")?;
            bytes.extend_from_slice(time.as_bytes())?;
            bytes.extend_from_slice(b"\r\n+")?;
            bytes.extend_from_slice(value.as_bytes())?;
            bytes.extend_from_slice(b"\r\n")?;
        }
    }
    Ok(())
}

// Appends the bytes of a text, with the escapes `\r`, `\n` and `\t`.
pub(crate) fn push_bytes(text: &str, bytes: &mut Vec<u8>) -> Result<(), AllocError> {
    let mut marked = false;
    for byte in text.as_bytes() {
        let byte = match *byte {
            b'r' if marked => b'\r',
            b'n' if marked => b'\n',
            b't' if marked => b'\t',
            byte => byte,
        };
        marked = byte == b'\\';
        if !marked {
            bytes.push(byte)?;
        }
    }
    Ok(())
}

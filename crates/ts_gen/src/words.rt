// Writes requests in RESP.
ghost use Rattle.std.specs.Prelude.{◌≡◌, ◌∷◌, ◌++◌, length, OnOk};
ghost use Rattle.std.specs.Fmt.{decimal};
ghost use Rattle.ts_spec.specs.Encoded.{encoded_word};
ghost use Rattle.ts_spec.specs.Text.{CRLF};
ghost use Rattle.ts_spec.specs.Wire.{STAR, DOLLAR};

use itoa::Buffer;
use std::alloc::AllocError;

// Writes the header of a request with this many arguments.
pub(crate) fn write_request_start(bytes: &mut Vec<u8>, words: usize) -> Result<(), AllocError>
    ensures { OnOk result (bytes.new.items ≡ bytes.old.items ++ (STAR ∷ decimal words ++ CRLF)) }
{
    write_length_line(bytes, b'*', words)
}

// Writes an argument.
pub(crate) fn write_request_word(bytes: &mut Vec<u8>, word: &[u8]) -> Result<(), AllocError>
    ensures { OnOk result (bytes.new.items ≡ bytes.old.items ++ encoded_word word.now) }
{
    write_length_line(bytes, b'$', word.len())?;
    bytes.extend_from_slice(word)?;
    bytes.extend_from_slice(b"\r\n")
}

// Writes a number in decimal as an argument.
pub(crate) fn write_request_number(bytes: &mut Vec<u8>, number: u64) -> Result<(), AllocError>
    ensures { OnOk result (bytes.new.items ≡ bytes.old.items ++ encoded_word (decimal number)) }
{
    write_request_word(bytes, Buffer::new().format(number).as_bytes())
}

// Writes a line of a type byte and a number.
fn write_length_line(bytes: &mut Vec<u8>, first: u8, number: usize) -> Result<(), AllocError>
    ensures { OnOk result (bytes.new.items ≡ bytes.old.items ++ (first ∷ decimal number ++ CRLF)) }
{
    bytes.push(first)?;
    bytes.extend_from_slice(Buffer::new().format(number).as_bytes())?;
    bytes.extend_from_slice(b"\r\n")
}

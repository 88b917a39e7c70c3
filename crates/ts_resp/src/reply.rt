// Replies and their encoding.
ghost use Rattle.std.specs.Prelude.{◌≡◌, ◌+◌, ◌^◌, ◌<◌, ◌≤◌, ◌++◌, length, OnOk, OnErr};
ghost use Rattle.std.specs.Option.{SomeIff};
ghost use Rattle.std.specs.Fmt.{decimal};
ghost use Rattle.ts_spec.specs.Text.{Bulk, Array, text, line_text, shown_cell};
ghost use Rattle.ts_resp.specs.Replies.{reply_of, all_of, value_of};

use crate::{Out, Word};
use itoa::Buffer;
use std::alloc::AllocError;
use ts_decimal::print;
use ts_sample::Cell;

/// A RESP2 reply.
///
/// Functions on replies recurse once per level of nesting. Their stack use depends on the depth, not on the number of
/// items.
#[derive(Debug, Drop)]
pub enum Reply {
    /// A simple string: `+`, the text, CRLF. The text has no CR or LF.
    Simple(&'static str),
    /// An error: `-`, the text, CRLF. The text has no CR or LF.
    Error(&'static str),
    /// An integer: `:`, the number in decimal, CRLF.
    Int(i64),
    /// A sample value as a simple string: a decimal number, or `NaN`.
    Value(Cell),
    /// A bulk string of any bytes: `$`, the length, CRLF, the bytes, CRLF.
    Bulk(Word),
    /// The null bulk string: `$-1`, CRLF.
    Nil,
    /// An array: `*`, the number of items, CRLF, then the items.
    Array(Vec<Reply>),
}

/// The encoded length in bytes, or `None` if it exceeds `usize`. Allocates nothing.
#[cycle(size)]
pub fn size_of(reply: &Reply) -> Option<usize>
    ensures { SomeIff result (length (text (reply_of reply.now)) < 2 ^ 64)
        (length (text (reply_of reply.now))) }
{
    match reply {
        Reply::Simple(words) => line_len(words.len()),
        Reply::Error(words) => line_len(words.len()),
        Reply::Int(number) => line_len(Buffer::new().format(*number).len()),
        Reply::Value(cell) => line_len(shown(*cell, &mut [0; 32]).len()),
        Reply::Bulk(word) => bulk_len(word.bytes()),
        Reply::Nil => Some(5),
        Reply::Array(replies) => array_len(replies),
    }
}

// The encoded length of an array.
#[cycle(size)]
fn array_len(replies: &[Reply]) -> Option<usize>
    ensures { SomeIff result (length (text (Array (all_of replies.now))) < 2 ^ 64)
        (length (text (Array (all_of replies.now)))) }
{
    let mut total = count_len(replies.len());
    for reply in replies {
        total = total.checked_add(size_of(reply)?)?;
    }
    Some(total)
}

// A value as text, or `NaN`.
pub(crate) fn shown(cell: Cell, room: &mut [u8; 32]) -> &[u8]
    ensures text { result.now ≡ shown_cell (value_of cell) }
    ensures short { length result.now ≤ 27 }
{
    match cell {
        Cell::Number(value) => print(value, room),
        Cell::Nan => b"NaN",
    }
}

// The length of a line: a type byte, `others` bytes and CRLF.
fn line_len(others: usize) -> Option<usize>
    ensures { SomeIff result (others + 3 < 2 ^ 64) (others + 3) }
{
    others.checked_add(3)
}

// The length of a line with a count.
pub(crate) fn count_len(count: usize) -> usize
    ensures value { result ≡ length (decimal count) + 3 }
    ensures short { result ≤ 43 }
{
    Buffer::new().format(count).len() + 3
}

// The encoded length of a bulk string.
pub(crate) fn bulk_len(bytes: &[u8]) -> Option<usize>
    ensures { SomeIff result (length (text (Bulk bytes.now)) < 2 ^ 64)
        (length (text (Bulk bytes.now))) }
{
    bytes.len().checked_add(count_len(bytes.len()) + 2)
}

/// Encodes a reply into reserved capacity. Allocates nothing.
#[cycle(put)]
pub fn put(reply: &Reply, out: &mut Out)
    requires { length (text (reply_of reply.now)) ≤ out.old.spare }
    ensures bytes { out.new.bytes ≡ out.old.bytes ++ text (reply_of reply.now) }
    ensures room { out.new.spare + length (text (reply_of reply.now)) ≡ out.old.spare }
{
    match reply {
        Reply::Simple(words) => write_type_line(b'+', words.as_bytes(), out),
        Reply::Error(words) => write_type_line(b'-', words.as_bytes(), out),
        Reply::Int(number) => {
            let mut buffer = Buffer::new();
            write_type_line(b':', buffer.format(*number).as_bytes(), out);
        }
        Reply::Value(cell) => write_type_line(b'+', shown(*cell, &mut [0; 32]), out),
        Reply::Bulk(word) => write_bulk(word.bytes(), out),
        Reply::Nil => out.add(b"$-1\r\n"),
        Reply::Array(replies) => write_array(replies, out),
    }
}

/// Encodes a reply, reserving the capacity it needs. On error the bytes are unchanged.
pub fn encode(reply: &Reply, out: &mut Out) -> Result<(), AllocError>
    ensures ok { OnOk result (out.new.bytes ≡ out.old.bytes ++ text (reply_of reply.now)) }
    ensures err { OnErr result (out.new.bytes ≡ out.old.bytes) }
    ensures full { OnErr result (out.old.spare < length (text (reply_of reply.now))) }
    ensures room { length out.old.bytes + out.old.spare ≤ length out.new.bytes + out.new.spare }
{
    let room = out.spare();
    match size_of(reply) {
        Some(size) if size <= room => {}
        Some(size) => out.reserve(size)?,
        None => return Err(AllocError),
    }
    put(reply, out);
    Ok(())
}

pub(crate) fn write_type_line(first: u8, others: &[u8], out: &mut Out)
    requires { length (line_text first others.now) ≤ out.old.spare }
    ensures bytes { out.new.bytes ≡ out.old.bytes ++ line_text first others.now }
    ensures room { out.new.spare + length (line_text first others.now) ≡ out.old.spare }
{
    out.add(&[first]);
    out.add(others);
    out.add(b"\r\n");
}

fn write_count(first: u8, count: usize, out: &mut Out)
    requires { length (line_text first (decimal count)) ≤ out.old.spare }
    ensures bytes { out.new.bytes ≡ out.old.bytes ++ line_text first (decimal count) }
    ensures room { out.new.spare + length (line_text first (decimal count)) ≡ out.old.spare }
{
    let mut buffer = Buffer::new();
    write_type_line(first, buffer.format(count).as_bytes(), out);
}

/// Writes the header of an array of `count` items into reserved capacity. Allocates nothing.
pub fn begin_array(count: usize, out: &mut Out)
    requires { length (line_text 42 (decimal count)) ≤ out.old.spare }
    ensures bytes { out.new.bytes ≡ out.old.bytes ++ line_text 42 (decimal count) }
    ensures room { out.new.spare + length (line_text 42 (decimal count)) ≡ out.old.spare }
{
    write_count(b'*', count, out);
}

pub(crate) fn write_bulk(bytes: &[u8], out: &mut Out)
    requires { length (text (Bulk bytes.now)) ≤ out.old.spare }
    ensures bytes { out.new.bytes ≡ out.old.bytes ++ text (Bulk bytes.now) }
    ensures room { out.new.spare + length (text (Bulk bytes.now)) ≡ out.old.spare }
{
    write_count(b'$', bytes.len(), out);
    out.add(bytes);
    out.add(b"\r\n");
}

// Encodes an array.
#[cycle(put)]
fn write_array(replies: &[Reply], out: &mut Out)
    requires { length (text (Array (all_of replies.now))) ≤ out.old.spare }
    ensures bytes { out.new.bytes ≡ out.old.bytes ++ text (Array (all_of replies.now)) }
    ensures room { out.new.spare + length (text (Array (all_of replies.now))) ≡ out.old.spare }
{
    write_count(b'*', replies.len(), out);
    for reply in replies {
        put(reply, out);
    }
}

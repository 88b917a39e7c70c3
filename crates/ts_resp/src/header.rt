// Parses the header lines and arguments of a RESP array from the front of the unread bytes.
ghost use Rattle.std.specs.Prelude.{ℕ, ◌≡◌, ◌+◌, ◌-◌, ◌^◌, ◌<◌, ◌≤◌, drop, length, slice_index};
ghost use Rattle.ts_spec.specs.declared.wire.Kind.TheVariants.{TooLarge};
ghost use Rattle.ts_spec.specs.Wire.{Request};
ghost use Rattle.ts_resp.specs.Headers.{IsCount, IsBegun, IsLength, IsWord, IsHeaderWithin, IsWordWithin, HasNumber};
ghost use Rattle.ts_resp.specs.Headers.{HasAtMost, feed_at, ended_by, body_at};

use crate::line::{NumberLine, number_line, short_line};
use ts_spec::{Kind, WireLimits};

// A header line: a marker byte, a number and CRLF. `feed` is the index of its LF.
#[derive(Clone, Copy)]
pub(crate) enum Header {
    Open,
    Whole { number: u32, feed: usize },
    Broken { kind: Kind, at: usize },
}

// An argument with its length line and the closing CRLF. Its bytes are `start..end`.
pub(crate) enum FoundWord {
    Open,
    Whole { start: usize, end: usize },
    Broken { kind: Kind, at: usize },
}

// Parses the `*N` line that starts a request.
pub(crate) fn count_header(bytes: &[u8], limits: &WireLimits) -> Header
    requires { 0 < length bytes.now → slice_index bytes.now 0 ≡ 42 }
    ensures meaning { IsCount limits.now bytes.now result }
    ensures begun { IsBegun limits.now bytes.now result }
    ensures within { IsHeaderWithin (length bytes.now) result }
{
    let [_, line @ ..] = bytes else {
        return Header::Open;
    };
    if let Some((number, len)) = short_line(line, limits.words, true) {
        return Header::Whole {
            number,
            feed: len + 2,
        };
    }
    match number_line(line, limits.words, true) {
        NumberLine::Open => Header::Open,
        NumberLine::Whole { number, len } => line_feed(line, number, len),
        NumberLine::Wrong { at } => Header::Broken {
            kind: Kind::Multibulk,
            at: at + 1,
        },
    }
}

// Parses the `$N` line of an argument. The request may hold `room` more bytes.
fn length_header(bytes: &[u8], limits: &WireLimits, room: u32) -> Header
    ensures meaning { (words : Request) (later : ℕ)
        → IsLength limits.now words later room bytes.now result }
    ensures within { IsHeaderWithin (length bytes.now) result }
    ensures room { HasAtMost room result }
{
    let [first, line @ ..] = bytes else {
        return Header::Open;
    };
    if *first != b'$' {
        return Header::Broken {
            kind: Kind::Dollar,
            at: 0,
        };
    }
    if let Some((number, len)) = short_line(line, limits.word_bytes, false) {
        if number > room {
            return too_large(len);
        }
        return Header::Whole {
            number,
            feed: len + 2,
        };
    }
    match number_line(line, limits.word_bytes, false) {
        NumberLine::Open => Header::Open,
        NumberLine::Whole { number, len } => {
            if number > room {
                return too_large(len);
            }
            line_feed(line, number, len)
        }
        NumberLine::Wrong { at } => Header::Broken {
            kind: Kind::Bulk,
            at: at + 1,
        },
    }
}

// The error for an argument that is too long. `len` is the index of the line's CR, counted after the marker.
fn too_large(len: usize) -> Header
    requires { len + 1 < 2 ^ 64 }
    ensures { result ≡ Header.Broken TooLarge (len + 1) }
{
    Header::Broken {
        kind: Kind::TooLarge,
        at: len + 1,
    }
}

// Checks the LF of a header line. `len` is the index of the line's CR, counted after the marker.
fn line_feed(line: &[u8], number: u32, len: usize) -> Header
    requires { len < length line.now }
    ensures line { result ≡ feed_at number (len + 2) (drop (len + 1) line.now) }
    ensures within { IsHeaderWithin (length line.now + 1) result }
    ensures number { HasNumber number result }
{
    match line.get(len + 1) {
        None => Header::Open,
        Some(b'\n') => Header::Whole {
            number,
            feed: len + 2,
        },
        Some(_) => Header::Broken {
            kind: Kind::Crlf,
            at: len + 2,
        },
    }
}

// Parses one argument with its length line. The request may hold `room` more bytes.
pub(crate) fn found_word(bytes: &[u8], limits: &WireLimits, room: u32) -> FoundWord
    ensures meaning { (words : Request) (later : ℕ)
        → IsWord limits.now (record { words = words; later = later; room = room }) bytes.now
        result }
    ensures within { IsWordWithin (length bytes.now) room result }
{
    match length_header(bytes, limits, room) {
        Header::Open => FoundWord::Open,
        Header::Whole { number, feed } => word_body(bytes, feed + 1, number),
        Header::Broken { kind, at } => FoundWord::Broken { kind, at },
    }
}

// The argument of `len` bytes that starts at `start`.
fn word_body(bytes: &[u8], start: usize, len: u32) -> FoundWord
    requires { start ≤ length bytes.now }
    ensures body { result ≡ body_at start len (drop start bytes.now) }
    ensures within { IsWordWithin (length bytes.now) len result }
{
    if bytes.len() - start < len as usize {
        return FoundWord::Open;
    }
    word_end(bytes, start, start + len as usize)
}

// The argument `start..end`, if CRLF follows it.
fn word_end(bytes: &[u8], start: usize, end: usize) -> FoundWord
    requires { (start ≤ end) × (end ≤ length bytes.now) }
    ensures ended { result ≡ ended_by start end (drop end bytes.now) }
    ensures within { IsWordWithin (length bytes.now) (end - start) result }
{
    match &bytes[end..] {
        [b'\r', b'\n', ..] => FoundWord::Whole { start, end },
        [] | [b'\r'] => FoundWord::Open,
        [b'\r', ..] => FoundWord::Broken {
            kind: Kind::Crlf,
            at: end + 1,
        },
        _ => FoundWord::Broken {
            kind: Kind::Crlf,
            at: end,
        },
    }
}

// Parses inline requests: a line of text whose arguments are separated by blanks.
ghost use Rattle.std.specs.Prelude.{◌≡◌, ◌≢◌, ◌<◌, ◌≤◌, true, false, length, slice_index, position, IfSome, not, ◌∷◌};
ghost use Rattle.std.specs.Prelude.{[], ◌++◌, OnOk, MatchOption};
ghost use Rattle.ts_resp.specs.Texts.{IsText, IsTextBegun, IsTextWithin, before_feed, is_feed, text_at};
ghost use Rattle.ts_spec.specs.Wire.{is_blank as is_blank_byte, text_of_line, words_of, words_of_line};

use crate::Word;
use std::alloc::{AllocError, Global};
use ts_spec::WireLimits;

// Where the line ends. `feed` is the index of its LF.
#[derive(Clone, Copy)]
pub(crate) enum Text {
    Open,
    Whole { feed: usize },
    TooLong,
}

// Whether the bytes start with a line of text rather than an array.
#[inline]
pub(crate) fn begins_line(bytes: &[u8]) -> bool
    ensures some { result ≡ true → 0 < length bytes.now }
    ensures line { result ≡ true → slice_index bytes.now 0 ≢ 42 }
    ensures array { result ≡ false → 0 < length bytes.now → slice_index bytes.now 0 ≡ 42 }
{
    match bytes {
        [] | [b'*', ..] => false,
        [_, ..] => true,
    }
}

// Finds the end of the line. The first `scanned` bytes are known to contain no LF.
pub(crate) fn found_text(bytes: &[u8], scanned: usize, limits: &WireLimits) -> Text
    requires some { 0 < length bytes.now }
    requires line { slice_index bytes.now 0 ≢ 42 }
    requires scanned { scanned ≤ before_feed bytes.now }
    ensures meaning { IsText limits.now bytes.now result }
    ensures begun { IsTextBegun limits.now bytes.now result }
    ensures within { IsTextWithin limits.now bytes.now result }
{
    text_end(bytes, scanned, limits.line_bytes as usize)
}

// Finds the end of a line of at most `limit` bytes.
fn text_end(bytes: &[u8], scanned: usize, limit: usize) -> Text
    requires scanned { scanned ≤ before_feed bytes.now }
    requires within { scanned ≤ length bytes.now }
    ensures { result ≡ text_at limit bytes.now }
{
    let Some(at) = feed_in(&bytes[scanned..]) else {
        if bytes.len() > limit {
            return Text::TooLong;
        }
        return Text::Open;
    };
    if scanned + at > limit {
        return Text::TooLong;
    }
    Text::Whole { feed: scanned + at }
}

// The index of the first LF.
fn feed_in(bytes: &[u8]) -> Option<usize>
    ensures place { result ≡ position is_feed bytes.now }
    ensures within { IfSome result (λ at. at < length bytes.now) }
{
    bytes.iter().position(|byte| *byte == b'\n')
}

// Appends the arguments of a line. Allocates nothing for a blank line.
pub(crate) fn push_words(
    alloc: Global,
    line: &[u8],
    words: &mut Vec<Word>,
) -> Result<(), AllocError>
    ensures { OnOk result (words.new.items ≡ words.old.items ++ words_of_line line.now) }
{
    let mut rest = text_of(line);
    while let Some((word, others)) = next_word(rest) {
        words.push(Word::from_slice(alloc, word)?)?;
        rest = others;
    }
    Ok(())
}

// Whether a line has no arguments.
pub(crate) fn is_blank_line(line: &[u8]) -> bool
    ensures blank { result ≡ true → words_of_line line.now ≡ [] }
    ensures words { result ≡ false → words_of_line line.now ≢ [] }
{
    next_word(text_of(line)).is_none()
}

// The line without a trailing CR.
fn text_of(line: &[u8]) -> &[u8]
    ensures { result.now ≡ text_of_line line.now }
{
    let Some((last, text)) = line.split_last() else {
        return line;
    };
    if *last != b'\r' {
        return line;
    }
    text
}

// The first argument and the rest of the text.
fn next_word(text: &[u8]) -> Option<(&[u8], &[u8])>
    ensures words { MatchOption result (words_of text.now ≡ [])
        (λ p. words_of text.now ≡ p.0.now ∷ words_of p.1.now) }
    ensures shorter { IfSome result (λ p. length p.1.now < length text.now) }
{
    let text = &text[word_start(text)?..];
    match word_end(text) {
        Some(end) => Some(text.split_at(end)),
        None => Some((text, &[])),
    }
}

// The index of the first byte that is not blank.
fn word_start(text: &[u8]) -> Option<usize>
    ensures place { result ≡ position (λ byte. not (is_blank_byte byte)) text.now }
    ensures within { IfSome result (λ start. start < length text.now) }
{
    text.iter().position(|byte| !is_blank(*byte))
}

// The index of the first blank.
fn word_end(text: &[u8]) -> Option<usize>
    ensures place { result ≡ position is_blank_byte text.now }
    ensures within { IfSome result (λ end. end < length text.now) }
{
    text.iter().position(|byte| is_blank(*byte))
}

// Whether a byte separates arguments: a space or a tab.
#[inline]
fn is_blank(byte: u8) -> bool
    ensures { result ≡ is_blank_byte byte }
{
    byte == b' ' || byte == b'\t'
}

// A RESP request under construction.
ghost use Rattle.std.specs.Prelude.{◌≡◌, ◌≤◌, ◌∷◌, [], ◌++◌, ◌+◌, drop, length, IfOk, OnOk};
ghost use Rattle.std.specs.Fmt.{decimal};
ghost use Rattle.ts_spec.specs.Text.{line_text};
ghost use Rattle.ts_spec.specs.Value.{shown_value};

use itoa::{Buffer, write_digits};
use std::alloc::{AllocError, Global};
use ts_decimal::print;
use ts_resp::{Out, Word, close_array, encode_bulk, open_array};
use ts_sample::Units;

// The arguments of a request, after a gap for its header.
#[derive(Drop)]
pub(crate) struct Draft {
    pub(crate) out: Out,
    pub(crate) words: usize,
}

impl Draft {
    ghost use Rattle.ts_spec.specs.Encoded.{encoded_request};
    ghost use Rattle.ts_spec.specs.Wire.{Request};
    ghost use Rattle.ts_journal.specs.Draft.{HasWords, AppendsWords};

    // Creates one without arguments.
    pub(crate) fn new(alloc: Global) -> Result<Draft, AllocError>
        ensures { IfOk result (HasWords []) }
    {
        let mut out = Out::new(alloc)?;
        open_array(&mut out);
        Ok(Draft { out, words: 0 })
    }

    // Reserves capacity for this many more bytes.
    pub(crate) fn reserve(&mut self, more: usize) -> Result<(), AllocError>
        ensures { OnOk result (AppendsWords self.old self.new []) }
    {
        self.out.reserve(more)
    }

    // Appends an argument.
    pub(crate) fn put(&mut self, word: &[u8]) -> Result<(), AllocError>
        ensures { OnOk result (AppendsWords self.old self.new (word.now ∷ [])) }
    {
        self.words = self.words.checked_add(1).ok_or(AllocError)?;
        encode_bulk(word, &mut self.out)
    }

    // Appends an argument of another request.
    pub(crate) fn put_word(&mut self, word: &Word) -> Result<(), AllocError>
        ensures { OnOk result (AppendsWords self.old self.new (word.now ∷ [])) }
    {
        self.put(word.bytes())
    }

    // Appends a number in decimal.
    pub(crate) fn put_number(&mut self, number: u64) -> Result<(), AllocError>
        ensures { OnOk result (AppendsWords self.old self.new (decimal number ∷ [])) }
    {
        self.put(Buffer::new().format(number).as_bytes())
    }

    // Appends a value as it is printed.
    pub(crate) fn put_value(&mut self, value: Units) -> Result<(), AllocError>
        ensures { OnOk result (AppendsWords self.old self.new (shown_value value ∷ [])) }
    {
        self.put(print(value, &mut [0; 32]))
    }

    // Fills in the header and returns the whole request.
    pub(crate) fn close(self) -> Out
        requires { 24 ≤ length self.out.bytes }
        ensures { (words : Request) → HasWords words self → result.bytes ≡ encoded_request words }
    {
        let mut out = self.out;
        close_array(self.words, &mut out);
        out
    }
}

// The bytes of the gap: a `*`, the longest number and CRLF, and one more.
pub(crate) const GAP: usize = 24;

// Writes the header of a request with this many words so that it ends where the gap does. Returns the offset where it
// starts.
pub(crate) fn write_header_in_gap(words: usize, room: &mut [u8]) -> usize
    requires { 24 ≤ length room.old }
    ensures text { drop result room.new ≡ line_text 42 (decimal words) ++ drop 24 room.old }
    ensures start { result ≤ 24 }
    ensures len { length room.new ≡ length room.old }
{
    write_line(b'*', words, GAP, room)
}

// Writes a type byte, a number and CRLF so that they end at offset `place`, and returns the offset where they start.
pub(crate) fn write_line(first: u8, number: usize, place: usize, room: &mut [u8]) -> usize
    requires from { 23 ≤ place }
    requires to { place ≤ length room.old }
    ensures text { drop result room.new ≡ line_text first (decimal number) ++ drop place room.old }
    ensures start { result + (length (decimal number) + 3) ≡ place }
    ensures bound { place ≤ result + 23 }
    ensures len { length room.new ≡ length room.old }
{
    let place = write_ending_at(b"\r\n", place, room);
    let place = write_digits(number as u64, room, place);
    write_ending_at(&[first], place, room)
}

// Writes bytes that end at offset `place`, and returns the offset where they start.
pub(crate) fn write_ending_at(bytes: &[u8], place: usize, room: &mut [u8]) -> usize
    requires from { length bytes.now ≤ place }
    requires to { place ≤ length room.old }
    ensures text { drop result room.new ≡ bytes.now ++ drop place room.old }
    ensures start { result + length bytes.now ≡ place }
    ensures len { length room.new ≡ length room.old }
{
    let start = place - bytes.len();
    room[start..place].copy_from_slice(bytes);
    start
}

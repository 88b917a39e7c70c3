// Reads an array request: its header, then its arguments.
ghost use Rattle.std.specs.Prelude.{◌≡◌, ◌+◌, ◌-◌, ◌<◌, ◌≤◌, [], ◌∷◌, ◌++◌, length, drop, slice_index, slice_range};
ghost use Rattle.std.specs.Prelude.{Some, None, OnOk, OnErr, IfOk, IfErr, MatchOption, vec_capacity, IfSome};
ghost use Rattle.ts_resp.specs.Headers.{IsCount, IsBegun, IsWord, IsWordWithin};
ghost use Rattle.ts_resp.specs.Steps.{GoesOn, Gives};

use super::{Next, Reader, Unfinished};
use crate::header::{FoundWord, Header, count_header, found_word};
use crate::text::begins_line;
use crate::{Protocol, Word};
use bytes::BytesMut;
use std::alloc::{AllocError, Global};
use std::mem;
use ts_spec::Kind;

// Capacity reserved for arguments at first. A header may announce more arguments than ever arrive.
const INITIAL_WORDS: u32 = 16;

impl Reader {
    // Reads one request. Returns `None` if it had no arguments.
    pub(super) fn step(&mut self) -> Option<Next>
        ensures { MatchOption result (GoesOn self.old self.new) (Gives self.old self.new) }
    {
        match self.so_far.take() {
            None => self.read_request(),
            Some(so_far) => Some(self.read_words(so_far)),
        }
    }

    fn read_request(&mut self) -> Option<Next>
        requires { self.old.so_far ≡ None }
        ensures { MatchOption result (GoesOn self.old self.new) (Gives self.old self.new) }
    {
        if begins_line(self.unread.as_slice()) {
            return self.read_line();
        }
        self.read_count()
    }

    fn read_count(&mut self) -> Option<Next>
        requires between { self.old.so_far ≡ None }
        requires array { 0 < length self.old.unread → slice_index self.old.unread 0 ≡ 42 }
        ensures { MatchOption result (GoesOn self.old self.new) (Gives self.old self.new) }
    {
        match count_header(self.unread.as_slice(), &self.limits) {
            Header::Open => Some(Next::NotYet),
            Header::Whole { number, feed } => self.begin_request(number, feed + 1),
            Header::Broken { kind, at } => Some(Next::Broken(self.fault(kind, at))),
        }
    }

    // Starts a request of `number` arguments, whose header takes `len` bytes.
    fn begin_request(&mut self, number: u32, len: usize) -> Option<Next>
        requires between { self.old.so_far ≡ None }
        requires header { IsCount self.old.limits self.old.unread (Header.Whole number (len - 1)) }
        requires begun { IsBegun self.old.limits self.old.unread (Header.Whole number (len - 1)) }
        requires within { (0 < len) × (len ≤ length self.old.unread) }
        ensures { MatchOption result (GoesOn self.old self.new) (Gives self.old self.new) }
    {
        if number == 0 {
            self.pass(len);
            self.begin = self.place;
            return None;
        }
        self.spare.clear();
        let first_room = number.min(INITIAL_WORDS) as usize;
        if self.spare.reserve(first_room).is_err() {
            return Some(Next::Memory);
        }
        let words = mem::replace(&mut self.spare, Vec::new(self.alloc));
        self.pass(len);
        Some(self.read_words(Unfinished {
            words,
            later: number - 1,
            room: self.limits.request_bytes,
        }))
    }

    // Reads the remaining arguments, as far as they have arrived.
    fn read_words(&mut self, so_far: Unfinished) -> Next
        requires { self.old.so_far ≡ None }
        ensures { Gives (record self.old { so_far = Some so_far }) self.new result }
    {
        let mut so_far = so_far;
        loop {
            match found_word(self.unread.as_slice(), &self.limits, so_far.room) {
                FoundWord::Open => {
                    self.so_far = Some(so_far);
                    return Next::NotYet;
                }
                FoundWord::Broken { kind, at } => {
                    self.so_far = Some(so_far);
                    return Next::Broken(self.fault(kind, at));
                }
                FoundWord::Whole { start, end } => {
                    let bytes = self.unread.as_slice();
                    if push_word(self.alloc, &mut so_far.words, bytes, start, end).is_err() {
                        self.so_far = Some(so_far);
                        return Next::Memory;
                    }
                    self.pass(end + 2);
                    if so_far.later == 0 {
                        self.begin = self.place;
                        return Next::Request(so_far.words);
                    }
                    so_far.later -= 1;
                    so_far.room = room_after(so_far.room, end - start);
                }
            }
        }
    }

    // Skips unread bytes.
    pub(super) fn pass(&mut self, len: usize)
        requires { len ≤ length self.old.unread }
        ensures { self.new ≡ record self.old
            { place = self.old.place + len; unread = drop len self.old.unread } }
    {
        self.unread.advance(len);
        self.scanned = 0;
        self.place += len as u64;
    }

    // The protocol error at index `at` of the unread bytes.
    pub(super) fn fault(&self, kind: Kind, at: usize) -> Protocol
        requires { at < length self.now.unread }
        ensures { result ≡ record { kind = kind; place = self.now.place + at } }
    {
        Protocol {
            kind,
            place: self.place + at as u64,
        }
    }
}

// Appends the bytes `start..end` as an argument. On error the arguments are unchanged.
fn push_word(
    alloc: Global,
    words: &mut Vec<Word>,
    bytes: &[u8],
    start: usize,
    end: usize,
) -> Result<(), AllocError>
    requires { (start ≤ end) × (end ≤ length bytes.now) }
    ensures ok { OnOk result (words.new.items
        ≡ words.old.items ++ slice_range bytes.now start end ∷ []) }
    ensures err { OnErr result (words.new.items ≡ words.old.items) }
{
    words.reserve(1)?;
    if let Some(word) = Word::short_part(alloc, bytes, start, end) {
        words.push_reserved(word);
        return Ok(());
    }
    words.push_reserved(Word::from_slice(alloc, &bytes[start..end])?);
    Ok(())
}

// The remaining size limit of the request after an argument of `len` bytes.
fn room_after(room: u32, len: usize) -> u32
    requires { len ≤ room }
    ensures { result ≡ room - len }
{
    room - len as u32
}

// The largest capacity for arguments that is kept between requests.
const MAX_IDLE_CAPACITY: usize = 1024;

// The largest capacity in bytes that an empty input buffer keeps.
const MAX_IDLE_WORDS: usize = 65_536;

// Empties the vector for reuse. Returns `None` if its capacity is too large to keep.
pub(super) fn emptied(words: Vec<Word>) -> Option<Vec<Word>>
    ensures items { IfSome result (λ spare. spare.items ≡ []) }
    ensures room { IfSome result (λ spare. vec_capacity spare ≤ 1024) }
{
    let mut words = words;
    words.clear();
    if words.capacity() <= MAX_IDLE_CAPACITY {
        Some(words)
    } else {
        None
    }
}

// Frees the capacity of an empty input buffer if it is too large to keep.
pub(super) fn shrink_spare(bytes: &mut BytesMut)
    requires { bytes.old.items ≡ [] }
    ensures items { bytes.new.items ≡ [] }
    ensures room { bytes.new.spare ≤ 65536 }
{
    bytes.clear();
    if bytes.capacity() > MAX_IDLE_WORDS {
        *bytes = BytesMut::new(*bytes.allocator());
    }
}

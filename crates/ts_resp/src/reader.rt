// Reads requests from a stream that arrives in pieces.
ghost use Rattle.std.specs.Prelude.{◌≡◌, ◌≢◌, ℕ, ◌+◌, ◌^◌, ◌<◌, ◌≤◌, ◌==◌, not, List, [], ◌++◌, length, OnOk, OnErr};
ghost use Rattle.ts_spec.specs.Wire.{Then, Broken, stream_at};
ghost use Rattle.ts_resp.specs.Reading.{stream_of, fed, unfinished, ended_at};
ghost use Rattle.ts_resp.specs.Next.{IfRequest, UnlessRequest, OnNotYet, IfBroken};

use crate::{Protocol, Word};
use begin::first_begin;
use bytes::BytesMut;
use std::alloc::{AllocError, Global};
use std::marker::Model;
use steps::{emptied, shrink_spare};
use ts_spec::WireLimits;

mod begin;
mod line_steps;
mod steps;

/// The result of reading a request.
#[derive(Debug, Drop)]
pub enum Next {
    /// The arguments of the next request; at least one.
    Request(Vec<Word>),
    /// The bytes received so far hold no further complete request.
    NotYet,
    /// The stream has a protocol error. Every later call returns the same error.
    Broken(Protocol),
    /// Out of memory for an argument. A later call may succeed.
    Memory,
}

// A request whose arguments have only partly arrived.
#[derive(Drop)]
struct Unfinished {
    words: Vec<Word>,
    later: u32,
    room: u32,
}

impl Model for Unfinished {
    ghost use Rattle.ts_spec.specs.Wire.{Partial};

    ghost Value = { Partial };

    ghost view = { λ u. record { words = u.words.items; later = u.later; room = u.room } };
}

/// Reads requests from a stream that arrives in pieces, however it is split.
#[derive(Drop)]
pub struct Reader {
    alloc: Global,
    limits: WireLimits,
    // Offsets in the stream: the start of the current request, and the first unread byte.
    begin: u64,
    place: u64,
    so_far: Option<Unfinished>,
    unread: BytesMut,
    // How many unread bytes are known to contain no LF. A line that arrives in pieces is scanned only once.
    scanned: usize,
    // An empty vector kept for the next request, to reuse its capacity.
    spare: Vec<Word>,
}

impl Model for Reader {
    ghost use Rattle.std.specs.Prelude.{◌+◌, ◌^◌, ◌<◌, ◌≤◌, length};
    ghost use Rattle.ts_resp.specs.Reading.{Reading};
    ghost use Rattle.ts_resp.specs.Texts.{before_feed};

    ghost Value = { Reading };

    ghost view = { λ r. record {
      limits = r.limits;
      begin = r.begin;
      place = r.place;
      so_far = r.so_far;
      unread = r.unread.items;
    } };

    ghost invariant = { λ r. (r.begin ≤ r.place) × (r.place + length r.unread.items < 2 ^ 64)
        × (r.scanned ≤ before_feed r.unread.items) };
}

impl Reader {
    /// A reader at the start of a stream. Allocates nothing.
    #[tactic(auto, unfolding(crate::specs::Reading::begun_on))]
    pub fn new(alloc: Global, limits: WireLimits) -> Reader
        requires words { 1 ≤ limits.words }
        requires word_bytes { 1 ≤ limits.word_bytes }
        requires request_bytes { 1 ≤ limits.request_bytes }
        requires line_bytes { 1 ≤ limits.line_bytes }
        ensures stream { (more : List ℕ) → stream_of result more ≡ stream_at limits 0 more }
        ensures fed { fed result ≡ 0 }
        ensures place { unfinished result ≡ None }
        ensures limits { result.limits ≡ limits }
    {
        Reader {
            alloc,
            limits,
            begin: 0,
            place: 0,
            so_far: None,
            unread: BytesMut::new(alloc),
            scanned: 0,
            spare: Vec::new(alloc),
        }
    }

    /// Adds a piece of the stream. On error the reader is unchanged.
    pub fn feed(&mut self, piece: &[u8]) -> Result<(), AllocError>
        requires { fed self.old + length piece.now < 2 ^ 64 }
        ensures ok { OnOk result ((more : List ℕ)
            → stream_of self.new more ≡ stream_of self.old (piece.now ++ more)) }
        ensures fed { OnOk result (fed self.new ≡ fed self.old + length piece.now) }
        ensures err { OnErr result (self.new ≡ self.old) }
        ensures begin { self.new.begin ≡ self.old.begin }
        ensures limits { self.new.limits ≡ self.old.limits }
    {
        self.unread.extend_from_slice(piece)?;
        Ok(())
    }

    /// Reads the next complete request. Skips requests without arguments.
    pub fn next(&mut self) -> Next
        ensures request { IfRequest result (λ words. (more : List ℕ)
            → stream_of self.old more ≡ Then words self.new.begin (stream_of self.new more)) }
        ensures words { IfRequest result (λ words. words ≢ []) }
        ensures progress { IfRequest result (λ _. self.old.begin < self.new.begin) }
        ensures not_yet { OnNotYet result
            (stream_of self.new [] ≡ ended_at (unfinished self.new)) }
        ensures broken { IfBroken result (λ p. (more : List ℕ)
            → stream_of self.old more ≡ Broken p.kind p.place) }
        ensures same { UnlessRequest result ((more : List ℕ)
            → stream_of self.new more ≡ stream_of self.old more) }
        ensures place { UnlessRequest result (unfinished self.new ≡ unfinished self.old) }
        ensures fed { fed self.new ≡ fed self.old }
        ensures begin { self.new.begin ≤ fed self.new }
        ensures onward { self.old.begin ≤ self.new.begin }
        ensures bound { fed self.new < 2 ^ 64 }
        ensures limits { self.new.limits ≡ self.old.limits }
    {
        let _place = self.place;
        loop {
            if let Some(next) = self.step() {
                return next;
            }
        }
    }

    /// Takes back the vector of an answered request and reuses its capacity. Drops the arguments left in it. Capacity
    /// for more than 1,024 arguments is freed, and so is an empty input buffer above 65,536 bytes.
    pub fn give_back(&mut self, words: Vec<Word>)
        ensures { self.new ≡ self.old }
    {
        if let Some(spare) = emptied(words) {
            self.spare = spare;
        }
        if self.unread.is_empty() {
            shrink_spare(&mut self.unread);
        }
    }

    /// Whether it has unread bytes. Without any, `next` returns `NotYet`. Allocates nothing.
    pub fn has_unread(&self) -> bool
        ensures { result ≡ not (length self.now.unread == 0) }
    {
        !self.unread.is_empty()
    }

    /// The offset in the stream at which the next request starts: after `next` returned a request, the offset just
    /// past it. Allocates nothing.
    pub fn begin(&self) -> u64
        ensures { result ≡ self.now.begin }
    {
        self.begin
    }

    /// The offset at which an unfinished request starts, or `None` between requests. Skips requests without arguments.
    /// Allocates nothing.
    pub fn place(&self) -> Option<u64>
        ensures { result ≡ unfinished self.now }
    {
        match &self.so_far {
            Some(_) => Some(self.begin),
            None => first_begin(self.unread.as_slice(), &self.limits, self.place, self.begin),
        }
    }
}

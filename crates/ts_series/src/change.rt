// A planned change of the chunks of a series, and its execution, which allocates nothing.
ghost use Rattle.std.specs.Prelude.{◌≡◌, ℕ, ◌≤◌, ◌+◌, true, false, nat_le, length, [], IfSome, MatchOption, Some, map};
ghost use Rattle.std.specs.VecDeque.{deque_capacity};
ghost use Rattle.ts_spec.specs.Sample.{IsAscending, at_times};
ghost use Rattle.ts_sample.specs.Chunk.{joined};
ghost use Rattle.ts_series.specs.Stored.{points, pieces_after, limits_after, no_change, replaced, with_last};
ghost use Rattle.ts_series.specs.Stored.{AreAmong, AreChunks, AreStoredChunks, LastChunkFits, IsChangeOf, IsTrimmed};

use crate::chunks::{Chunks, count_in};
use crate::ring::replace_between;
use std::alloc::Global;
use std::collections::VecDeque;
use std::marker::Model;
use ts_sample::{Chunk, Sample};

// Replaces the chunks `start..end` with new ones, and then appends a sample to the last chunk.
#[derive(Drop)]
pub(crate) struct Change<C: Chunk> {
    pub(crate) start: usize,
    pub(crate) end: usize,
    pub(crate) chunks: Vec<C>,
    pub(crate) appended: Option<Sample>,
}

impl<C: Chunk> Model for Change<C> {
    ghost use Rattle.std.specs.Prelude.{map};
    ghost use Rattle.ts_series.specs.Stored.{Change, AreChunks};

    ghost Value = { Change };

    ghost view = { λ c. record {
      start = c.start;
      end = c.end;
      pieces = map C.list c.chunks.items;
      limits = map C.most c.chunks.items;
      appended = c.appended;
    } };

    ghost invariant = { λ c. AreChunks C.format (map C.list c.chunks.items) (map C.most c.chunks.items) };
}

impl<C: Chunk> Change<C> {
    // A change that leaves the chunks as they are.
    pub(crate) fn nothing(alloc: Global) -> Change<C>
        ensures { result ≡ no_change }
    {
        Change {
            start: 0,
            end: 0,
            chunks: Vec::new(alloc),
            appended: None,
        }
    }
}

impl<C: Chunk> Chunks<C> {
    // Carries out the change.
    pub(crate) fn apply(&mut self, change: Change<C>)
        requires { IsChangeOf C.format (length self.old.pieces + self.old.room) self.old.pieces self.old.limits change }
        ensures pieces { self.new.pieces ≡ pieces_after change self.old.pieces }
        ensures limits { self.new.limits ≡ limits_after change self.old.limits }
        ensures room { length self.old.pieces + self.old.room ≤ length self.new.pieces + self.new.room }
    {
        let Change {
            start,
            end,
            chunks,
            appended,
        } = change;
        self.replace(start, end, chunks);
        if let Some(sample) = appended {
            self.append(&sample);
        }
    }

    // Appends a sample to the last chunk, which can hold it.
    pub(crate) fn append(&mut self, sample: &Sample)
        requires room { LastChunkFits C.format (Some sample.now) self.old.pieces self.old.limits }
        requires ascending { IsAscending (joined (with_last (Some sample.now) self.old.pieces)) }
        ensures pieces { self.new.pieces ≡ with_last (Some sample.now) self.old.pieces }
        ensures limits { self.new.limits ≡ self.old.limits }
        ensures room { length self.new.pieces + self.new.room ≡ length self.old.pieces + self.old.room }
    {
        if let Some(last) = self.chunks.back_mut() {
            let _fits = last.try_append(sample);
            last.known();
            self.count += 1;
        }
    }

    // Replaces the chunks `start..end`. If there are as many new ones, no other chunk moves.
    fn replace(&mut self, start: usize, end: usize, chunks: Vec<C>)
        requires chunks { AreChunks C.format (map C.list chunks.items) (map C.most chunks.items) }
        requires ordered { start ≤ end }
        requires within { end ≤ length self.old.pieces }
        requires ascending { IsAscending (joined (replaced start end (map C.list chunks.items) self.old.pieces)) }
        requires enough { length (replaced start end (map C.list chunks.items) self.old.pieces)
            ≤ length self.old.pieces + self.old.room }
        ensures pieces { self.new.pieces ≡ replaced start end (map C.list chunks.items) self.old.pieces }
        ensures limits { self.new.limits ≡ replaced start end (map C.most chunks.items) self.old.limits }
        ensures room { length self.old.pieces + self.old.room ≤ length self.new.pieces + self.new.room }
    {
        let (removed, added) = (self.count_of(start, end), count_in(&chunks));
        self.count = self.count - removed + added;
        replace_between(&mut self.chunks, start, end, chunks);
    }

    // Drops the leading chunks whose samples are all before `edge`.
    pub(crate) fn expire(&mut self, edge: u64)
        ensures kept { at_times (nat_le edge) (points self.new) ≡ at_times (nat_le edge) (points self.old) }
        ensures trimmed { IsTrimmed edge self.new.pieces }
        ensures limits { (one : ℕ) → AreAmong one self.old.limits self.new.limits }
        ensures chunks { AreStoredChunks C.format self.new.pieces self.new.limits (length (points self.new)) }
        ensures room { length self.new.pieces + self.new.room ≡ length self.old.pieces + self.old.room }
    {
        while self.has_expired(edge) {
            if let Some(chunk) = self.chunks.pop_front() {
                self.count -= chunk.len();
            }
        }
    }

    // Whether all samples of the first chunk are before `edge`.
    fn has_expired(&self, edge: u64) -> bool
        ensures trimmed { result ≡ false → IsTrimmed edge self.now.pieces }
        ensures expired { result ≡ true → ¬ IsTrimmed edge self.now.pieces }
    {
        match self.chunks.front() {
            None => false,
            Some(chunk) => match chunk.last() {
                None => true,
                Some(last) => last.time < edge,
            },
        }
    }

    // Moves the chunks into the larger buffer, if there is one.
    pub(crate) fn grow_capacity(&mut self, larger: Option<VecDeque<C>>)
        requires empty { IfSome larger (λ q. q.items ≡ []) }
        requires enough { IfSome larger (λ q. length self.old.pieces ≤ deque_capacity q) }
        ensures pieces { self.new.pieces ≡ self.old.pieces }
        ensures limits { self.new.limits ≡ self.old.limits }
        ensures room { MatchOption larger (self.new.room ≡ self.old.room) (λ q. length self.new.pieces + self.new.room
            ≡ deque_capacity q) }
    {
        let Some(mut larger) = larger else {
            return;
        };
        while let Some(chunk) = self.chunks.pop_front() {
            larger.push_back_reserved(chunk);
        }
        self.chunks = larger;
    }
}

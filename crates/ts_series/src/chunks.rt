// The chunks of a series in order of time, their counts, and the capacity for more of them.
ghost use Rattle.std.specs.Prelude.{◌≡◌, ◌≤◌, nat_le, [], length, take, drop, ◌<◌, ◌+◌, ◌*◌, ◌^◌, map, slice_range};
ghost use Rattle.std.specs.Prelude.{option_map, IfOk, IfSome};
ghost use Rattle.ts_spec.specs.Sample.{IsAscending, last_of, at_times, between};
ghost use Rattle.ts_sample.specs.Chunk.{joined, IsLimit};
ghost use Rattle.ts_series.specs.Stored.{points, IsOverlapping, AllOverlap, IsTrimmed, HaveBegun, longest};
ghost use Rattle.ts_sample.specs.Steps.{Takes};
ghost use Rattle.std.specs.VecDeque.{deque_capacity};
ghost use Rattle.ts_series.specs.History.{limit_for};
ghost use Rattle.ts_series.specs.Plan.{chunk_capacity};

use crate::change::Change;
use std::alloc::{AllocError, Global};
use std::collections::VecDeque;
use std::marker::Model;
use std::ops::Range;
use std::sync::ledger::Ledger;
use ts_sample::{Chunk, Sample, Steps};

#[derive(Drop)]
pub(crate) struct Chunks<C: Chunk> {
    pub(crate) chunks: VecDeque<C>,
    // The number of samples in all chunks.
    pub(crate) count: usize,
}

impl<C: Chunk> Model for Chunks<C> {
    ghost use Rattle.std.specs.Prelude.{◌-◌, map};
    ghost use Rattle.std.specs.VecDeque.{deque_len, deque_capacity};
    ghost use Rattle.ts_series.specs.Stored.{Stored, AreStoredChunks};

    ghost Value = { Stored };

    ghost view = { λ s. record {
      pieces = map C.list s.chunks.items;
      limits = map C.most s.chunks.items;
      room = deque_capacity s.chunks - deque_len s.chunks;
    } };

    ghost invariant = { λ s. AreStoredChunks C.format (map C.list s.chunks.items) (map C.most s.chunks.items) s.count };
}

impl<C: Chunk> Chunks<C> {
    pub(crate) fn new(alloc: Global) -> Chunks<C>
        ensures empty { result.pieces ≡ [] }
        ensures limits { result.limits ≡ [] }
    {
        Chunks {
            chunks: VecDeque::new(alloc),
            count: 0,
        }
    }

    // The number of samples in all chunks.
    pub(crate) fn len(&self) -> usize
        ensures { result ≡ length (points self.now) }
    {
        self.count
    }

    // The last sample.
    pub(crate) fn last(&self) -> Option<Sample>
        ensures last { result ≡ last_of (points self.now) }
        ensures ascending { IsAscending (points self.now) }
    {
        match self.chunks.back() {
            None => None,
            Some(chunk) => chunk.last(),
        }
    }

    // The number of chunks whose samples are all before `time`.
    pub(crate) fn before(&self, time: u64) -> usize
        ensures within { result ≤ length self.now.pieces }
        ensures earlier { at_times (nat_le time) (joined (take result self.now.pieces)) ≡ [] }
        ensures reached { IsTrimmed time (drop result self.now.pieces) }
    {
        self.chunks.partition_point(|chunk| match chunk.last() {
            None => true,
            Some(last) => last.time < time,
        })
    }

    // The number of chunks that start at or before `time`.
    pub(crate) fn upto(&self, time: u64) -> usize
        ensures within { result ≤ length self.now.pieces }
        ensures later { at_times (λ t. nat_le t time) (joined (drop result self.now.pieces)) ≡ [] }
        ensures begun { HaveBegun time (take result self.now.pieces) }
    {
        self.chunks.partition_point(|chunk| match chunk.first() {
            None => true,
            Some(first) => first.time <= time,
        })
    }

    // The range of chunks that may have samples from `from` to `to`.
    pub(crate) fn overlapping(&self, from: u64, to: u64) -> Range<usize>
        ensures overlapping { IsOverlapping from to self.now.pieces result.start result.end }
        ensures each { AllOverlap from to self.now.pieces result.start result.end }
    {
        // Does nothing at run time: reading the field tells the proof that the chunks are in order.
        let _ = &self.chunks;
        let start = self.before(from);
        start..self.upto(to).max(start)
    }

    // An upper bound of the number of samples from `from` to `to`: all samples of the chunks that may have some.
    // Decodes nothing.
    pub(crate) fn count_upper_bound(&self, from: u64, to: u64) -> usize
        ensures least { length (between from to (points self.now)) ≤ result }
        ensures most { result ≤ length (between from to (points self.now)) + 2 * longest self.now.pieces }
    {
        let places = self.overlapping(from, to);
        self.count_of(places.start, places.end)
    }

    // The number of samples from `from` to `to`. Allocates nothing.
    pub(crate) fn count_between<L: Ledger>(&self, from: u64, to: u64, steps: &mut Steps<L>) -> usize
        ensures count { result ≡ length (between from to (points self.now)) }
        ensures steps { Takes steps.old steps.new (2 * longest self.now.pieces) }
    {
        // Does nothing at run time: reading the field tells the proof the bounds of the samples.
        let _ = &self.chunks;
        let upto = self.count_before(to.saturating_add(1), steps);
        let before = self.count_before(from, steps);
        upto.saturating_sub(before)
    }

    // The number of samples in chunks `start..end`.
    pub(crate) fn count_of(&self, start: usize, end: usize) -> usize
        requires ordered { start ≤ end }
        requires within { end ≤ length self.now.pieces }
        ensures { result ≡ length (joined (slice_range self.now.pieces start end)) }
    {
        // Does nothing at run time: it tells the proof that the total count does not overflow.
        let _all = self.len();
        let mut count = 0;
        for place in start..end {
            count += self.chunks[place].len();
        }
        count
    }

    // A larger buffer for the chunks, or `None` if the present one can hold those of the change.
    pub(crate) fn larger(
        &self,
        change: &Change<C>,
        alloc: Global,
    ) -> Result<Option<VecDeque<C>>, AllocError>
        ensures empty { IfOk result (λ o. IfSome o (λ q. q.items ≡ [])) }
        ensures enough { IfOk result (λ o. length self.now.pieces + length change.now.pieces
            ≤ chunk_capacity (option_map (λ q. deque_capacity q) o) self.now) }
    {
        let (len, more) = (self.chunks.len(), change.chunks.len());
        if more <= self.chunks.capacity() - len {
            return Ok(None);
        }
        let size = len.saturating_add(len.max(more)).max(4);
        Ok(Some(VecDeque::with_capacity(alloc, size)?))
    }
}

// Fails to compile if a field is added, such as a second copy of the samples.
fn fields<C: Chunk>(it: &Chunks<C>) {
    let Chunks {
        chunks: _,
        count: _,
    } = it;
}

// The number of samples in these chunks.
pub(crate) fn count_in<C: Chunk>(chunks: &[C]) -> usize
    requires { length (joined (map C.list chunks.now)) < 2 ^ 64 }
    ensures { result ≡ length (joined (map C.list chunks.now)) }
{
    let mut count = 0;
    for chunk in chunks {
        count += chunk.len();
    }
    count
}

// The size limit of a new chunk, in bytes: `chunk_size`, clamped to the allowed range.
pub(crate) fn new_limit(chunk_size: u32) -> u32
    ensures limit { result ≡ limit_for chunk_size }
    ensures bounds { IsLimit result }
{
    chunk_size.clamp(48, 1_048_576)
}

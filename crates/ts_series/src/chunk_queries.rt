// Queries over the chunks of a series. Each decodes at most one chunk, except a scan.
ghost use Rattle.std.specs.Prelude.{◌≡◌, None, ◌+◌, ◌*◌, ◌≤◌, nat_lt, nat_le, [], length, take, slice_index_or};
ghost use Rattle.ts_spec.specs.Sample.{at, at_times, between, first_of, last_of};
ghost use Rattle.ts_sample.specs.Chunk.{joined};
ghost use Rattle.ts_sample.specs.Visit.{visited};
ghost use Rattle.ts_sample.specs.Steps.{Takes};
ghost use Rattle.ts_series.specs.Stored.{points, longest};
ghost use Rattle.ts_series.specs.Seams.{IsSeamed};

use crate::chunks::Chunks;
use std::marker::Model;
use std::ops::Range;
use std::sync::ledger::Ledger;
use ts_sample::{Chunk, Sample, Steps, Visit};

#[derive(Drop)]
pub(crate) struct ScanEnds {
    pub(crate) first: Option<Sample>,
    pub(crate) last: Option<Sample>,
    pub(crate) count: usize,
}

impl ScanEnds {
    // No samples yet.
    pub(crate) fn new() -> ScanEnds
        ensures first { result.first ≡ None }
        ensures last { result.last ≡ None }
        ensures count { result.count ≡ 0 }
    {
        ScanEnds {
            first: None,
            last: None,
            count: 0,
        }
    }
}

impl Visit for ScanEnds {
    ghost use Rattle.std.specs.Prelude.{◌+◌, ◌-◌, ◌^◌, Option, Some};
    ghost use Rattle.std.specs.Option.{option_or};
    ghost use Rattle.std.proofs.Common.{arith};

    ghost step = { λ e p. record { first = option_or e.first (Some p); last = Some p; count = e.count + 1 } };

    ghost room = { λ e. 2 ^ 64 - 1 - e.count };

    fn sample(&mut self, sample: &Sample) {
        if self.first.is_none() {
            self.first = Some(*sample);
        }
        self.last = Some(*sample);
        self.count += 1;
    }

    ghost lowers = { λ e p. Prim.omega arith };
}

impl<C: Chunk> Chunks<C> {
    // Passes the samples from `from` to `to`, both inclusive, to `visit`, oldest first.
    pub(crate) fn scan<V: Visit, L: Ledger>(
        &self,
        from: u64,
        to: u64,
        visit: &mut V,
        steps: &mut Steps<L>,
    )
        requires room { length (between from to (points self.now)) ≤ V.room visit.old }
        ensures visited { visit.new ≡ visited V.step visit.old (between from to (points self.now)) }
        ensures counted { steps.old + length (between from to (points self.now)) ≤ steps.new }
        ensures bounded { steps.new ≤ steps.old + length (between from to (points self.now))
            + 2 * longest self.now.pieces }
        ensures seams { IsSeamed self.now.pieces from to steps.old steps.new }
    {
        let Range { start, end } = self.overlapping(from, to);
        for place in start..end {
            self.chunks[place].scan(from, to, visit, steps);
        }
    }

    // The sample at `time`.
    pub(crate) fn at<L: Ledger>(&self, time: u64, steps: &mut Steps<L>) -> Option<Sample>
        ensures at { result ≡ at time (points self.now) }
        ensures steps { Takes steps.old steps.new (longest self.now.pieces) }
    {
        let chunk = self.chunks.get(self.before(time))?;
        let mut ends = ScanEnds::new();
        chunk.scan(time, time, &mut ends, steps);
        ends.last
    }

    // The last sample before `time`.
    pub(crate) fn last_before<L: Ledger>(&self, time: u64, steps: &mut Steps<L>) -> Option<Sample>
        ensures before { result ≡ last_of (at_times (λ t. nat_lt t time) (points self.now)) }
        ensures steps { Takes steps.old steps.new (longest self.now.pieces) }
    {
        // Does nothing at run time: reading the field tells the proof that the chunks are in order.
        let _ = &self.chunks;
        let place = self.before(time);
        match self.earlier_at(place, time, steps).last {
            Some(last) => Some(last),
            None => self.last_of_first(place),
        }
    }

    // The first sample at or after `time`.
    pub(crate) fn first_from<L: Ledger>(&self, time: u64, steps: &mut Steps<L>) -> Option<Sample>
        ensures first { result ≡ first_of (at_times (nat_le time) (points self.now)) }
        ensures steps { Takes steps.old steps.new (longest self.now.pieces) }
    {
        let chunk = self.chunks.get(self.before(time))?;
        let first = chunk.first()?;
        if time <= first.time {
            return Some(first);
        }
        let mut ends = ScanEnds::new();
        chunk.scan(time, u64::MAX, &mut ends, steps);
        ends.first
    }

    // The number of samples before `time`. Decodes nothing if the first sample is not before it.
    pub(crate) fn count_before<L: Ledger>(&self, time: u64, steps: &mut Steps<L>) -> usize
        ensures count { result ≡ length (at_times (λ t. nat_lt t time) (points self.now)) }
        ensures steps { Takes steps.old steps.new (longest self.now.pieces) }
    {
        let all = self.len();
        let place = self.before(time);
        if place == self.chunks.len() {
            return all;
        }
        let mut count = 0;
        for earlier in 0..place {
            count += self.chunks[earlier].len();
        }
        count + self.earlier_at(place, time, steps).count
    }

    // The first, the last and the number of the samples before `time` in chunk `place`, if there is such a chunk.
    fn earlier_at<L: Ledger>(&self, place: usize, time: u64, steps: &mut Steps<L>) -> ScanEnds
        ensures last { result.last ≡ last_of (at_times (λ t. nat_lt t time) (slice_index_or self.now.pieces place [])) }
        ensures count { result.count
            ≡ length (at_times (λ t. nat_lt t time) (slice_index_or self.now.pieces place [])) }
        ensures steps { Takes steps.old steps.new (longest self.now.pieces) }
    {
        match self.chunks.get(place) {
            None => ScanEnds::new(),
            Some(chunk) => earlier_in(chunk, time, steps),
        }
    }

    // The last sample of the first `count` chunks.
    fn last_of_first(&self, count: usize) -> Option<Sample>
        requires within { count ≤ length self.now.pieces }
        ensures last { result ≡ last_of (joined (take count self.now.pieces)) }
    {
        if count == 0 {
            return None;
        }
        self.chunks[count - 1].last()
    }
}

// The first, the last and the number of a chunk's samples before `time`. Decodes nothing if its first sample is not
// before it.
fn earlier_in<C: Chunk, L: Ledger>(chunk: &C, time: u64, steps: &mut Steps<L>) -> ScanEnds
    ensures last { result.last ≡ last_of (at_times (λ t. nat_lt t time) (C.list chunk.now)) }
    ensures count { result.count ≡ length (at_times (λ t. nat_lt t time) (C.list chunk.now)) }
    ensures steps { Takes steps.old steps.new (length (C.list chunk.now)) }
{
    chunk.known();
    let mut ends = ScanEnds::new();
    let Some(first) = chunk.first() else {
        return ends;
    };
    if first.time < time {
        chunk.scan(0, time - 1, &mut ends, steps);
    }
    ends
}

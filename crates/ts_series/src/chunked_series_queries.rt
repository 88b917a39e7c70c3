// Queries over a series of one kind of chunk.
ghost use Rattle.std.specs.Prelude.{◌≡◌, ◌≤◌, ◌+◌, ◌*◌, ℕ, suc, nat_lt, nat_le, length};
ghost use Rattle.ts_spec.specs.Sample.{MAX_TIME, at, at_times, between, first_of, last_of};
ghost use Rattle.ts_spec.specs.Valid.{Every};
ghost use Rattle.ts_sample.specs.Visit.{visited};
ghost use Rattle.ts_sample.specs.Steps.{Takes};
ghost use Rattle.ts_series.specs.History.{list_of, reach, IsKeptIn};
ghost use Rattle.ts_series.specs.Seams.{IsSeamed, Around};

use crate::chunked_series::ChunkedSeries;
use crate::chunks::new_limit;
use crate::cursor::ChunkedSeriesCursor;
use std::sync::ledger::Ledger;
use ts_sample::{Chunk, Sample, Steps, Visit};

#[tactic(auto, using(crate::proofs::Reach::within_reach))]
impl<C: Chunk> ChunkedSeries<C> {
    // Does nothing at run time. Its contract states what holds for every series, which a borrow hides.
    pub(crate) fn known(&self)
        ensures kept { IsKeptIn C.format self.now }
        ensures times { Every (λ p. p.time ≤ MAX_TIME) (list_of self.now) }
    {
        if let Some(last) = self.chunks.last() {
            last.known();
        }
    }

    // The largest number of samples a new chunk can hold. The contract also bounds the cost of a split scan: near each
    // interval there are seams, times that split no chunk, and any one time splits at most one chunk.
    pub(crate) fn chunk_reach(&self) -> u64
        ensures within { result ≤ reach self.now }
        ensures around { (from to : ℕ)
            → Around from to (length (between from to (list_of self.now)) + 2 * reach self.now) self.now.held.pieces }
        ensures cuts { (t : ℕ) → Around (suc t) t (reach self.now) self.now.held.pieces }
    {
        u64::from(new_limit(self.options.chunk_size) / 3)
    }

    // The first sample.
    pub(crate) fn first<L: Ledger>(&self, steps: &mut Steps<L>) -> Option<Sample>
        ensures first { result ≡ first_of (list_of self.now) }
        ensures steps { Takes steps.old steps.new (reach self.now) }
    {
        self.chunks.first_from(self.edge(), steps)
    }

    // The number of samples.
    pub(crate) fn len<L: Ledger>(&self, steps: &mut Steps<L>) -> usize
        ensures len { result ≡ length (list_of self.now) }
        ensures steps { Takes steps.old steps.new (reach self.now) }
    {
        self.chunks.len() - self.chunks.count_before(self.edge(), steps)
    }

    // The number of samples at or after `time`, in milliseconds.
    pub(crate) fn count_from<L: Ledger>(&self, time: u64, steps: &mut Steps<L>) -> usize
        ensures count { result ≡ length (at_times (nat_le time) (list_of self.now)) }
        ensures steps { Takes steps.old steps.new (reach self.now) }
    {
        self.chunks.len() - self.chunks.count_before(time.max(self.edge()), steps)
    }

    // A cursor over the samples at or after `from`, in milliseconds.
    pub(crate) fn read_from<L: Ledger>(
        &self,
        from: u64,
        steps: &mut Steps<L>,
    ) -> ChunkedSeriesCursor<'_, C>
        ensures left { result ≡ at_times (nat_le from) (list_of self.now) }
        ensures steps { Takes steps.old steps.new (reach self.now) }
    {
        self.chunks.read_from(from.max(self.edge()), steps)
    }

    // The sample at time `t`, in milliseconds.
    pub(crate) fn at<L: Ledger>(&self, t: u64, steps: &mut Steps<L>) -> Option<Sample>
        ensures at { result ≡ at t (list_of self.now) }
        ensures steps { Takes steps.old steps.new (reach self.now) }
    {
        if t < self.edge() {
            None
        } else {
            self.chunks.at(t, steps)
        }
    }

    // The last sample before time `t`, in milliseconds.
    pub(crate) fn before<L: Ledger>(&self, t: u64, steps: &mut Steps<L>) -> Option<Sample>
        ensures before { result ≡ last_of (at_times (λ u. nat_lt u t) (list_of self.now)) }
        ensures steps { Takes steps.old steps.new (reach self.now) }
    {
        let last = self.chunks.last_before(t, steps)?;
        if last.time < self.edge() {
            None
        } else {
            Some(last)
        }
    }

    // A buffer capacity for the samples from `from` to `to`, in milliseconds, both inclusive. It is at least their
    // number and exceeds it by at most two chunks. Decodes nothing.
    pub(crate) fn room_for(&self, from: u64, to: u64) -> usize
        ensures least { length (between from to (list_of self.now)) ≤ result }
        ensures most { result ≤ length (between from to (list_of self.now)) + 2 * reach self.now }
    {
        self.chunks.count_upper_bound(from.max(self.edge()), to)
    }

    // Passes the samples from `from` to `to`, in milliseconds, both inclusive, to `visit`, oldest first.
    pub(crate) fn scan<V: Visit, L: Ledger>(
        &self,
        from: u64,
        to: u64,
        visit: &mut V,
        steps: &mut Steps<L>,
    )
        requires room { length (between from to (list_of self.now)) ≤ V.room visit.old }
        ensures visited { visit.new ≡ visited V.step visit.old (between from to (list_of self.now)) }
        ensures counted { steps.old + length (between from to (list_of self.now)) ≤ steps.new }
        ensures bounded { steps.new ≤ steps.old + length (between from to (list_of self.now)) + 2 * reach self.now }
        ensures seams { IsSeamed self.now.held.pieces from to steps.old steps.new }
    {
        self.chunks.scan(from.max(self.edge()), to, visit, steps);
    }

    // Whether there is a sample from `from` to `to`, in milliseconds, both inclusive.
    pub(crate) fn has_between<L: Ledger>(&self, from: u64, to: u64, steps: &mut Steps<L>) -> bool
        ensures has { result ≡ nat_lt 0 (length (between from to (list_of self.now))) }
        ensures steps { Takes steps.old steps.new (reach self.now) }
    {
        match self.chunks.first_from(from.max(self.edge()), steps) {
            None => false,
            Some(first) => first.time <= to,
        }
    }
}

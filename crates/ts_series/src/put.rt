// Plans a write.
ghost use Rattle.std.specs.Prelude.{◌≡◌, ℕ, ◌≤◌, ◌<◌, ◌+◌, ◌*◌, true, false, nat_lt, None, Some, IfOk, length};
ghost use Rattle.ts_spec.specs.Sample.{MAX_TIME, at, last_of, put};
ghost use Rattle.ts_sample.specs.Chunk.{IsPast, joined};
ghost use Rattle.ts_sample.specs.Steps.{Takes};
ghost use Rattle.ts_series.specs.Stored.{points, longest, pieces_after, IsReady, HasLimits, IsUpTo};
ghost use Rattle.ts_series.specs.History.{list_of, low, limit_for, reach};
ghost use Rattle.ts_series.specs.Plan.{IsForIn};
ghost use Rattle.ts_series.specs.Put.{met, PutAnswers, IsWrite, Writes, Fits, list_after};

use crate::change::Change;
use crate::chunked_series::{ChunkedSeries, edge_at, raise};
use crate::chunked_series_plan::{ChunkedSeriesPlan, Rows};
use crate::chunks::new_limit;
use crate::plan::PutFault;
use std::alloc::AllocError;
use std::sync::ledger::Ledger;
use ts_sample::{Chunk, Sample, Steps, Units};
use ts_spec::Merge;

#[tactic(auto, using(crate::proofs::Reach::within_reach))]
impl<C: Chunk> ChunkedSeries<C> {
    // Plans a write. If the series has a sample at `time`, merges the two by `how`. Otherwise adds a sample, which
    // fails with `Full` if the series then has more than `limit` samples.
    pub(crate) fn put<L: Ledger>(
        &self,
        time: u64,
        value: Units,
        how: Merge,
        limit: u32,
        steps: &mut Steps<L>,
    ) -> Result<ChunkedSeriesPlan<C>, PutFault>
        requires { time ≤ MAX_TIME }
        ensures planned { IfOk result (λ plan. IsForIn C.format plan self.now) }
        ensures answer { PutAnswers (met how time value self.now) limit time self.now result }
        ensures steps { Takes steps.old steps.new (3 * reach self.now) }
        ensures easy { length (list_of self.now) + reach self.now < limit → IsPast (last_of (list_of self.now)) time
            → steps.new ≡ steps.old }
    {
        if time < self.edge() {
            return Err(PutFault::TooOld);
        }
        let made = self.born;
        let sample = Sample { time, value, made };
        if self.is_late(time) {
            return self.plan_late_write(sample, how, limit, steps);
        }
        self.added(sample, limit, steps)
    }

    // Whether `time` is not after the last sample.
    pub(crate) fn is_late(&self, time: u64) -> bool
        ensures late { result ≡ true → IsUpTo time (last_of (points self.now.held)) }
        ensures past { result ≡ false → IsPast (last_of (points self.now.held)) time }
    {
        self.chunks.is_late(time)
    }

    // Plans a new sample at a time that has none.
    pub(crate) fn added<L: Ledger>(
        &self,
        sample: Sample,
        limit: u32,
        steps: &mut Steps<L>,
    ) -> Result<ChunkedSeriesPlan<C>, PutFault>
        requires absent { at sample.time (list_of self.now) ≡ None }
        requires kept { low self.now ≤ sample.time }
        requires made { sample.made ≡ self.now.born }
        ensures planned { IfOk result (λ plan. IsForIn C.format plan self.now) }
        ensures answer { IsWrite limit sample self.now result }
        ensures steps { Takes steps.old steps.new (2 * longest self.now.held.pieces) }
        ensures easy { length (points self.now.held) < limit → IsPast (last_of (points self.now.held)) sample.time
            → steps.new ≡ steps.old }
    {
        if self.is_full(sample, limit, steps) {
            return Err(PutFault::Full);
        }
        self.written(sample, steps)
    }

    // Whether the series would have more than `limit` samples with this new one. Samples that expire because of it do
    // not count.
    fn is_full<L: Ledger>(&self, sample: Sample, limit: u32, steps: &mut Steps<L>) -> bool
        requires absent { at sample.time (list_of self.now) ≡ None }
        requires kept { low self.now ≤ sample.time }
        ensures full { result ≡ nat_lt limit (length (list_after sample self.now)) }
        ensures steps { Takes steps.old steps.new (longest self.now.held.pieces) }
        ensures easy { length (points self.now.held) < limit → steps.new ≡ steps.old }
    {
        if self.chunks.len() < limit as usize {
            return false;
        }
        let edge = edge_at(self.options.retention, raise(sample.time, self.high));
        limit as usize <= self.chunks.len() - self.chunks.count_before(edge, steps)
    }

    // Plans a sample at its time, whether or not it replaces one.
    pub(crate) fn written<L: Ledger>(
        &self,
        sample: Sample,
        steps: &mut Steps<L>,
    ) -> Result<ChunkedSeriesPlan<C>, PutFault>
        requires made { sample.made ≡ self.now.born }
        ensures planned { IfOk result (λ plan. IsForIn C.format plan self.now) }
        ensures answer { (limit : ℕ) → Fits limit sample self.now → IsWrite limit sample self.now result }
        ensures steps { Takes steps.old steps.new (longest self.now.held.pieces) }
        ensures easy { IsPast (last_of (points self.now.held)) sample.time → steps.new ≡ steps.old }
    {
        match self.with_sample(sample, steps) {
            Ok(plan) => Ok(plan),
            Err(_) => Err(PutFault::Unwritten(sample)),
        }
    }

    fn with_sample<L: Ledger>(
        &self,
        sample: Sample,
        steps: &mut Steps<L>,
    ) -> Result<ChunkedSeriesPlan<C>, AllocError>
        requires made { sample.made ≡ self.now.born }
        ensures planned { IfOk result (λ plan. IsForIn C.format plan self.now) }
        ensures writes { IfOk result (Writes sample) }
        ensures steps { Takes steps.old steps.new (longest self.now.held.pieces) }
        ensures easy { IsPast (last_of (points self.now.held)) sample.time → steps.new ≡ steps.old }
    {
        let change = self.change_for_write(&sample, steps)?;
        let larger = self.chunks.larger(&change, self.alloc)?;
        Ok(ChunkedSeriesPlan {
            cut: None,
            removed: 0,
            encoding: self.options.encoding,
            wrote: Rows::One(sample),
            options: None,
            change,
            larger,
        })
    }

    // The change of the chunks that writes a sample.
    fn change_for_write<L: Ledger>(
        &self,
        sample: &Sample,
        steps: &mut Steps<L>,
    ) -> Result<Change<C>, AllocError>
        ensures ready { IfOk result (λ c. IsReady C.format self.now.held c) }
        ensures limits { IfOk result (λ c. HasLimits (limit_for self.now.options.chunk_size) self.now.held.limits c) }
        ensures list { IfOk result (λ c. joined (pieces_after c self.now.held.pieces)
            ≡ put sample.now (points self.now.held)) }
        ensures steps { Takes steps.old steps.new (longest self.now.held.pieces) }
        ensures easy { IsPast (last_of (points self.now.held)) sample.now.time → steps.new ≡ steps.old }
    {
        let size = new_limit(self.options.chunk_size);
        self.chunks.with_sample(self.alloc, sample, size, steps)
    }
}

// Writes one sample into the chunks.
ghost use Rattle.std.specs.Prelude.{◌≡◌, ◌*◌, true, false, None, length, IfOk};
ghost use Rattle.ts_spec.specs.Sample.{between, last_of, put};
ghost use Rattle.ts_sample.specs.Chunk.{IsLimit, IsPast, joined};
ghost use Rattle.ts_sample.specs.Steps.{Takes};
ghost use Rattle.ts_series.specs.Stored.{points, longest, pieces_after, IsReady, HasLimits, IsUpTo};

use crate::change::Change;
use crate::chunks::{Chunks, count_in};
use std::alloc::{AllocError, Global};
use std::sync::ledger::Ledger;
use ts_sample::{Chunk, Sample, Steps};

impl<C: Chunk> Chunks<C> {
    // The change that writes a row at its time, or the failed allocation, and the number of samples it replaces.
    pub(crate) fn with_row<L: Ledger>(
        &self,
        alloc: Global,
        row: &Sample,
        chunk_size: u32,
        steps: &mut Steps<L>,
    ) -> (Result<Change<C>, AllocError>, usize)
        requires size { IsLimit chunk_size }
        ensures ready { IfOk result.0 (λ c. IsReady C.format self.now c) }
        ensures limits { IfOk result.0 (λ c. HasLimits chunk_size self.now.limits c) }
        ensures list { IfOk result.0 (λ c. joined (pieces_after c self.now.pieces) ≡ put row.now (points self.now)) }
        ensures removed { result.1 ≡ length (between row.now.time row.now.time (points self.now)) }
        ensures steps { Takes steps.old steps.new (2 * longest self.now.pieces) }
        ensures easy { IsPast (last_of (points self.now)) row.now.time → steps.new ≡ steps.old }
    {
        // Does nothing at run time: reading the field tells the proof that the chunks are in order.
        let _ = &self.chunks;
        if !self.is_late(row.time) {
            return (self.appended(alloc, row, chunk_size), 0);
        }
        match self.inserted(alloc, row, steps) {
            Ok(change) => {
                let removed = self.replaced_by(row, &change);
                (Ok(change), removed)
            }
            Err(fault) => (Err(fault), self.count_at(row.time, steps)),
        }
    }

    // The change that writes a sample at its time, whether or not it replaces one.
    pub(crate) fn with_sample<L: Ledger>(
        &self,
        alloc: Global,
        sample: &Sample,
        chunk_size: u32,
        steps: &mut Steps<L>,
    ) -> Result<Change<C>, AllocError>
        requires size { IsLimit chunk_size }
        ensures ready { IfOk result (λ c. IsReady C.format self.now c) }
        ensures limits { IfOk result (λ c. HasLimits chunk_size self.now.limits c) }
        ensures list { IfOk result (λ c. joined (pieces_after c self.now.pieces) ≡ put sample.now (points self.now)) }
        ensures steps { Takes steps.old steps.new (longest self.now.pieces) }
        ensures easy { IsPast (last_of (points self.now)) sample.now.time → steps.new ≡ steps.old }
    {
        if self.is_late(sample.time) {
            return self.inserted(alloc, sample, steps);
        }
        self.appended(alloc, sample, chunk_size)
    }

    // Whether `time` is not after the last sample.
    pub(crate) fn is_late(&self, time: u64) -> bool
        ensures late { result ≡ true → IsUpTo time (last_of (points self.now)) }
        ensures past { result ≡ false → IsPast (last_of (points self.now)) time }
    {
        match self.last() {
            None => false,
            Some(last) => time <= last.time,
        }
    }

    // The number of samples at `time`: one or none.
    fn count_at<L: Ledger>(&self, time: u64, steps: &mut Steps<L>) -> usize
        ensures count { result ≡ length (between time time (points self.now)) }
        ensures steps { Takes steps.old steps.new (longest self.now.pieces) }
    {
        // Does nothing at run time: reading the field tells the proof that the chunks are in order.
        let _ = &self.chunks;
        match self.at(time, steps) {
            None => 0,
            Some(_) => 1,
        }
    }

    // The number of samples that a row replaces, from the change that writes it: one if the total stays the same.
    // Decodes nothing.
    fn replaced_by(&self, row: &Sample, change: &Change<C>) -> usize
        requires ready { IsReady C.format self.now change.now }
        requires alone { change.now.appended ≡ None }
        requires put { joined (pieces_after change.now self.now.pieces) ≡ put row.now (points self.now) }
        ensures { result ≡ length (between row.now.time row.now.time (points self.now)) }
    {
        // Does nothing at run time: reading the field tells the proof that the chunks are in order.
        let _ = &self.chunks;
        let gone = self.count_of(change.start, change.end);
        let come = count_in(&change.chunks);
        if come == gone {
            return 1;
        }
        0
    }
}

// The samples that remain in the chunks when an interval is deleted, and the rows that replace the interval.
ghost use Rattle.std.specs.Prelude.{◌≡◌, ◌+◌, ◌*◌, ◌++◌, nat_le, length, IfOk, IfErr, slice_range};
ghost use Rattle.ts_spec.specs.Sample.{IsAfter, IsAscending, at_times, outside, put_all};
ghost use Rattle.ts_sample.specs.Chunk.{joined};
ghost use Rattle.ts_sample.specs.Steps.{Takes};
ghost use Rattle.ts_series.specs.Stored.{longest, IsOverlapping};
ghost use Rattle.ts_series.specs.Plan.{AreWithin};

use crate::chunks::Chunks;
use std::alloc::{AllocError, Global};
use std::sync::ledger::Ledger;
use ts_sample::{Chunk, MAX_TIME, Sample, SampleCollector, Steps, index_range, lower_bound};

impl<C: Chunk> Chunks<C> {
    // The samples of the chunks that overlap an interval, without those in the interval. Only the first and the last
    // of these chunks can have any. Allocates before it decodes.
    pub(crate) fn samples_left<L: Ledger>(
        &self,
        alloc: Global,
        start: usize,
        end: usize,
        from: u64,
        to: u64,
        steps: &mut Steps<L>,
    ) -> Result<Vec<Sample>, AllocError>
        requires { IsOverlapping from to self.now.pieces start end }
        ensures list { IfOk result (λ v. v.items ≡ outside from to (joined (slice_range self.now.pieces start end))) }
        ensures unread { IfErr result (λ _. steps.new ≡ steps.old) }
        ensures steps { Takes steps.old steps.new (2 * longest self.now.pieces) }
    {
        if start == end {
            return Ok(Vec::new(alloc));
        }
        let (first, last) = (&self.chunks[start], &self.chunks[end - 1]);
        if start + 1 == end {
            return left_of(first, alloc, from, to, steps);
        }
        remaining_of_both(first, last, alloc, from, to, steps)
    }
}

// A chunk's samples without those of an interval.
fn left_of<C: Chunk, L: Ledger>(
    chunk: &C,
    alloc: Global,
    from: u64,
    to: u64,
    steps: &mut Steps<L>,
) -> Result<Vec<Sample>, AllocError>
    ensures list { IfOk result (λ v. v.items ≡ outside from to (C.list chunk.now)) }
    ensures unread { IfErr result (λ _. steps.new ≡ steps.old) }
    ensures steps { Takes steps.old steps.new (length (C.list chunk.now)) }
{
    chunk.known();
    let mut gathered = SampleCollector::with_reserved(alloc, chunk.len())?;
    chunk.scan(0, MAX_TIME, &mut gathered, steps);
    let mut samples = gathered.into_samples();
    remove_interval(&mut samples, from, to);
    Ok(samples)
}

// The samples of two consecutive chunks without those of an interval. Allocates before it decodes.
fn remaining_of_both<C: Chunk, L: Ledger>(
    first: &C,
    last: &C,
    alloc: Global,
    from: u64,
    to: u64,
    steps: &mut Steps<L>,
) -> Result<Vec<Sample>, AllocError>
    requires { IsAscending (C.list first.now ++ C.list last.now) }
    ensures list { IfOk result (λ v. v.items ≡ outside from to (C.list first.now ++ C.list last.now)) }
    ensures unread { IfErr result (λ _. steps.new ≡ steps.old) }
    ensures steps { Takes steps.old steps.new (length (C.list first.now) + length (C.list last.now)) }
{
    first.known();
    last.known();
    let mut gathered = SampleCollector::with_reserved(alloc, first.len() + last.len())?;
    first.scan(0, MAX_TIME, &mut gathered, steps);
    last.scan(0, MAX_TIME, &mut gathered, steps);
    let mut samples = gathered.into_samples();
    remove_interval(&mut samples, from, to);
    Ok(samples)
}

// Removes an interval's samples from an ascending list.
fn remove_interval(samples: &mut Vec<Sample>, from: u64, to: u64)
    requires { IsAscending samples.old.items }
    ensures { samples.new.items ≡ outside from to samples.old.items }
{
    let places = index_range(samples, from, to);
    samples.drain(places);
}

// Inserts an interval's rows into a list with no samples in that interval.
pub(crate) fn insert_rows(
    samples: &mut Vec<Sample>,
    from: u64,
    to: u64,
    rows: &[Sample],
) -> Result<(), AllocError>
    requires ascending { IsAscending samples.old.items }
    requires none_within { IsAfter to (at_times (nat_le from) samples.old.items) }
    requires rows { IsAscending rows.now }
    requires within { AreWithin from to rows.now }
    ensures { IfOk result (λ _. samples.new.items ≡ put_all rows.now samples.old.items) }
{
    let place = lower_bound(samples, from);
    let mut rest = samples.split_off(place)?;
    samples.extend_from_slice(rows)?;
    samples.append(&mut rest)?;
    Ok(())
}

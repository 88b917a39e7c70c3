// Replaces an interval's samples with rows, in chunks. Decodes only the chunks that overlap the interval.
ghost use Rattle.std.specs.Prelude.{◌≡◌, ◌≤◌, ◌*◌, ◌∷◌, [], length, IfOk, ◌-◌, map, take};
ghost use Rattle.ts_spec.specs.Sample.{IsAscending, between, last_of, outside, put_all};
ghost use Rattle.ts_sample.specs.Chunk.{IsLimit, IsPast, joined, HaveLimit};
ghost use Rattle.ts_sample.specs.Steps.{Takes};
ghost use Rattle.ts_series.specs.Stored.{points, longest, pieces_after, replaced, IsOverlapping, IsReady, HasLimits};
ghost use Rattle.ts_series.specs.Stored.{AreChunks};
ghost use Rattle.ts_series.specs.Plan.{AreWithin};

use crate::change::Change;
use crate::chunk_plans::begun;
use crate::chunks::Chunks;
use crate::remaining_samples::insert_rows;
use std::alloc::{AllocError, Global};
use std::ops::Range;
use std::sync::ledger::Ledger;
use ts_sample::{Chunk, Sample, Steps};

impl<C: Chunk> Chunks<C> {
    // The change that replaces an interval's samples with rows, or the failed allocation, and the number of samples
    // replaced.
    pub(crate) fn updated_list<L: Ledger>(
        &self,
        alloc: Global,
        from: u64,
        to: u64,
        rows: &[Sample],
        chunk_size: u32,
        steps: &mut Steps<L>,
    ) -> (Result<Change<C>, AllocError>, usize)
        requires size { IsLimit chunk_size }
        requires ascending { IsAscending rows.now }
        requires within { AreWithin from to rows.now }
        ensures ready { IfOk result.0 (λ c. IsReady C.format self.now c) }
        ensures limits { IfOk result.0 (λ c. HasLimits chunk_size self.now.limits c) }
        ensures list { IfOk result.0 (λ c. joined (pieces_after c self.now.pieces)
            ≡ put_all rows.now (outside from to (points self.now))) }
        ensures removed { result.1 ≡ length (between from to (points self.now)) }
        ensures steps { Takes steps.old steps.new (2 * longest self.now.pieces) }
        ensures easy { from ≡ to → length rows.now ≡ 1 → IsPast (last_of (points self.now)) from
            → steps.new ≡ steps.old }
    {
        if from == to {
            if let [row] = rows {
                return self.with_row(alloc, row, chunk_size, steps);
            }
        }
        self.replaced_between(alloc, from, to, rows, chunk_size, steps)
    }

    // The same for any interval: decodes and rebuilds the chunks that overlap it.
    fn replaced_between<L: Ledger>(
        &self,
        alloc: Global,
        from: u64,
        to: u64,
        rows: &[Sample],
        chunk_size: u32,
        steps: &mut Steps<L>,
    ) -> (Result<Change<C>, AllocError>, usize)
        requires size { IsLimit chunk_size }
        requires ascending { IsAscending rows.now }
        requires within { AreWithin from to rows.now }
        ensures ready { IfOk result.0 (λ c. IsReady C.format self.now c) }
        ensures limits { IfOk result.0 (λ c. HasLimits chunk_size self.now.limits c) }
        ensures list { IfOk result.0 (λ c. joined (pieces_after c self.now.pieces)
            ≡ put_all rows.now (outside from to (points self.now))) }
        ensures removed { result.1 ≡ length (between from to (points self.now)) }
        ensures steps { Takes steps.old steps.new (2 * longest self.now.pieces) }
    {
        // Does nothing at run time: reading the field tells the proof that the chunks are in order.
        let _ = &self.chunks;
        let Range { start, end } = self.overlapping_or_next(from, to);
        let mut samples = match self.samples_left(alloc, start, end, from, to, steps) {
            Ok(samples) => samples,
            Err(fault) => return (Err(fault), self.count_between(from, to, steps)),
        };
        let removed = self.count_of(start, end) - samples.len();
        match insert_rows(&mut samples, from, to, rows) {
            Ok(()) => (
                self.rebuilt(alloc, start, end, &samples, chunk_size),
                removed,
            ),
            Err(fault) => (Err(fault), removed),
        }
    }

    // The range of chunks that may have samples from `from` to `to`, or else of the first chunk after them.
    fn overlapping_or_next(&self, from: u64, to: u64) -> Range<usize>
        ensures { IsOverlapping from to self.now.pieces result.start result.end }
    {
        let Range { start, end } = self.overlapping(from, to);
        if start == end {
            return start..(end + 1).min(self.chunks.len());
        }
        start..end
    }

    // The change that replaces the chunks `start..end` with these samples. A single sample after all others goes into
    // the chunk before them, if it fits.
    fn rebuilt(
        &self,
        alloc: Global,
        start: usize,
        end: usize,
        samples: &[Sample],
        chunk_size: u32,
    ) -> Result<Change<C>, AllocError>
        requires size { IsLimit chunk_size }
        requires ordered { start ≤ end }
        requires within { end ≤ length self.now.pieces }
        requires ascending { IsAscending (joined (replaced start end (samples.now ∷ []) self.now.pieces)) }
        ensures ready { IfOk result (λ c. IsReady C.format self.now c) }
        ensures limits { IfOk result (λ c. HasLimits chunk_size self.now.limits c) }
        ensures list { IfOk result (λ c. joined (pieces_after c self.now.pieces)
            ≡ joined (replaced start end (samples.now ∷ []) self.now.pieces)) }
    {
        if end == self.chunks.len() {
            if let [sample] = samples {
                return self.past(alloc, start, sample, chunk_size);
            }
        }
        let chunks = chunks_of(alloc, chunk_size, samples)?;
        Ok(Change {
            start,
            end,
            chunks,
            appended: None,
        })
    }
}

// Chunks of size `limit` with these samples. If two chunks are enough, each gets half of the samples, so that both
// can grow.
pub(crate) fn chunks_of<C: Chunk>(
    alloc: Global,
    limit: u32,
    samples: &[Sample],
) -> Result<Vec<C>, AllocError>
    requires limit { IsLimit limit }
    requires ascending { IsAscending samples.now }
    ensures list { IfOk result (λ v. joined (map C.list v.items) ≡ samples.now) }
    ensures chunks { IfOk result (λ v. AreChunks C.format (map C.list v.items) (map C.most v.items)) }
    ensures limits { IfOk result (λ v. HaveLimit C.most limit v.items) }
{
    let chunks = filled(alloc, limit, samples)?;
    if chunks.len() != 2 {
        return Ok(chunks);
    }
    let half = samples.len() / 2;
    let mut firsts = filled(alloc, limit, &samples[..half])?;
    let mut lasts = filled(alloc, limit, &samples[half..])?;
    firsts.append(&mut lasts)?;
    Ok(firsts)
}

// Chunks of size `limit` with these samples, each filled as far as possible.
fn filled<C: Chunk>(alloc: Global, limit: u32, samples: &[Sample]) -> Result<Vec<C>, AllocError>
    requires limit { IsLimit limit }
    requires ascending { IsAscending samples.now }
    ensures list { IfOk result (λ v. joined (map C.list v.items) ≡ samples.now) }
    ensures chunks { IfOk result (λ v. AreChunks C.format (map C.list v.items) (map C.most v.items)) }
    ensures limits { IfOk result (λ v. HaveLimit C.most limit v.items) }
{
    let mut chunks = Vec::new(alloc);
    let mut count = 0;
    while let Some((first, rest)) = samples[count..].split_first() {
        let chunk = front_of::<C>(alloc, limit, first, rest)?;
        chunk.known();
        count += chunk.len();
        chunks.push(chunk)?;
    }
    Ok(chunks)
}

// A chunk of size `limit` with `first` and as many of the other samples as fit.
fn front_of<C: Chunk>(
    alloc: Global,
    limit: u32,
    first: &Sample,
    rest: &[Sample],
) -> Result<C, AllocError>
    requires limit { IsLimit limit }
    requires ascending { IsAscending (first.now ∷ rest.now) }
    ensures list { IfOk result (λ c. C.list c ≡ first.now ∷ take (length (C.list c) - 1) rest.now) }
    ensures limit { IfOk result (λ c. C.most c ≡ limit) }
{
    let mut chunk = begun::<C>(alloc, first, limit)?;
    for sample in rest {
        if !chunk.try_append(sample) {
            return Ok(chunk);
        }
    }
    Ok(chunk)
}

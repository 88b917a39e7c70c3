// Plans changes of the chunks, and allocates what they need.
ghost use Rattle.std.specs.Prelude.{◌≡◌, ℕ, ◌≤◌, ◌<◌, ◌*◌, [], ◌∷◌, length, IfOk, map, take, slice_range, None};
ghost use Rattle.ts_spec.specs.Sample.{between, last_of, outside, put};
ghost use Rattle.ts_sample.specs.Chunk.{IsLimit, IsChunk, IsPast, joined};
ghost use Rattle.ts_sample.specs.Steps.{Takes};
ghost use Rattle.ts_series.specs.Stored.{points, longest, pieces_after, IsOverlapping, IsReady, AreChunks, AreAmong};
ghost use Rattle.ts_series.specs.Stored.{HasLimits, IsUpTo};

use crate::change::Change;
use crate::chunks::{Chunks, count_in};
use std::alloc::{AllocError, Global};
use std::sync::ledger::Ledger;
use ts_sample::{Chunk, Sample, Steps};

impl<C: Chunk> Chunks<C> {
    // Adds a sample after the last one: to the last chunk, or in a new chunk of this size.
    pub(crate) fn appended(
        &self,
        alloc: Global,
        sample: &Sample,
        chunk_size: u32,
    ) -> Result<Change<C>, AllocError>
        requires size { IsLimit chunk_size }
        requires past { IsPast (last_of (points self.now)) sample.now.time }
        ensures ready { IfOk result (λ c. IsReady C.format self.now c) }
        ensures limits { IfOk result (λ c. HasLimits chunk_size self.now.limits c) }
        ensures list { IfOk result (λ c. joined (pieces_after c self.now.pieces) ≡ put sample.now (points self.now)) }
    {
        self.past(alloc, self.chunks.len(), sample, chunk_size)
    }

    // Keeps only the chunks before index `place`, and adds a sample after theirs: to the last of them, or in a new
    // chunk of this size.
    pub(crate) fn past(
        &self,
        alloc: Global,
        start: usize,
        sample: &Sample,
        chunk_size: u32,
    ) -> Result<Change<C>, AllocError>
        requires size { IsLimit chunk_size }
        requires within { start ≤ length self.now.pieces }
        requires past { IsPast (last_of (joined (take start self.now.pieces))) sample.now.time }
        ensures ready { IfOk result (λ c. IsReady C.format self.now c) }
        ensures limits { IfOk result (λ c. HasLimits chunk_size self.now.limits c) }
        ensures list { IfOk result (λ c. joined (pieces_after c self.now.pieces)
            ≡ put sample.now (joined (take start self.now.pieces))) }
    {
        let end = self.chunks.len();
        let mut chunks = Vec::new(alloc);
        if start > 0 && self.chunks[start - 1].fits(sample) {
            return Ok(Change {
                start,
                end,
                chunks,
                appended: Some(*sample),
            });
        }
        chunks.push(begun(alloc, sample, chunk_size)?)?;
        Ok(Change {
            start,
            end,
            chunks,
            appended: None,
        })
    }

    // Writes a sample at a time that is not after the last one.
    pub(crate) fn inserted<L: Ledger>(
        &self,
        alloc: Global,
        sample: &Sample,
        steps: &mut Steps<L>,
    ) -> Result<Change<C>, AllocError>
        requires late { IsUpTo sample.now.time (last_of (points self.now)) }
        ensures ready { IfOk result (λ c. IsReady C.format self.now c) }
        ensures nothing_appended { IfOk result (λ c. c.appended ≡ None) }
        ensures limits { (one : ℕ) → IfOk result (λ c. HasLimits one self.now.limits c) }
        ensures list { IfOk result (λ c. joined (pieces_after c self.now.pieces) ≡ put sample.now (points self.now)) }
        ensures steps { Takes steps.old steps.new (longest self.now.pieces) }
    {
        sample.known();
        let place = self.before(sample.time);
        let chunks = self.chunks[place].upsert(alloc, sample, steps)?;
        Ok(Change {
            start: place,
            end: place + 1,
            chunks,
            appended: None,
        })
    }

    // Deletes an interval's samples, and counts them.
    pub(crate) fn without<L: Ledger>(
        &self,
        alloc: Global,
        from: u64,
        to: u64,
        steps: &mut Steps<L>,
    ) -> Result<(Change<C>, usize), AllocError>
        ensures ready { IfOk result (λ r. IsReady C.format self.now r.0) }
        ensures limits { (one : ℕ) → IfOk result (λ r. HasLimits one self.now.limits r.0) }
        ensures list { IfOk result (λ r. joined (pieces_after r.0 self.now.pieces)
            ≡ outside from to (points self.now)) }
        ensures removed { IfOk result (λ r. r.1 ≡ length (between from to (points self.now))) }
        ensures place { IfOk result (λ r. IsOverlapping from to self.now.pieces r.0.start r.0.end) }
        ensures nothing_appended { IfOk result (λ r. r.0.appended ≡ None) }
        ensures lengths { IfOk result (λ r. longest r.0.pieces ≤ longest self.now.pieces) }
        ensures steps { Takes steps.old steps.new (2 * longest self.now.pieces) }
    {
        // Does nothing at run time: reading the field tells the proof that the chunks are in order.
        let _ = &self.chunks;
        let places = self.overlapping(from, to);
        let (start, end) = (places.start, places.end);
        let chunks = self.left_between(alloc, start, end, from, to, steps)?;
        let removed = self.count_of(start, end) - count_in(&chunks);
        Ok((
            Change {
                start,
                end,
                chunks,
                appended: None,
            },
            removed,
        ))
    }

    // New chunks for those that overlap an interval, without its samples. Only the first and the last of them have
    // other samples.
    fn left_between<L: Ledger>(
        &self,
        alloc: Global,
        start: usize,
        end: usize,
        from: u64,
        to: u64,
        steps: &mut Steps<L>,
    ) -> Result<Vec<C>, AllocError>
        requires { IsOverlapping from to self.now.pieces start end }
        ensures list { IfOk result (λ v. joined (map C.list v.items)
            ≡ outside from to (joined (slice_range self.now.pieces start end))) }
        ensures chunks { IfOk result (λ v. AreChunks C.format (map C.list v.items) (map C.most v.items)) }
        ensures limits { (one : ℕ) → IfOk result
            (λ v. AreAmong one (slice_range self.now.limits start end) (map C.most v.items)) }
        ensures lengths { IfOk result (λ v. longest (map C.list v.items) ≤ longest self.now.pieces) }
        ensures steps { Takes steps.old steps.new (2 * longest self.now.pieces) }
    {
        if start == end {
            return Ok(Vec::new(alloc));
        }
        let mut chunks = self.chunks[start].without(alloc, from, to, steps)?;
        if start + 1 == end {
            return Ok(chunks);
        }
        let mut rest = self.chunks[end - 1].without(alloc, from, to, steps)?;
        chunks.append(&mut rest)?;
        Ok(chunks)
    }
}

// A chunk of size `limit` with one sample.
pub(crate) fn begun<C: Chunk>(alloc: Global, sample: &Sample, limit: u32) -> Result<C, AllocError>
    requires { IsLimit limit }
    ensures list { IfOk result (λ c. C.list c ≡ sample.now ∷ []) }
    ensures limit { IfOk result (λ c. C.most c ≡ limit) }
    ensures chunk { IfOk result (λ c. IsChunk C.format (C.most c) (C.list c)) }
{
    sample.known();
    let mut chunk = C::new(alloc, limit)?;
    let _fits = chunk.try_append(sample);
    chunk.known();
    Ok(chunk)
}

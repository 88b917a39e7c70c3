// A late sample: inserted at its time, or the chunk split in two if it gets too long. The samples after it are coded
// again.
ghost use Rattle.std.specs.Prelude.{◌≡◌, ◌<◌, ◌≤◌, length, IfOk, IfSome, IfNone, ◌+◌, ◌/◌, nat_eq, ◌++◌, nat_le, true};
ghost use Rattle.std.specs.Prelude.{take, drop};
ghost use Rattle.ts_spec.specs.Sample.{put, IsAscending};
ghost use Rattle.ts_chunk_packed.specs.Packed.{packed, state_from};
ghost use Rattle.ts_chunk_packed.specs.Marks.{AreMarks};
ghost use Rattle.ts_chunk_packed.specs.Decoder.{IsUndecodedOf};

use super::PackedChunk;
use crate::decoder::Decoder;
use crate::late_marks::LateMarks;
use std::alloc::{AllocError, Global};
use ts_sample::{Chunk, MAX_TIME, Sample};

impl PackedChunk {
    // A chunk of the same limit with `sample` at its time, and the number of samples decoded to build it. `None` if
    // it does not fit.
    pub(super) fn with_sample(
        &self,
        alloc: Global,
        sample: &Sample,
    ) -> Result<Option<(PackedChunk, u32)>, AllocError>
        ensures list { IfOk result (λ o. IfSome o (λ r. r.0.list ≡ put sample.now self.now.list)) }
        ensures limit { IfOk result (λ o. IfSome o (λ r. r.0.limit ≡ self.now.limit)) }
        ensures full { IfOk result (λ o. IfNone o (self.now.limit < length (packed (put sample.now self.now.list)))) }
        ensures decoded { IfOk result (λ o. IfSome o (λ r. r.1 ≤ length self.now.list)) }
    {
        self.known();
        sample.known();
        let mut rest = self.rest_from(sample.time);
        let count = rest.len();
        let mut chunk = self.front(alloc, sample.time, &mut rest)?;
        if !chunk.try_append(sample) {
            return Ok(None);
        }
        rest.pass_before(sample.time + 1);
        if !append_remaining(&mut chunk, &mut rest, self) {
            return Ok(None);
        }
        Ok(Some((chunk, count - rest.len())))
    }

    // Two chunks of the same limit with `sample` at its time, split in halves if there was no sample at that time.
    // `None` if they do not fit.
    pub(super) fn split_with(
        &self,
        alloc: Global,
        sample: &Sample,
    ) -> Result<Option<(PackedChunk, PackedChunk)>, AllocError>
        ensures list { IfOk result (λ o. IfSome o (λ r. r.0.list ++ r.1.list ≡ put sample.now self.now.list)) }
        ensures limits { IfOk result
            (λ o. IfSome o (λ r. (r.0.limit ≡ self.now.limit) × (r.1.limit ≡ self.now.limit))) }
    {
        self.known();
        let mut rest = self.rest_at(None);
        let mut marks = LateMarks::with_reserved(alloc, self.limit)?;
        self.pass_half(sample, &mut rest, &mut marks);
        let Some((first, second)) = self.split(alloc, rest, marks)? else {
            return Ok(None);
        };
        let Some(begins) = second.first() else {
            return Ok(None);
        };
        if sample.time < begins.time {
            let Some((first, _)) = first.with_sample(alloc, sample)? else {
                return Ok(None);
            };
            return Ok(Some((first, second)));
        }
        let Some((second, _)) = second.with_sample(alloc, sample)? else {
            return Ok(None);
        };
        Ok(Some((first, second)))
    }

    // Skips the first half of the samples, or a sample less if `sample` belongs to that half, and sets each mark that
    // becomes due. Where it stops affects only speed.
    fn pass_half(&self, sample: &Sample, rest: &mut Decoder<'_>, marks: &mut LateMarks)
        requires rest { IsUndecodedOf self.now.list rest.old }
        requires marks { (of : IsUndecodedOf self.now.list rest.old) → AreMarks of.front marks.old }
        ensures rest { IsUndecodedOf self.now.list rest.new }
        ensures marks { (of : IsUndecodedOf self.now.list rest.new) → AreMarks of.front marks.new }
    {
        for _ in 0..self.count.saturating_sub(1) / 2 {
            self.pass_next(MAX_TIME, rest, marks);
        }
        sample.known();
        self.pass_next(sample.time + 1, rest, marks);
    }

    // Skips the next sample if it is before `time`, and sets a mark after it if one is due.
    fn pass_next(&self, time: u64, rest: &mut Decoder<'_>, marks: &mut LateMarks)
        requires rest { IsUndecodedOf self.now.list rest.old }
        requires marks { (of : IsUndecodedOf self.now.list rest.old) → AreMarks of.front marks.old }
        ensures rest { IsUndecodedOf self.now.list rest.new }
        ensures marks { (of : IsUndecodedOf self.now.list rest.new) → AreMarks of.front marks.new }
    {
        if !rest.pass(time) {
            return;
        }
        let place = self.place_of(rest);
        marks.set(rest.context(), place);
    }

    // Splits the chunk in front of `rest` into two chunks of the same limit, with `marks` for the first. `None` if
    // the second does not fit or would be empty. The second chunk copies all but its first few samples without coding
    // them again.
    fn split(
        &self,
        alloc: Global,
        mut rest: Decoder<'_>,
        marks: LateMarks,
    ) -> Result<Option<(PackedChunk, PackedChunk)>, AllocError>
        requires rest { IsUndecodedOf self.now.list rest }
        requires marks { (of : IsUndecodedOf self.now.list rest) → AreMarks of.front marks }
        ensures whole { IfOk result (λ o. IfSome o (λ r. r.0.list ++ r.1.list ≡ self.now.list)) }
        ensures limits { IfOk result
            (λ o. IfSome o (λ r. (r.0.limit ≡ self.now.limit) × (r.1.limit ≡ self.now.limit))) }
    {
        self.known();
        let first = self.all_before(alloc, &rest, marks)?;
        let mut second = PackedChunk::new(alloc, self.limit())?;
        let Some(sample) = rest.next() else {
            return Ok(None);
        };
        if !second.try_append(&sample) {
            return Ok(None);
        }
        if !append_remaining(&mut second, &mut rest, self) {
            return Ok(None);
        }
        Ok(Some((first, second)))
    }
}

// Whether two lists of these lengths are the halves of one list, the first rounded down.
pub(super) fn are_halves(first: usize, second: usize) -> bool
    ensures { result ≡ nat_eq first ((first + second) / 2) }
{
    match second.checked_sub(first) {
        Some(more) => more < 2,
        None => false,
    }
}

/// The number of samples to code again when other samples come in front of them. After two samples the context no
/// longer depends on what came before.
const RECODED: u32 = 2;

/// Appends the remaining samples of `other` to `chunk`, if they fit. Returns whether they did. Copies the bytes of
/// all but the first few samples.
pub fn append_remaining(
    chunk: &mut PackedChunk,
    rest: &mut Decoder<'_>,
    other: &PackedChunk,
) -> bool
    requires some { 0 < length chunk.old.list }
    requires ascending { IsAscending (chunk.old.list ++ rest.old.list) }
    requires of { IsUndecodedOf other.now.list rest.old }
    ensures fits { result ≡ nat_le (length (packed (chunk.old.list ++ rest.old.list))) chunk.old.limit }
    ensures list { result ≡ true → chunk.new.list ≡ chunk.old.list ++ rest.old.list }
    ensures limit { chunk.new.limit ≡ chunk.old.limit }
    ensures shorter { length rest.new.list ≤ length rest.old.list }
{
    for _ in 0..RECODED {
        if !append_next(chunk, rest) {
            return false;
        }
    }
    chunk.try_append_rest(rest, other)
}

// Codes the next sample again and appends it, if it fits. Returns whether it did.
fn append_next(chunk: &mut PackedChunk, rest: &mut Decoder<'_>) -> bool
    requires ascending { IsAscending (chunk.old.list ++ rest.old.list) }
    ensures fits { result ≡ nat_le (length (packed (chunk.old.list ++ take 1 rest.old.list))) chunk.old.limit }
    ensures list { result ≡ true → chunk.new.list ≡ chunk.old.list ++ take 1 rest.old.list }
    ensures limit { chunk.new.limit ≡ chunk.old.limit }
    ensures rest { rest.new.list ≡ drop 1 rest.old.list }
    ensures state { rest.new.state ≡ state_from rest.old.state (take 1 rest.old.list) }
{
    chunk.known();
    match rest.next() {
        Some(sample) => chunk.try_append(&sample),
        None => true,
    }
}

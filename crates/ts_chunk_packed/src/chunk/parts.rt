// Helpers of `PackedChunk`: the samples before and after a time or a mark, and the list of its fields.
ghost use Rattle.std.specs.Prelude.{◌≡◌, ◌+◌, ◌<◌, nat_lt, nat_le, if◌then◌else◌, ◌==◌, ◌++◌, length, None, IfOk};
ghost use Rattle.std.specs.Prelude.{IfSome, IfNone, ◌≤◌, ◌*◌};
ghost use Rattle.ts_spec.specs.Sample.{IsAscending, at_times};
ghost use Rattle.ts_chunk_packed.specs.Marks.{AreMarks, IsMark, IsPlace, EndsAt, passed};
ghost use Rattle.ts_chunk_packed.specs.Packed.{begin, state_from, packed};
ghost use Rattle.ts_chunk_packed.specs.Decoder.{IsUndecodedOf, IsUndecodedFrom, IsUndecodedPast};

use super::PackedChunk;
use crate::context::Context;
use crate::decoder::Decoder;
use crate::late_marks::LateMarks;
use crate::mark::{Mark, MarkPosition};
use std::alloc::{AllocError, Global};
use ts_sample::{Chunk, Sample};

impl PackedChunk {
    // The coding context after its last sample.
    pub(super) fn context(&self) -> Context
        ensures { result ≡ state_from begin self.now.list }
    {
        Context::new(self.last, self.step)
    }

    // The samples after the last mark before `time`.
    pub(super) fn rest_from(&self, time: u64) -> Decoder<'_>
        ensures { IsUndecodedFrom time self.now.list result }
    {
        self.rest_at(self.marks.before(time))
    }

    // The samples after `mark`, or all samples if there is no mark.
    pub(super) fn rest_at(&self, mark: Option<&Mark>) -> Decoder<'_>
        requires { IfSome mark (λ m. IsMark self.now.list m.now) }
        ensures all { IfNone mark.entry (IsUndecodedPast 0 self.now.list result) }
        ensures past { IfSome mark.entry (λ m. IsUndecodedPast m.now.count self.now.list result) }
    {
        let Some(mark) = mark else {
            return Decoder::new(Context::new(None, 0), &self.bytes, self.count);
        };
        let bytes = &self.bytes[mark.at() as usize..];
        Decoder::new(mark.context(), bytes, self.count - mark.count())
    }

    // The reading position in front of the remaining samples.
    pub(super) fn place_before(&self, rest: &Decoder<'_>) -> Option<Mark>
        requires { IsUndecodedOf self.now.list rest.now }
        ensures place { IsPlace self.now.list result }
        ensures passed { passed result + length rest.now.list ≡ length self.now.list }
    {
        Mark::after(rest.context(), self.place_of(rest))
    }

    // Skips the samples before `time` and returns a chunk of the same limit with all samples before `time`.
    pub(super) fn front(
        &self,
        alloc: Global,
        time: u64,
        rest: &mut Decoder<'_>,
    ) -> Result<PackedChunk, AllocError>
        requires { IsUndecodedFrom time self.now.list rest.old }
        ensures list { IfOk result (λ c. c.list ≡ at_times (λ t. nat_lt t time) self.now.list) }
        ensures limit { IfOk result (λ c. c.limit ≡ self.now.limit) }
        ensures rest { IfOk result (λ _. rest.new.list ≡ at_times (nat_le time) self.now.list) }
        ensures state { IfOk result (λ _. rest.new.state
            ≡ state_from begin (at_times (λ t. nat_lt t time) self.now.list)) }
    {
        self.known();
        let mut marks = self.marks_before(alloc, rest)?;
        self.pass_before(time, rest, &mut marks);
        self.all_before(alloc, rest, marks)
    }

    // A chunk of the same limit with all samples in front of `rest`, and with these marks.
    pub(super) fn all_before(
        &self,
        alloc: Global,
        rest: &Decoder<'_>,
        marks: LateMarks,
    ) -> Result<PackedChunk, AllocError>
        requires rest { IsUndecodedOf self.now.list rest.now }
        requires marks { (of : IsUndecodedOf self.now.list rest.now) → AreMarks of.front marks }
        ensures whole { IfOk result (λ c. c.list ++ rest.now.list ≡ self.now.list) }
        ensures state { IfOk result (λ c. rest.now.state ≡ state_from begin c.list) }
        ensures limit { IfOk result (λ c. c.limit ≡ self.now.limit) }
    {
        let mut bytes = Vec::with_capacity(alloc, self.limit as usize)?;
        let (before, _) = self.bytes.split_at(self.bytes.len() - rest.bytes().len());
        bytes.extend_from_slice(before)?;
        let count = self.count - rest.len();
        let context = rest.context();
        Ok(PackedChunk {
            limit: self.limit,
            bytes,
            count,
            step: context.step(),
            first: kept_first(count, self.first),
            last: context.last(),
            marks,
        })
    }

    // The marks in front of `rest`, with capacity for more.
    fn marks_before(&self, alloc: Global, rest: &Decoder<'_>) -> Result<LateMarks, AllocError>
        requires { IsUndecodedOf self.now.list rest.now }
        ensures { IfOk result (λ ms. (of : IsUndecodedOf self.now.list rest.now) → AreMarks of.front ms) }
    {
        let mut marks = LateMarks::with_reserved(alloc, self.limit)?;
        let place = self.place_of(rest);
        marks.keep_first(&self.marks, place.count);
        Ok(marks)
    }

    // Skips the samples before `time`, and sets each mark that becomes due.
    fn pass_before(&self, time: u64, rest: &mut Decoder<'_>, marks: &mut LateMarks)
        requires rest { IsUndecodedFrom time self.now.list rest.old }
        requires marks { (from : IsUndecodedFrom time self.now.list rest.old) → AreMarks from.rest.front marks.old }
        ensures list { rest.new.list ≡ at_times (nat_le time) self.now.list }
        ensures state { rest.new.state ≡ state_from begin (at_times (λ t. nat_lt t time) self.now.list) }
        ensures marks { AreMarks (at_times (λ t. nat_lt t time) self.now.list) marks.new }
    {
        while rest.pass(time) {
            let place = self.place_of(rest);
            marks.set(rest.context(), place);
        }
    }

    // The byte and sample offset where `rest` starts.
    pub(super) fn place_of(&self, rest: &Decoder<'_>) -> MarkPosition
        requires { IsUndecodedOf self.now.list rest.now }
        ensures { (of : IsUndecodedOf self.now.list rest.now) → EndsAt of.front result.at result.count }
    {
        MarkPosition {
            at: (self.bytes.len() - rest.bytes().len()) as u32,
            count: self.count - rest.len(),
        }
    }

    /// Appends the remaining samples of `other` without coding them again, if they fit. Returns whether they did.
    /// Allocates nothing.
    pub(crate) fn try_append_rest(&mut self, rest: &Decoder<'_>, other: &PackedChunk) -> bool
        requires some { 0 < length self.old.list }
        requires ascending { IsAscending (self.old.list ++ rest.now.list) }
        requires alike { 0 < length rest.now.list → state_from begin self.old.list ≡ rest.now.state }
        requires of { IsUndecodedOf other.now.list rest.now }
        ensures fits { result ≡ nat_le (length (packed (self.old.list ++ rest.now.list))) self.old.limit }
        ensures list { self.new.list ≡ (if result then self.old.list ++ rest.now.list else self.old.list) }
        ensures limit { self.new.limit ≡ self.old.limit }
    {
        let room = self.limit as usize - self.bytes.len();
        rest.known();
        let bytes = rest.bytes();
        if bytes.is_empty() {
            return true;
        }
        if bytes.len() > room {
            return false;
        }
        let from = other.place_of(rest);
        let to = MarkPosition {
            at: self.bytes.len() as u32,
            count: self.count,
        };
        self.bytes.extend_from_slice(bytes).unwrap();
        self.count += rest.len();
        self.step = other.step;
        self.last = other.last;
        self.marks.keep_moved(&other.marks, from, to);
        true
    }

    /// The number of its marks, each of 48 bytes: at most one per 256 bytes of samples.
    pub fn marks(&self) -> usize
        ensures { 256 * result ≤ length (packed self.now.list) }
    {
        self.marks.len()
    }
}

// The first of `count` samples, or `None` if `count` is 0.
fn kept_first(count: u32, first: Option<Sample>) -> Option<Sample>
    ensures { result ≡ (if count == 0 then None else first) }
{
    if count == 0 { None } else { first }
}

// Fails to compile if a field is added, such as a second copy of the samples.
fn fields(it: &PackedChunk) {
    let PackedChunk {
        limit: _,
        bytes: _,
        count: _,
        step: _,
        first: _,
        last: _,
        marks: _,
    } = it;
}

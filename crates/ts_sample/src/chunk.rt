// The interface of chunks, for every format.
ghost use Rattle.std.specs.Prelude.{◌≡◌, ℕ, ◌+◌, ◌*◌, ◌/◌, ◌<◌, ◌≤◌, nat_le, if◌then◌else◌, List, [], ◌∷◌, ◌++◌, take};
ghost use Rattle.std.specs.Prelude.{drop, length, map, IfOk, IfSome, IfNone};
ghost use Rattle.ts_spec.specs.Sample.{Point, between, at_times, outside, put, first_of, last_of};
ghost use Rattle.ts_sample.specs.Chunk.{IsLimit, IsChunk, IsPast, IsCut, HaveLimit, least_limit};
ghost use Rattle.ts_sample.specs.Sample.{IsInBounds};
ghost use Rattle.ts_sample.specs.Visit.{visited};
ghost use Rattle.ts_sample.specs.Steps.{Takes};

use crate::changed::{with_sample, without_interval};
use crate::sample::Sample;
use crate::steps::Steps;
use crate::visit::Visit;
use std::alloc::{AllocError, Global};
use std::sync::ledger::Ledger;

/// Samples in strictly ascending time, encoded as at most `limit` bytes.
pub trait Chunk: Drop {
    // Its samples.
    ghost list: { Self → List Point };

    // The limit, in bytes.
    ghost most: { Self → ℕ };

    // The encoding of a list.
    ghost format: { List Point → List ℕ };

    // A position among the samples, from which reading continues.
    type Place: Drop;

    // The number of samples before a position.
    ghost passed: { Self.Place → ℕ };

    // A valid position among these samples.
    ghost is_place: { List Point → Self.Place → Type 0 };

    /// Returns an empty chunk. The limit is 48 to 1,048,576 bytes, all reserved at once.
    fn new(alloc: Global, limit: u32) -> Result<Self, AllocError>
        requires { IsLimit limit }
        ensures list { IfOk result (λ c. list c ≡ []) }
        ensures limit { IfOk result (λ c. most c ≡ limit) };

    /// Does nothing at run time. It gives the prover the invariant of a chunk behind a reference.
    fn known(&self)
        ensures { IsChunk format (most self.now) (list self.now) };

    /// The limit, in bytes.
    fn limit(&self) -> u32
        ensures { result ≡ most self.now };

    /// The number of samples. It decodes nothing.
    fn len(&self) -> usize
        ensures { result ≡ length (list self.now) };

    /// The first sample. It decodes nothing.
    fn first(&self) -> Option<Sample>
        ensures { result ≡ first_of (list self.now) };

    /// The last sample. It decodes nothing.
    fn last(&self) -> Option<Sample>
        ensures { result ≡ last_of (list self.now) };

    /// The number of encoded bytes.
    fn bytes(&self) -> u32
        ensures { result ≡ length (format (list self.now)) };

    /// The encoded bytes.
    fn raw(&self) -> &[u8]
        ensures { result.now ≡ format (list self.now) };

    /// Passes the samples from `from` to `to` (milliseconds, both included) to the visitor, in order. Each decoded
    /// sample is a step.
    fn scan<V: Visit, L: Ledger>(&self, from: u64, to: u64, visit: &mut V, steps: &mut Steps<L>)
        requires room { length (between from to (list self.now)) ≤ V.room visit.old }
        ensures visited { visit.new ≡ visited V.step visit.old (between from to (list self.now)) }
        ensures counted { steps.old + length (between from to (list self.now)) ≤ steps.new }
        ensures bounded { steps.new ≤ steps.old + length (list self.now) };

    /// The position before the first sample, in any chunk.
    fn start() -> Self::Place
        ensures place { (ps : List Point) → is_place ps result }
        ensures passed { passed result ≡ 0 };

    /// The position before the first sample at or after `time` (milliseconds). Each sample decoded to find it is a
    /// step.
    fn place_from<L: Ledger>(&self, time: u64, steps: &mut Steps<L>) -> Self::Place
        ensures place { is_place (list self.now) result }
        ensures left { drop (passed result) (list self.now) ≡ at_times (nat_le time) (list self.now) }
        ensures within { passed result ≤ length (list self.now) }
        ensures steps { Takes steps.old steps.new (length (list self.now)) };

    /// Reads the sample at a position, as one step, and moves the position past it. Returns `None` if no sample is
    /// left.
    fn read<L: Ledger>(&self, place: &mut Self::Place, steps: &mut Steps<L>) -> Option<Sample>
        requires { is_place (list self.now) place.old }
        ensures next { result ≡ first_of (drop (passed place.old) (list self.now)) }
        ensures place { is_place (list self.now) place.new }
        ensures passed { passed place.new
            ≡ passed place.old + length (take 1 (drop (passed place.old) (list self.now))) }
        ensures counted { steps.new ≡ steps.old + length (take 1 (drop (passed place.old) (list self.now))) };

    /// Whether a sample after the last one would fit. It decodes nothing.
    fn fits(&self, sample: &Sample) -> bool
        requires past { IsPast (last_of (list self.now)) sample.now.time }
        ensures { result ≡ nat_le (length (format (list self.now ++ sample.now ∷ []))) (most self.now) };

    /// Appends a sample after the last one if it fits, and returns whether it did. Allocates no memory.
    fn try_append(&mut self, sample: &Sample) -> bool
        requires past { IsPast (last_of (list self.old)) sample.now.time }
        ensures fits { result ≡ nat_le (length (format (list self.old ++ sample.now ∷ []))) (most self.old) }
        ensures list { list self.new ≡ (if result then list self.old ++ sample.now ∷ [] else list self.old) }
        ensures limit { most self.new ≡ most self.old };

    /// Returns one new chunk of the same limit with the sample at its time, or `None` if it would not fit. A sample
    /// at the same time is replaced. Bytes that do not change are copied. Each decoded sample is a step.
    fn spliced<L: Ledger>(
        &self,
        alloc: Global,
        sample: &Sample,
        steps: &mut Steps<L>,
    ) -> Result<Option<Self>, AllocError>
        ensures list { IfOk result (λ o. IfSome o (λ c. list c ≡ put sample.now (list self.now))) }
        ensures limit { IfOk result (λ o. IfSome o (λ c. most c ≡ most self.now)) }
        ensures full { IfOk result (λ o. IfNone o (most self.now < length (format (put sample.now (list self.now))))) }
        ensures steps { Takes steps.old steps.new (length (list self.now)) }
        ensures without { IfOk result (λ o. IfNone o (steps.new ≡ steps.old)) };

    /// Returns two new chunks of the same limit with the sample at its time; the first has the first half of the
    /// samples, rounded down. Returns `None` if this would be no faster than encoding all samples again. Each sample
    /// of the chunk is a step.
    fn halved<L: Ledger>(
        &self,
        alloc: Global,
        sample: &Sample,
        steps: &mut Steps<L>,
    ) -> Result<Option<(Self, Self)>, AllocError>
        ensures first { IfOk result
            (λ o. IfSome o (λ r. list r.0
            ≡ take (length (put sample.now (list self.now)) / 2) (put sample.now (list self.now)))) }
        ensures second { IfOk result
            (λ o. IfSome o (λ r. list r.1
            ≡ drop (length (put sample.now (list self.now)) / 2) (put sample.now (list self.now)))) }
        ensures limits { IfOk result (λ o. IfSome o (λ r. (most r.0 ≡ most self.now) × (most r.1 ≡ most self.now))) }
        ensures steps { Takes steps.old steps.new (length (list self.now)) }
        ensures without { IfOk result (λ o. IfNone o (steps.new ≡ steps.old)) };

    /// Returns new chunks with the sample at its time. It replaces a sample at the same time.
    final fn upsert<L: Ledger>(
        &self,
        alloc: Global,
        sample: &Sample,
        steps: &mut Steps<L>,
    ) -> Result<Vec<Self>, AllocError>
        ensures cut { IfOk result
            (λ v. IsCut format (most self.now) (put sample.now (list self.now)) (map list v.items)) }
        ensures limits { IfOk result (λ v. HaveLimit most (most self.now) v.items) }
        ensures steps { Takes steps.old steps.new (length (list self.now)) }
    {
        with_sample(self, alloc, sample, steps)
    }

    /// Returns new chunks without the samples from `from` to `to` (milliseconds, both included); none if no samples
    /// are left.
    final fn without<L: Ledger>(
        &self,
        alloc: Global,
        from: u64,
        to: u64,
        steps: &mut Steps<L>,
    ) -> Result<Vec<Self>, AllocError>
        ensures cut { IfOk result
            (λ v. IsCut format (most self.now) (outside from to (list self.now)) (map list v.items)) }
        ensures limits { IfOk result (λ v. HaveLimit most (most self.now) v.items) }
        ensures steps { Takes steps.old steps.new (length (list self.now)) }
    {
        without_interval(self, alloc, from, to, steps)
    }

    // A sample takes at least three bytes.
    ghost at_least: { (ps : List Point) → 3 * length ps ≤ length (format ps) };

    // A prefix of a list does not take more bytes than the list.
    ghost grows: { (ps : List Point) (p : Point) → length (format ps) ≤ length (format (ps ++ p ∷ [])) };

    // One sample fits into the smallest chunk.
    ghost one_fits: { (p : Point) → IsInBounds p → length (format (p ∷ [])) ≤ least_limit };
}

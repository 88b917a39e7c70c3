// Plans of a late write: one whose time is not after the last sample.
ghost use Rattle.std.specs.Prelude.{◌≡◌, ◌≢◌, ℕ, ◌≤◌, ◌*◌, None, Some, IfOk, ℤ, true, Option, ◌+ℤ◌};
ghost use Rattle.ts_spec.specs.Sample.{at};
ghost use Rattle.ts_spec.specs.Rules.{merge, To, merge_by, within_bound};
ghost use Rattle.ts_spec.specs.Step.{value_at};
ghost use Rattle.ts_sample.specs.Steps.{Takes};
ghost use Rattle.ts_series.specs.Stored.{longest};
ghost use Rattle.ts_series.specs.History.{list_of, low};
ghost use Rattle.ts_series.specs.Plan.{IsForIn};
ghost use Rattle.ts_series.specs.Put.{PutAnswers, IsMerged};

use crate::chunked_series::ChunkedSeries;
use crate::chunked_series_plan::ChunkedSeriesPlan;
use crate::plan::PutFault;
use std::sync::ledger::Ledger;
use ts_sample::{Chunk, Sample, Steps, Units};
use ts_spec::{Merge, Policy};

impl<C: Chunk> ChunkedSeries<C> {
    // Plans a write at a time that may have a sample.
    pub(crate) fn plan_late_write<L: Ledger>(
        &self,
        sample: Sample,
        how: Merge,
        limit: u32,
        steps: &mut Steps<L>,
    ) -> Result<ChunkedSeriesPlan<C>, PutFault>
        requires kept { low self.now ≤ sample.time }
        requires made { sample.made ≡ self.now.born }
        ensures planned { IfOk result (λ plan. IsForIn C.format plan self.now) }
        ensures answer { PutAnswers (merge how (value_at sample.time (list_of self.now)) sample.value) limit sample.time
            self.now result }
        ensures steps { Takes steps.old steps.new (3 * longest self.now.held.pieces) }
    {
        if always_writes(how) && self.chunks.len() < limit as usize {
            return self.written(sample, steps);
        }
        match self.chunks.at(sample.time, steps) {
            None => self.added(sample, limit, steps),
            Some(there) => self.plan_overwrite(there.value, sample, how, steps),
        }
    }

    // Plans a write at a time that has a sample with value `old`.
    fn plan_overwrite<L: Ledger>(
        &self,
        old: Units,
        sample: Sample,
        how: Merge,
        steps: &mut Steps<L>,
    ) -> Result<ChunkedSeriesPlan<C>, PutFault>
        requires there { at sample.time (list_of self.now) ≢ None }
        requires made { sample.made ≡ self.now.born }
        ensures planned { IfOk result (λ plan. IsForIn C.format plan self.now) }
        ensures answer { (limit : ℕ)
            → PutAnswers (merge how (Some old) sample.value) limit sample.time self.now result }
        ensures steps { Takes steps.old steps.new (longest self.now.held.pieces) }
    {
        let (time, made) = (sample.time, sample.made);
        match merged(how, old, sample.value)? {
            None => Ok(ChunkedSeriesPlan::nothing(self.alloc, self.options.encoding)),
            Some(value) => self.written(Sample { time, value, made }, steps),
        }
    }
}

// Whether a write sets its own value, whether or not its time has a sample.
pub(crate) fn always_writes(how: Merge) -> bool
    ensures { result ≡ true → (old : Option ℤ) (new : ℤ) → merge how old new ≡ To new }
{
    match how {
        Merge::Set | Merge::By(Policy::Last) => true,
        _ => false,
    }
}

// The value to write at a time that has the value `old`, or `None` to leave it.
pub(crate) fn merged(how: Merge, old: Units, new: Units) -> Result<Option<Units>, PutFault>
    ensures { IsMerged (merge how (Some old) new) result }
{
    match how {
        Merge::Set => Ok(Some(new)),
        Merge::By(policy) => merged_by(policy, old, new),
    }
}

fn merged_by(policy: Policy, old: Units, new: Units) -> Result<Option<Units>, PutFault>
    ensures { IsMerged (merge_by policy old new) result }
{
    match policy {
        Policy::Block => Err(PutFault::Duplicate),
        Policy::First => Ok(None),
        Policy::Last => Ok(Some(new)),
        Policy::Min => { if new < old { Ok(Some(new)) } else { Ok(None) } }
        Policy::Max => { if old < new { Ok(Some(new)) } else { Ok(None) } }
        Policy::Sum => total(old, new),
    }
}

// The sum of two values, or `OutOfRange`.
fn total(old: Units, new: Units) -> Result<Option<Units>, PutFault>
    ensures { IsMerged (within_bound (old +ℤ new)) result }
{
    match Units::new(old.get() + new.get()) {
        Some(value) => Ok(Some(value)),
        None => Err(PutFault::OutOfRange),
    }
}

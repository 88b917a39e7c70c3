// The public functions that plan changes, for series of either encoding.
ghost use Rattle.std.specs.Prelude.{◌≡◌, ◌≤◌, ◌<◌, ◌+◌, ◌*◌, length, IfOk, IfSome, Ok};
ghost use Rattle.ts_spec.specs.Sample.{MAX_TIME, IsAscending, between, last_of};
ghost use Rattle.ts_spec.specs.declared.series.Merge.{Merge as TheMerge};
ghost use Rattle.ts_sample.specs.Chunk.{IsPast, AreMade};
ghost use Rattle.ts_sample.specs.Steps.{Takes};
ghost use Rattle.ts_series.specs.History.{list_of, reach, IsKept, KeepsLimits};
ghost use Rattle.ts_series.specs.Plan.{IsFor, after, Cuts, Alters, AreWithin, options_with};
ghost use Rattle.ts_series.specs.Put.{met, PutAnswers};
ghost use Rattle.ts_series.specs.Mend.{IsUpdateAnswer, IsRowPast};

use crate::append::Append;
use crate::plan::{PutFault, SeriesPlan};
use crate::series::{Series, SeriesByEncoding};
use std::alloc::AllocError;
use std::sync::ledger::Ledger;
use ts_sample::{Sample, Steps, Units};
use ts_spec::{Ignore, Merge, Policy};

impl Series {
    /// Plans a write. If the series has a sample at `time`, merges the two by `how`. Otherwise adds a sample, which
    /// fails with `Full` if the series then has more than `limit` samples.
    pub fn put<L: Ledger>(
        &self,
        time: u64,
        value: Units,
        how: Merge,
        limit: u32,
        steps: &mut Steps<L>,
    ) -> Result<SeriesPlan, PutFault>
        requires { time ≤ MAX_TIME }
        ensures planned { IfOk result (λ plan. IsFor plan self.now) }
        ensures answer { PutAnswers (met how time value self.now) limit time self.now result }
        ensures steps { Takes steps.old steps.new (3 * reach self.now) }
        ensures easy { length (list_of self.now) + reach self.now < limit → IsPast (last_of (list_of self.now)) time
            → steps.new ≡ steps.old }
    {
        match &self.by_encoding {
            SeriesByEncoding::Plain(line) => {
                let plan = line.put(time, value, how, limit, steps)?;
                Ok(SeriesPlan::plain(plan))
            }
            SeriesByEncoding::Packed(line) => {
                let plan = line.put(time, value, how, limit, steps)?;
                Ok(SeriesPlan::packed(plan))
            }
        }
    }

    /// Plans a write after the last sample, if the last chunk can hold it and the series then has at most `limit`
    /// samples. The plan equals that of `put` but takes no allocation and no steps. `None` says nothing about whether
    /// the write is valid otherwise.
    pub fn plan_append(&self, time: u64, value: Units, limit: u32) -> Option<Append>
        requires { time ≤ MAX_TIME }
        ensures planned { IfSome result (λ plan. IsFor plan self.now) }
        ensures answer { (how : TheMerge)
            → IfSome result (λ plan. PutAnswers (met how time value self.now) limit time self.now (Ok plan)) }
    {
        match &self.by_encoding {
            SeriesByEncoding::Plain(line) => line.plan_append(time, value, limit),
            SeriesByEncoding::Packed(line) => line.plan_append(time, value, limit),
        }
    }

    /// Carries out the plan.
    pub fn commit_append(&mut self, plan: Append)
        requires { IsFor plan self.old }
        ensures done { self.new ≡ record (after plan self.old) { held = self.new.held } }
        ensures kept { IsKept self.new }
        ensures limits { KeepsLimits self.old self.new }
        ensures reach { reach self.new ≤ reach self.old }
    {
        match &mut self.by_encoding {
            SeriesByEncoding::Plain(line) => line.commit_append(plan),
            SeriesByEncoding::Packed(line) => line.commit_append(plan),
        }
    }

    /// Plans the deletion of the samples from `from` to `to`, in milliseconds, both inclusive. The interval is empty
    /// if `from` is above `to`. The retention edge does not move.
    pub fn cut<L: Ledger>(
        &self,
        from: u64,
        to: u64,
        steps: &mut Steps<L>,
    ) -> Result<SeriesPlan, AllocError>
        ensures planned { IfOk result (λ plan. IsFor plan self.now) }
        ensures cut { IfOk result (Cuts from to (length (between from to (list_of self.now)))) }
        ensures steps { Takes steps.old steps.new (3 * reach self.now) }
    {
        match &self.by_encoding {
            SeriesByEncoding::Plain(line) => {
                let plan = line.cut(from, to, steps)?;
                Ok(SeriesPlan::plain(plan))
            }
            SeriesByEncoding::Packed(line) => {
                let plan = line.cut(from, to, steps)?;
                Ok(SeriesPlan::packed(plan))
            }
        }
    }

    /// Plans new options; `None` leaves an option as it is. `retention` is in milliseconds, and 0 keeps samples
    /// forever. `chunk_size` is in bytes and applies to chunks created later. Drops samples before the old or the new
    /// retention edge.
    pub fn alter<L: Ledger>(
        &self,
        retention: Option<u64>,
        chunk_size: Option<u32>,
        policy: Option<Policy>,
        ignore: Option<Ignore>,
        steps: &mut Steps<L>,
    ) -> Result<SeriesPlan, AllocError>
        ensures planned { IfOk result (λ plan. IsFor plan self.now) }
        ensures options { IfOk result (Alters (options_with retention chunk_size policy ignore self.now.options)) }
        ensures steps { Takes steps.old steps.new (2 * reach self.now) }
    {
        match &self.by_encoding {
            SeriesByEncoding::Plain(line) => {
                let plan = line.alter(retention, chunk_size, policy, ignore, steps)?;
                Ok(SeriesPlan::plain(plan))
            }
            SeriesByEncoding::Packed(line) => {
                let plan = line.alter(retention, chunk_size, policy, ignore, steps)?;
                Ok(SeriesPlan::packed(plan))
            }
        }
    }

    /// Plans to replace the samples from `from` to `to`, in milliseconds, both inclusive, with `rows`, whose times
    /// are in the interval. Fails with `Full` if the series then has more than `limit` samples, even if memory runs
    /// out too.
    pub fn mend<L: Ledger>(
        &self,
        from: u64,
        to: u64,
        rows: &[Sample],
        limit: u32,
        steps: &mut Steps<L>,
    ) -> Result<SeriesPlan, PutFault>
        requires ascending { IsAscending rows.now }
        requires within { AreWithin from to rows.now }
        requires made { AreMade self.now.born rows.now }
        ensures planned { IfOk result (λ plan. IsFor plan self.now) }
        ensures answer { IsUpdateAnswer from to rows.now limit self.now result }
        ensures steps { Takes steps.old steps.new (3 * reach self.now) }
        ensures easy { IsRowPast from to rows.now limit self.now → steps.new ≡ steps.old }
    {
        match &self.by_encoding {
            SeriesByEncoding::Plain(line) => {
                let plan = line.mend(from, to, rows, limit, steps)?;
                Ok(SeriesPlan::plain(plan))
            }
            SeriesByEncoding::Packed(line) => {
                let plan = line.mend(from, to, rows, limit, steps)?;
                Ok(SeriesPlan::packed(plan))
            }
        }
    }
}

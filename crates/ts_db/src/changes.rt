// The public operations that change series.
ghost use Rattle.std.specs.Prelude.{◌≡◌, ◌≤◌, length, is_some, IfOk, IfErr, ◌*◌};
ghost use Rattle.ts_spec.specs.Sample.{MAX_TIME};
ghost use Rattle.ts_spec.specs.Keyed.{get};
ghost use Rattle.ts_spec.specs.Step.{create, alter, add, put_own, incr, delete, create_rule, delete_rule, drop_keys};
ghost use Rattle.ts_spec.specs.Response.{Count};
ghost use Rattle.ts_sample.specs.Steps.{Takes};
ghost use Rattle.ts_labels.specs.Spec.{spec_of, change_of};
ghost use Rattle.ts_db.specs.Faults.{IsRefusal};
ghost use Rattle.ts_db.specs.DbState.{DbState, Represents, AnswersDone, AnswersCount, NamesFullSeries, Drops, IsDone};
ghost use Rattle.ts_db.specs.DbState.{reach_at};
ghost use Rattle.ts_db.specs.Bounds.{write_steps, IsEasyAppend, IsIgnored, IsChangeIgnored, deletion_steps};

use crate::db::Db;
use crate::fault::DbFault;
use crate::hints::Hints;
use std::sync::ledger::Ledger;
use ts_bucket::Grid;
use ts_labels::{Change, Spec};
use ts_resp::Word;
use ts_sample::{Steps, Units};
use ts_spec::{Aggregator, Policy};

impl Db {
    /// Creates an empty series (TS.CREATE). Fails if the key exists.
    pub fn create(&mut self, key: Word, spec: Spec) -> Result<(), DbFault>
        ensures created { AnswersDone self.old (λ h. create h.limits h.state key (spec_of spec)) result self.new }
        ensures limits { self.new.limits ≡ self.old.limits }
        ensures own { IfErr result (NamesFullSeries self.old key) }
    {
        self.store.create(key, spec)
    }

    /// Changes the options and labels that are given (TS.ALTER). Deletes samples that a new retention expires.
    pub fn alter<L: Ledger>(
        &mut self,
        key: &Word,
        change: Change,
        steps: &mut Steps<L>,
    ) -> Result<(), DbFault>
        ensures altered { AnswersDone self.old (λ h. alter h.limits h.state key.now (change_of change)) result
            self.new }
        ensures limits { self.new.limits ≡ self.old.limits }
        ensures own { IfErr result (NamesFullSeries self.old key.now) }
        ensures steps { Takes steps.old steps.new (2 * reach_at self.old key.now) }
    {
        self.store.alter(key, change, steps)
    }

    /// Adds a sample (TS.ADD). Creates the series with `spec` if the key does not exist. If the series already has a
    /// sample at `time`, resolves the conflict by `on`, or by the series' duplicate policy if `on` is `None`.
    ///
    /// Returns the sample's time, or the last sample's time if the write was ignored (IGNORE). A write is ignored if
    /// it is close enough to the last sample, the duplicate policy is `Last` and the series is no destination of a
    /// rule.
    pub fn add<L: Ledger>(
        &mut self,
        key: Word,
        time: u64,
        value: Units,
        on: Option<Policy>,
        spec: Spec,
        steps: &mut Steps<L>,
    ) -> Result<u64, DbFault>
        requires time { time ≤ MAX_TIME }
        ensures added { AnswersCount self.old (λ h. add h.limits h.state key time value on (spec_of spec)) result
            self.new }
        ensures bounded { IfOk result (λ t. t ≤ MAX_TIME) }
        ensures limits { self.new.limits ≡ self.old.limits }
        ensures own { IfErr result (NamesFullSeries self.old key) }
        ensures steps { Takes steps.old steps.new (write_steps self.old key time) }
        ensures easy { IsEasyAppend self.old key time → steps.new ≡ steps.old }
        ensures spared { IsIgnored self.old key time value → steps.new ≡ steps.old }
    {
        self.store.add(key, time, value, on, spec, steps)
    }

    /// Adds `change` to the last value and stores the sum at `time` (TS.INCRBY, TS.DECRBY). Overwrites the last sample
    /// if it has that time. Creates the series with `spec` and the value `change` if the key does not exist. Returns
    /// the sample's time, or the last sample's time if the write was ignored (IGNORE).
    pub fn incr<L: Ledger>(
        &mut self,
        key: Word,
        change: Units,
        time: u64,
        spec: Spec,
        steps: &mut Steps<L>,
    ) -> Result<u64, DbFault>
        requires time { time ≤ MAX_TIME }
        ensures changed { AnswersCount self.old (λ h. incr h.limits h.state key change time (spec_of spec)) result
            self.new }
        ensures bounded { IfOk result (λ t. t ≤ MAX_TIME) }
        ensures limits { self.new.limits ≡ self.old.limits }
        ensures own { IfErr result (NamesFullSeries self.old key) }
        ensures steps { Takes steps.old steps.new (write_steps self.old key time) }
        ensures easy { IsEasyAppend self.old key time → steps.new ≡ steps.old }
        ensures spared { IsChangeIgnored self.old key time change → steps.new ≡ steps.old }
    {
        self.store.incr(key, change, time, spec, steps)
    }

    /// Adds a sample to an existing series. If the series already has a sample at `time`, its duplicate policy
    /// decides. Returns the sample's time, or the last sample's time if the write was ignored (IGNORE).
    pub fn put<L: Ledger>(
        &mut self,
        key: &Word,
        time: u64,
        value: Units,
        steps: &mut Steps<L>,
    ) -> Result<u64, DbFault>
        requires time { time ≤ MAX_TIME }
        ensures put { AnswersCount self.old (λ h. put_own h.limits h.state key.now time value) result self.new }
        ensures bounded { IfOk result (λ t. t ≤ MAX_TIME) }
        ensures limits { self.new.limits ≡ self.old.limits }
        ensures own { IfErr result (NamesFullSeries self.old key.now) }
        ensures steps { Takes steps.old steps.new (write_steps self.old key.now time) }
        ensures easy { IsEasyAppend self.old key.now time → steps.new ≡ steps.old }
        ensures spared { IsIgnored self.old key.now time value → steps.new ≡ steps.old }
    {
        let mut hints = Hints::none(self.store.alloc);
        self.put_with_hints(&mut hints, key, time, value, None, steps)
    }

    /// Deletes the samples from `from` to `to`, in milliseconds and inclusive (TS.DEL). Returns how many it deleted; 0
    /// if `from` is above `to`.
    pub fn delete_range<L: Ledger>(
        &mut self,
        key: &Word,
        from: u64,
        to: u64,
        steps: &mut Steps<L>,
    ) -> Result<u64, DbFault>
        requires time { from ≤ MAX_TIME }
        ensures deleted { AnswersCount self.old (λ h. delete h.limits h.state key.now from to) result self.new }
        ensures bounded { IfOk result (λ n. n ≤ MAX_TIME) }
        ensures limits { self.new.limits ≡ self.old.limits }
        ensures own { IfErr result (NamesFullSeries self.old key.now) }
        ensures steps { Takes steps.old steps.new (deletion_steps self.old key.now from to) }
    {
        self.store.delete_range(key, from, to, steps)
    }

    /// Creates a compaction rule from a source to a destination (TS.CREATERULE). When a bucket of the grid closes, its
    /// aggregate is written to the destination as one sample.
    pub fn create_rule(
        &mut self,
        source: &Word,
        dest: &Word,
        agg: Aggregator,
        grid: Grid,
    ) -> Result<(), DbFault>
        ensures ruled { AnswersDone self.old (λ h. create_rule h.limits h.state source.now dest.now agg grid) result
            self.new }
        ensures limits { self.new.limits ≡ self.old.limits }
    {
        self.store.create_rule(source, dest, agg, grid)
    }

    /// Deletes a compaction rule (TS.DELETERULE). The destination keeps its samples. Allocates nothing.
    pub fn delete_rule(&mut self, source: &Word, dest: &Word) -> Result<(), DbFault>
        ensures ended { AnswersDone self.old (λ h. delete_rule h.state source.now dest.now) result self.new }
        ensures limits { self.new.limits ≡ self.old.limits }
        ensures refused { IfErr result IsRefusal }
    {
        self.store.delete_rule(source, dest)
    }

    /// Deletes a key with its series and all rules from and to it (DEL). Returns whether the key existed. Allocates
    /// nothing.
    pub fn drop_key(&mut self, key: &Word) -> bool
        ensures there { result ≡ is_some (get key.now self.old.keys) }
        ensures dropped { (from : DbState) → Represents self.old from → Drops key.now result from self.new }
        ensures limits { self.new.limits ≡ self.old.limits }
    {
        self.store.drop_key(key)
    }
    /// Deletes keys in order, each with its series and all rules from and to it (DEL). Returns how many existed; a
    /// repeated key counts once. Takes memory for the ids of many keys, and is slower where there is none.
    pub fn drop_keys(&mut self, keys: &[Word]) -> u64
        ensures dropped { (from : DbState) → Represents self.old from
            → IsDone (Count result) from.limits (drop_keys from.state 0 keys.now) self.new }
        ensures bounded { result ≤ length keys.now }
        ensures limits { self.new.limits ≡ self.old.limits }
    {
        self.store.drop_keys(keys)
    }
}

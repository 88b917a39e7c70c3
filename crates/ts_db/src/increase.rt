// TS.INCRBY and TS.DECRBY: write the last value plus a change.
ghost use Rattle.std.specs.Prelude.{◌≡◌, ◌≤◌, IfOk, IfErr};
ghost use Rattle.ts_spec.specs.Sample.{MAX_TIME, last_of};
ghost use Rattle.ts_spec.specs.Rules.{within_bound};
ghost use Rattle.ts_spec.specs.Step.{is_before_last, changed_value};
ghost use Rattle.ts_spec.specs.StoredStep.{stored_incr};
ghost use Rattle.ts_sample.specs.Steps.{Takes};
ghost use Rattle.ts_labels.specs.Spec.{spec_of};
ghost use Rattle.ts_series.specs.History.{list_of};
ghost use Rattle.ts_db.specs.DbState.{NamesFullSeries};
ghost use Rattle.ts_db.specs.Store.{db_view_of, IsInOrder, IsDb};
ghost use Rattle.ts_db.specs.Answering.{StoredCount};
ghost use Rattle.ts_db.specs.Writes.{IsChanged};
ghost use Rattle.ts_db.specs.Bounds.{write_steps, IsEasyAppend, IsChangeIgnored};

use crate::fault::DbFault;
use crate::store::Store;
use std::sync::ledger::Ledger;
use ts_labels::Spec;
use ts_resp::Word;
use ts_sample::{Steps, Units};
use ts_series::Series;
use ts_spec::Merge;

impl Store {
    // Adds `change` to the last value and stores the sum at `time`. Creates the series if the key does not exist.
    // Returns the sample's time, or the last sample's time if the write was ignored (IGNORE).
    pub(crate) fn incr<L: Ledger>(
        &mut self,
        key: Word,
        change: Units,
        time: u64,
        spec: Spec,
        steps: &mut Steps<L>,
    ) -> Result<u64, DbFault>
        requires time { time ≤ MAX_TIME }
        requires db { IsDb self.old }
        ensures changed { StoredCount (db_view_of self.old)
            (stored_incr self.old.limits (db_view_of self.old).keys key change time (spec_of spec)) result
            (db_view_of self.new) }
        ensures bounded { IfOk result (λ t. t ≤ MAX_TIME) }
        ensures own { IfErr result (NamesFullSeries (db_view_of self.old) key) }
        ensures store { IsInOrder self.new }
        ensures steps { Takes steps.old steps.new (write_steps (db_view_of self.old) key time) }
        ensures easy { IsEasyAppend (db_view_of self.old) key time → steps.new ≡ steps.old }
        ensures spared { IsChangeIgnored (db_view_of self.old) key time change → steps.new ≡ steps.old }
    {
        let Some(id) = self.keys.get(&key).copied() else {
            return self.create_with_sample(key, spec, time, change, steps);
        };
        let node = self.nodes.node(id);
        if is_before(&node.series, time) {
            return Err(DbFault::BeforeLast);
        }
        if time < node.series.edge() {
            return Err(DbFault::TooOld);
        }
        let Some(value) = changed(&node.series, change) else {
            return Err(DbFault::OutOfRange);
        };
        self.write(id, Some(Merge::Set), time, value, steps)
    }
}

// Whether the time is before the last sample.
fn is_before(series: &Series, time: u64) -> bool
    ensures { result ≡ is_before_last time (last_of (list_of series.now)) }
{
    match series.last() {
        None => false,
        Some(last) => time < last.time,
    }
}

// The last value (0 if there is none) plus the change, if it is in range.
fn changed(series: &Series, change: Units) -> Option<Units>
    ensures { IsChanged (within_bound (changed_value change (last_of (list_of series.now)))) result }
{
    match series.last() {
        None => Some(change),
        Some(last) => Units::new(last.value.get() + change.get()),
    }
}

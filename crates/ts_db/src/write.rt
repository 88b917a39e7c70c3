// Writes of one sample, including the updates of destinations.
ghost use Rattle.std.specs.Prelude.{◌≡◌, ◌≤◌, Some, option_map, IfOk, IfErr};
ghost use Rattle.ts_spec.specs.declared.series.Merge.TheVariants.{By};
ghost use Rattle.ts_spec.specs.Sample.{MAX_TIME};
ghost use Rattle.ts_spec.specs.Key.{Key};
ghost use Rattle.ts_spec.specs.StoredStep.{stored_add, stored_write_merged};
ghost use Rattle.ts_sample.specs.Steps.{Takes};
ghost use Rattle.ts_labels.specs.Spec.{spec_of};
ghost use Rattle.ts_series.specs.Put.{met};
ghost use Rattle.ts_db.specs.declared.node.Node.{Node as TheNode};
ghost use Rattle.ts_db.specs.DbState.{NamesFullSeries};
ghost use Rattle.ts_db.specs.Store.{key_in, db_view_of, id_for_key, IsInOrder, IsDb, IsThere, Holds};
ghost use Rattle.ts_db.specs.Answering.{StoredCount};
ghost use Rattle.ts_db.specs.PutBy.{stored_merge};
ghost use Rattle.ts_db.specs.Bounds.{write_steps, IsEasyAppend, IsIgnored};
ghost use Rattle.ts_db.specs.Writes.{ignored_by};

use crate::fault::{DbFault, fault_at};
use crate::node::Node;
use crate::open_append::stays_open;
use crate::planning::SourceChange;
use crate::store::Store;
use std::sync::ledger::Ledger;
use ts_labels::Spec;
use ts_resp::Word;
use ts_sample::{Id, Steps, Units};
use ts_spec::{Merge, Policy};

impl Store {
    // Adds a sample. Creates the series if the key does not exist. Returns the sample's time, or the last sample's
    // time if the write was ignored (IGNORE).
    pub(crate) fn add<L: Ledger>(
        &mut self,
        key: Word,
        time: u64,
        value: Units,
        on: Option<Policy>,
        spec: Spec,
        steps: &mut Steps<L>,
    ) -> Result<u64, DbFault>
        requires time { time ≤ MAX_TIME }
        requires db { IsDb self.old }
        ensures added { StoredCount (db_view_of self.old)
            (stored_add self.old.limits (db_view_of self.old).keys key time value on (spec_of spec)) result
            (db_view_of self.new) }
        ensures bounded { IfOk result (λ t. t ≤ MAX_TIME) }
        ensures own { IfErr result (NamesFullSeries (db_view_of self.old) key) }
        ensures store { IsInOrder self.new }
        ensures steps { Takes steps.old steps.new (write_steps (db_view_of self.old) key time) }
        ensures easy { IsEasyAppend (db_view_of self.old) key time → steps.new ≡ steps.old }
        ensures spared { IsIgnored (db_view_of self.old) key time value → steps.new ≡ steps.old }
    {
        let Some(id) = self.keys.get(&key).copied() else {
            return self.create_with_sample(key, spec, time, value, steps);
        };
        self.write(id, merge_by(on), time, value, steps)
    }

    // Writes a sample to series `id`. If the series already has a sample at `time`, merges the two by `how`, or by the
    // series' duplicate policy if `how` is `None`. Returns the sample's time, or the last sample's time if the write
    // was ignored (IGNORE).
    pub(crate) fn write<L: Ledger>(
        &mut self,
        id: Id,
        how: Option<Merge>,
        time: u64,
        value: Units,
        steps: &mut Steps<L>,
    ) -> Result<u64, DbFault>
        requires time { time ≤ MAX_TIME }
        requires db { IsDb self.old }
        requires there { IsThere self.old id }
        ensures written { (key : Key) → id_for_key key self.old.keys.entries ≡ Some id
            → StoredCount (db_view_of self.old)
            (stored_merge self.old.limits (db_view_of self.old).keys key time value how)
            result (db_view_of self.new) }
        ensures bounded { IfOk result (λ t. t ≤ MAX_TIME) }
        ensures own { (key : Key) → id_for_key key self.old.keys.entries ≡ Some id
            → IfErr result (NamesFullSeries (db_view_of self.old) key) }
        ensures store { IsInOrder self.new }
        ensures steps { Takes steps.old steps.new (write_steps (db_view_of self.old) (key_in self.old.nodes id) time) }
        ensures easy { (key : Key) → id_for_key key self.old.keys.entries ≡ Some id
            → IsEasyAppend (db_view_of self.old) key time → steps.new ≡ steps.old }
        ensures spared { (key : Key) → id_for_key key self.old.keys.entries ≡ Some id
            → IsIgnored (db_view_of self.old) key time value → steps.new ≡ steps.old }
    {
        let node = self.nodes.node(id);
        if let Some(last) = ignored(node, time, value) {
            return Ok(last);
        }
        if let Some(plan) = node.series.plan_append(time, value, self.limits.samples) {
            let wrote = plan.sample();
            if stays_open(&node.rules, &node.series, &wrote) {
                self.append_open(id, plan, &wrote);
                return Ok(time);
            }
        }
        let how = how.unwrap_or(Merge::By(node.series.policy()));
        self.write_planned(id, how, time, value, steps)
    }

    // Writes a sample that is not ignored, and updates the destinations of the series' rules. Plans all changes before
    // it makes any. Returns the time.
    fn write_planned<L: Ledger>(
        &mut self,
        id: Id,
        how: Merge,
        time: u64,
        value: Units,
        steps: &mut Steps<L>,
    ) -> Result<u64, DbFault>
        requires time { time ≤ MAX_TIME }
        requires db { IsDb self.old }
        requires there { IsThere self.old id }
        ensures written { (key : Key) (n : TheNode) → Holds self.old key id n
            → StoredCount (db_view_of self.old)
            (stored_write_merged self.old.limits (db_view_of self.old).keys key time (met how time value n.series))
            result
            (db_view_of self.new) }
        ensures time { IfOk result (λ t. t ≡ time) }
        ensures own { (key : Key) → id_for_key key self.old.keys.entries ≡ Some id
            → IfErr result (NamesFullSeries (db_view_of self.old) key) }
        ensures store { IsInOrder self.new }
        ensures steps { Takes steps.old steps.new (write_steps (db_view_of self.old) (key_in self.old.nodes id) time) }
        ensures easy { (key : Key) → id_for_key key self.old.keys.entries ≡ Some id
            → IsEasyAppend (db_view_of self.old) key time → steps.new ≡ steps.old }
    {
        let node = self.nodes.node(id);
        let limit = self.limits.samples;
        let plan = match node.series.put(time, value, how, limit, steps) {
            Ok(plan) => plan,
            Err(fault) => {
                let Some(lost) = fault.sample() else {
                    return Err(fault_at(id, fault));
                };
                return Err(self.plan_fault(
                    &node.rules,
                    &node.series,
                    &SourceChange::Write(lost),
                    steps,
                ));
            }
        };
        let Some(wrote) = plan.wrote() else {
            drop(plan);
            return Ok(time);
        };
        let work = SourceChange::Write(wrote);
        let planned = match self.plan_rules(&node.rules, &node.series, &work, steps) {
            Ok(planned) => planned,
            Err(fault) => return Err(fault),
        };
        self.apply(id, plan, Some(planned.rules));
        self.update_destinations(planned.plans);
        Ok(time)
    }
}

// The merge for this duplicate policy, if one is given.
pub(crate) fn merge_by(on: Option<Policy>) -> Option<Merge>
    ensures { result ≡ option_map By on }
{
    match on {
        Some(policy) => Some(Merge::By(policy)),
        None => None,
    }
}

// The last sample's time if the series ignores this sample (IGNORE). A destination of a rule ignores nothing.
pub(crate) fn ignored(node: &Node, time: u64, value: Units) -> Option<u64>
    ensures { result ≡ ignored_by node.now time value }
{
    let Some(last) = node.series.ignored(time, value) else {
        return None;
    };
    if node.source.is_some() {
        None
    } else {
        Some(last)
    }
}

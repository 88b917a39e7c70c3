// Deletes samples and keys: TS.DEL updates the destinations of rules, and DEL ends the rules.
ghost use Rattle.std.specs.Prelude.{◌≡◌, ◌≤◌, [], length, Some, IfOk, IfErr, None, is_some, if◌then◌else◌, option_map};
ghost use Rattle.ts_spec.specs.Key.{Key};
ghost use Rattle.ts_spec.specs.StoredUpdates.{keys_deleted};
ghost use Rattle.ts_spec.specs.Response.{Count};
ghost use Rattle.ts_spec.specs.Sample.{MAX_TIME, between};
ghost use Rattle.ts_spec.specs.StoredStep.{stored_delete, stored_meets_expired, stored_within_destinations};
ghost use Rattle.ts_spec.specs.Keyed.{get, without_key};
ghost use Rattle.ts_spec.specs.StoredKeys.{keys_dropped};
ghost use Rattle.ts_sample.specs.Steps.{Takes};
ghost use Rattle.ts_series.specs.History.{list_of};
ghost use Rattle.ts_db.specs.declared.node.Node.{Node as TheNode};
ghost use Rattle.ts_db.specs.DbState.{NamesFullSeries};
ghost use Rattle.ts_db.specs.Store.{key_in, rules_by, db_view_of, id_for_key, IsInOrder, IsDb, IsThere, Holds};
ghost use Rattle.ts_db.specs.Store.{contents_of, HasNode, IsLiveSource};
ghost use Rattle.ts_db.specs.Answering.{StoredCount};
ghost use Rattle.ts_db.specs.Bounds.{deletion_steps};
ghost use Rattle.ts_db.specs.Linking.{keys_rule_ended, AreFreeOf, IsAlone, KeepsNames};

use crate::fault::DbFault;
use crate::planning::SourceChange;
use crate::store::Store;
use std::sync::ledger::Ledger;
use ts_resp::Word;
use ts_rules::Rule;
use ts_sample::{Id, Steps};

impl Store {
    // Deletes the samples of a key within `from..=to`. Returns how many it deleted; 0 if `from` is above `to`.
    pub(crate) fn delete_range<L: Ledger>(
        &mut self,
        key: &Word,
        from: u64,
        to: u64,
        steps: &mut Steps<L>,
    ) -> Result<u64, DbFault>
        requires time { from ≤ MAX_TIME }
        requires db { IsDb self.old }
        ensures deleted { StoredCount (db_view_of self.old)
            (stored_delete self.old.limits (db_view_of self.old).keys key.now from to) result (db_view_of self.new) }
        ensures bounded { IfOk result (λ n. n ≤ MAX_TIME) }
        ensures own { IfErr result (NamesFullSeries (db_view_of self.old) key.now) }
        ensures store { IsInOrder self.new }
        ensures steps { Takes steps.old steps.new (deletion_steps (db_view_of self.old) key.now from to) }
    {
        let Some(id) = self.keys.get(key).copied() else {
            return Err(DbFault::NoKey);
        };
        if to < from {
            return Ok(0);
        }
        let node = self.nodes.node(id);
        if meet_expired(&node.rules, from, node.series.edge()) {
            return Err(DbFault::DeleteBeyondRetention);
        }
        self.delete(id, from, to, steps)
    }

    // Deletes the samples of series `id` within `from..=to` and updates the destinations of its rules. Returns how
    // many it deleted.
    fn delete<L: Ledger>(
        &mut self,
        id: Id,
        from: u64,
        to: u64,
        steps: &mut Steps<L>,
    ) -> Result<u64, DbFault>
        requires db { IsDb self.old }
        requires there { IsThere self.old id }
        ensures deleted { (key : Key) (n : TheNode) → Holds self.old key id n → StoredCount (db_view_of self.old)
            (stored_within_destinations self.old.limits (db_view_of self.old).keys key
            (record {
              keys = keys_deleted key from to (db_view_of self.old).keys;
              response = Count (length (between from to (list_of n.series)));
            }))
            result (db_view_of self.new) }
        ensures bounded { IfOk result (λ n. n ≤ MAX_TIME) }
        ensures own { (key : Key) → id_for_key key self.old.keys.entries ≡ Some id
            → IfErr result (NamesFullSeries (db_view_of self.old) key) }
        ensures store { IsInOrder self.new }
        ensures steps { Takes steps.old steps.new
            (deletion_steps (db_view_of self.old) (key_in self.old.nodes id) from to) }
    {
        let node = self.nodes.node(id);
        let work = SourceChange::Delete(from, to);
        let plan = match node.series.cut(from, to, steps) {
            Ok(plan) => plan,
            Err(_) => return Err(self.plan_fault(&node.rules, &node.series, &work, steps)),
        };
        let removed = plan.removed();
        let planned = match self.plan_rules(&node.rules, &node.series, &work, steps) {
            Ok(planned) => planned,
            Err(fault) => return Err(fault),
        };
        self.apply(id, plan, Some(planned.rules));
        self.update_destinations(planned.plans);
        Ok(removed)
    }
}

// Whether the bucket of `from` starts before the retention edge, for any of these rules.
fn meet_expired(rules: &[Rule], from: u64, edge: u64) -> bool
    requires { from ≤ MAX_TIME }
    ensures { result ≡ stored_meets_expired from edge (rules_by (λ id. []) rules.now) }
{
    for rule in rules {
        if rule.grid.start_of(from) < edge {
            return true;
        }
    }
    false
}

impl Store {
    // Deletes a key with its series and all rules from and to it. Returns whether the key existed. Allocates nothing.
    pub(crate) fn drop_key(&mut self, key: &Word) -> bool
        requires { IsDb self.old }
        ensures there { result ≡ is_some (get key.now (db_view_of self.old).keys) }
        ensures keys { (db_view_of self.new).keys
            ≡ (if is_some (get key.now (db_view_of self.old).keys) then keys_dropped key.now (db_view_of self.old).keys
            else (db_view_of self.old).keys) }
        ensures limits { self.new.limits ≡ self.old.limits }
        ensures store { IsInOrder self.new }
    {
        let Some(id) = self.keys.get(key).copied() else {
            return false;
        };
        self.end_rules(id);
        self.remove_key(key);
        true
    }

    // Deletes the rules from a series and the rule to it.
    fn end_rules(&mut self, id: Id)
        requires db { IsDb self.old }
        requires there { IsThere self.old id }
        ensures store { IsInOrder self.new }
        ensures alone { (key : Key) (n : TheNode) → Holds self.old key id n → IsAlone self.old self.new key }
    {
        let node = self.nodes.node(id);
        let source = node.source;
        let rules = self.take_rules(id);
        self.end_source(source, id);
        self.free(rules);
    }

    // Deletes the rule from `source` to series `id`, if there is a source.
    fn end_source(&mut self, source: Option<Id>, id: Id)
        requires store { IsInOrder self.old }
        requires live { HasNode self.old.nodes id }
        requires source { IsLiveSource self.old.nodes source }
        ensures store { IsInOrder self.new }
        ensures ended { contents_of self.new
            ≡ record (contents_of self.old) {
              keys = keys_rule_ended (option_map (key_in self.old.nodes) source) (key_in self.old.nodes id)
                  (db_view_of self.old).keys;
            } }
        ensures names { KeepsNames self.old self.new }
    {
        match source {
            Some(source) => self.remove_rule(source, id),
            None => {}
        }
    }

    // Deletes a key and its series, which must have no rules from or to it.
    fn remove_key(&mut self, key: &Word)
        requires store { IsInOrder self.old }
        requires there { id_for_key key.now self.old.keys.entries ≡ None → ⊥ }
        requires free { AreFreeOf key.now (db_view_of self.old).keys }
        ensures keys { (db_view_of self.new).keys ≡ without_key key.now (db_view_of self.old).keys }
        ensures limits { self.new.limits ≡ self.old.limits }
        ensures store { IsInOrder self.new }
    {
        let Some(id) = self.keys.remove(key) else {
            unreachable!();
        };
        self.nodes.remove(id);
    }
}

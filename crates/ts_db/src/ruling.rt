// Creates and deletes rules.
ghost use Rattle.std.specs.Prelude.{◌≡◌, Some, IfErr, option_map, IfOk};
ghost use Rattle.slab.specs.Slab as slab;
ghost use Rattle.ts_spec.specs.StoredStep.{stored_create_rule, stored_delete_rule};
ghost use Rattle.ts_db.specs.Answering.{StoredDone, IsElsewhere};
ghost use Rattle.ts_db.specs.Faults.{IsRefusal};
ghost use Rattle.ts_db.specs.declared.node.Node.{Node as TheNode};
ghost use Rattle.ts_db.specs.Linking.{has_rule_to, IsRuleConflict, stored_without_rule_to, stored_ruleless};
ghost use Rattle.ts_db.specs.Linking.{stored_with_source, keys_unlinked};
ghost use Rattle.ts_db.specs.Linking.{IsStoredChange, CanMakeRule};
ghost use Rattle.ts_db.specs.Store.{db_view_of, IsInOrder, IsDb, HasNode, rules_by, key_in, contents_of, AreLive};
ghost use Rattle.ts_db.specs.Store.{IsLiveSource};
ghost use Rattle.ts_spec.specs.StoredKeys.{stored_with_rule};

use crate::fault::DbFault;
use crate::node::rule_conflict;
use crate::store::Store;
use std::alloc::AllocError;
use ts_bucket::Grid;
use ts_resp::Word;
use ts_rules::Rule;
use ts_sample::Id;
use ts_spec::Aggregator;

impl Store {
    // Creates a rule between two keys.
    pub(crate) fn create_rule(
        &mut self,
        source: &Word,
        dest: &Word,
        agg: Aggregator,
        grid: Grid,
    ) -> Result<(), DbFault>
        requires { IsDb self.old }
        ensures ruled { StoredDone (db_view_of self.old)
            (stored_create_rule self.old.limits (db_view_of self.old).keys source.now dest.now agg grid) result
            (db_view_of self.new) }
        ensures store { IsInOrder self.new }
    {
        if source == dest {
            return Err(DbFault::SameKey);
        }
        let Some(from) = self.keys.get(source).copied() else {
            return Err(DbFault::NoKey);
        };
        let Some(to) = self.keys.get(dest).copied() else {
            return Err(DbFault::NoKey);
        };
        if let Some(fault) = self.rule_conflict(from, to) {
            return Err(fault);
        }
        match self.add_rule(from, to, agg, grid) {
            Ok(()) => {}
            Err(fault) => return Err(DbFault::Memory(fault)),
        }
        self.set_source(to, Some(from));
        Ok(())
    }

    // Why a rule from `id` to `dest` is not allowed, or `None` if it is.
    fn rule_conflict(&self, id: Id, dest: Id) -> Option<DbFault>
        requires live { HasNode self.now.nodes id }
        requires dest { HasNode self.now.nodes dest }
        ensures rule_conflict { (n d : TheNode) → slab.get self.now.nodes id.0 ≡ Some n
            → slab.get self.now.nodes dest.0 ≡ Some d → IsRuleConflict self.now.limits n d result }
    {
        rule_conflict(&self.limits, self.nodes.node(id), self.nodes.node(dest))
    }

    // Deletes the rule between two keys. Allocates nothing.
    pub(crate) fn delete_rule(&mut self, source: &Word, dest: &Word) -> Result<(), DbFault>
        requires { IsDb self.old }
        ensures ended { StoredDone (db_view_of self.old)
            (stored_delete_rule (db_view_of self.old).keys source.now dest.now)
            result (db_view_of self.new) }
        ensures refused { IfErr result IsRefusal }
        ensures store { IsInOrder self.new }
    {
        let Some(from) = self.keys.get(source).copied() else {
            return Err(DbFault::NoKey);
        };
        let Some(to) = self.keys.get(dest).copied() else {
            return Err(DbFault::NoRule);
        };
        if !self.has_rule(from, to) {
            return Err(DbFault::NoRule);
        }
        self.remove_rule(from, to);
        self.set_source(to, None);
        Ok(())
    }

    // Whether there is a rule from `id` to `dest`.
    fn has_rule(&self, id: Id, dest: Id) -> bool
        requires { HasNode self.now.nodes id }
        ensures { (n : TheNode) → slab.get self.now.nodes id.0 ≡ Some n → result ≡ has_rule_to dest.0 n.rules.items }
    {
        self.nodes.node(id).has_rule(dest)
    }

    // Adds a rule to series `id`.
    pub(crate) fn add_rule(
        &mut self,
        id: Id,
        dest: Id,
        agg: Aggregator,
        grid: Grid,
    ) -> Result<(), AllocError>
        requires store { IsInOrder self.old }
        requires live { HasNode self.old.nodes id }
        requires dest { HasNode self.old.nodes dest }
        requires born { (n : TheNode) → slab.get self.old.nodes id.0 ≡ Some n → CanMakeRule self.old.limits n }
        ensures store { IsInOrder self.new }
        ensures added { IfOk result
            (λ _. IsStoredChange self.old id (stored_with_rule (key_in self.old.nodes dest) agg grid) self.new) }
        ensures unchanged { IfErr result (λ _. db_view_of self.new ≡ db_view_of self.old) }
        ensures elsewhere { IsElsewhere self.old self.new id }
    {
        grid.known();
        self.nodes.add_rule(id, dest, agg, grid)
    }

    // Deletes the rule from `id` to `dest`.
    pub(crate) fn remove_rule(&mut self, id: Id, dest: Id)
        requires store { IsInOrder self.old }
        requires live { HasNode self.old.nodes id }
        requires dest { HasNode self.old.nodes dest }
        ensures store { IsInOrder self.new }
        ensures removed { IsStoredChange self.old id (stored_without_rule_to (key_in self.old.nodes dest)) self.new }
        ensures elsewhere { IsElsewhere self.old self.new id }
    {
        self.nodes.remove_rule(id, dest);
    }

    // Moves the rules of a series out.
    pub(crate) fn take_rules(&mut self, id: Id) -> Vec<Rule>
        requires store { IsInOrder self.old }
        requires live { HasNode self.old.nodes id }
        ensures rules { (n : TheNode) → slab.get self.old.nodes id.0 ≡ Some n → result.items ≡ n.rules.items }
        ensures store { IsInOrder self.new }
        ensures taken { IsStoredChange self.old id stored_ruleless self.new }
        ensures elsewhere { IsElsewhere self.old self.new id }
    {
        self.nodes.take_rules(id, self.alloc)
    }

    // Sets or clears the rule source of a series.
    pub(crate) fn set_source(&mut self, id: Id, source: Option<Id>)
        requires store { IsInOrder self.old }
        requires live { HasNode self.old.nodes id }
        requires source { IsLiveSource self.old.nodes source }
        ensures store { IsInOrder self.new }
        ensures set { IsStoredChange self.old id (stored_with_source (option_map (key_in self.old.nodes) source))
            self.new }
        ensures elsewhere { IsElsewhere self.old self.new id }
    {
        self.nodes.set_source(id, source);
    }

    // Clears the rule source of each rule's destination.
    pub(crate) fn free(&mut self, rules: Vec<Rule>)
        requires store { IsInOrder self.old }
        requires live { AreLive self.old.nodes rules.items }
        ensures store { IsInOrder self.new }
        ensures freed { contents_of self.new
            ≡ record (contents_of self.old) {
              keys = keys_unlinked (rules_by (key_in self.old.nodes) rules.items) (db_view_of self.old).keys;
            } }
    {
        for rule in rules {
            self.set_source(rule.dest, None);
        }
    }
}

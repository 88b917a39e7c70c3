// Stores series by id and ids by key, and commits the plans of a change.
ghost use Rattle.std.specs.Prelude.{◌≡◌, ◌+◌, ◌++◌, [], ◌∷◌, ℕ, suc, nat_lt, nat_le, length, vec_len, is_some, None};
ghost use Rattle.std.specs.Prelude.{Some, List, IfOk};
ghost use Rattle.std.specs.Cmp.Lexicographic.{slice_cmp};
ghost use Rattle.std.specs.List.{All};
ghost use Rattle.std.specs.List.Sorted.{IsStrictlySortedBy};
ghost use Rattle.std.specs.Map.{keys_of};
ghost use Rattle.std.specs.Ordering.{nat_cmp};
ghost use Rattle.ts_spec.specs.Keyed.{get, count_keys};
ghost use Rattle.ts_index.specs.Numbers.{AreInOrder};
ghost use Rattle.ts_rules.specs.declared.rule.Rule.{Rule as TheRule};
ghost use Rattle.ts_db.specs.Indexed.{IsIndexed};
ghost use Rattle.ts_db.specs.Store.{db_view_of, id_for_key, IsInOrder};
ghost use Rattle.ts_db.specs.Answering.{IsReady, IsApplied, IsElsewhere};
ghost use Rattle.ts_db.specs.DestinationUpdates.{Rows, RemovedTimes};
ghost use Rattle.ts_db.specs.Planning.{AreDestinationsUpdatedBy, AreDistinct, AreDestinationPlans};
ghost use Rattle.ts_db.specs.Planning.{AreDestinationsUpdated, HasCapacityForRules, for_destination};

use crate::nodes::Nodes;
use std::alloc::{AllocError, Global};
use std::collections::BTreeMap;
use ts_index::Index;
use ts_labels::Labels;
use ts_resp::Word;
use ts_rules::{Rule, RulePlan};
use ts_sample::Id;
use ts_series::SeriesPlan;
use ts_spec::Limits;

// The planned change of one destination; `None` if it does not change.
#[derive(Drop)]
pub(crate) struct DestinationPlan {
    pub(crate) dest: Id,
    pub(crate) change: Option<SeriesPlan>,
}

// The rules of a source after the change, and the plans for their destinations.
#[derive(Drop)]
pub(crate) struct Planned {
    pub(crate) rules: Vec<Rule>,
    pub(crate) plans: Vec<DestinationPlan>,
}

impl Planned {
    // No plans yet, with capacity for `count` rules.
    pub(crate) fn with_reserved(alloc: Global, count: usize) -> Result<Planned, AllocError>
        ensures rules { IfOk result (λ planned. planned.rules.items ≡ []) }
        ensures plans { IfOk result (λ planned. planned.plans.items ≡ []) }
        ensures none { IfOk result (λ planned. vec_len planned.plans ≡ 0) }
        ensures room { IfOk result (HasCapacityForRules count) }
    {
        Ok(Planned {
            rules: Vec::with_capacity(alloc, count)?,
            plans: Vec::with_capacity(alloc, count)?,
        })
    }

    // Adds the plan for one more rule.
    pub(crate) fn push(&mut self, plan: RulePlan)
        requires room { HasCapacityForRules 1 self.old }
        ensures rules { self.new.rules.items ≡ self.old.rules.items ++ plan.rule ∷ [] }
        ensures plans { self.new.plans.items ≡ self.old.plans.items ++ for_destination plan ∷ [] }
        ensures one { vec_len self.new.plans ≡ vec_len self.old.plans + 1 }
        ensures room { (n : ℕ) → HasCapacityForRules (suc n) self.old → HasCapacityForRules n self.new }
    {
        let RulePlan { rule, dest } = plan;
        self.plans.push_reserved(DestinationPlan {
            dest: rule.dest,
            change: dest,
        });
        self.rules.push_reserved(rule);
    }
}

// Series by id, and ids by key.
#[derive(Drop)]
pub(crate) struct Store {
    pub(crate) alloc: Global,
    pub(crate) limits: Limits,
    pub(crate) nodes: Nodes,
    pub(crate) keys: BTreeMap<Word, Id>,
}

impl Store {
    // Commits a plan for series `id` and replaces its rules if given. Can't fail and allocates nothing.
    pub(crate) fn apply(&mut self, id: Id, plan: SeriesPlan, rules: Option<Vec<Rule>>)
        requires store { IsInOrder self.old }
        requires ready { IsReady self.old id plan None rules }
        ensures store { IsInOrder self.new }
        ensures applied { IsApplied self.old id plan None rules self.new }
        ensures elsewhere { IsElsewhere self.old self.new id }
    {
        self.nodes.apply(id, plan, rules);
    }

    // The label index. The contract also tells callers that the index and the keys are sorted.
    pub(crate) fn index(&self) -> &Index
        ensures indexed { IsIndexed self.now.nodes result.now }
        ensures order { AreInOrder result.now }
        ensures sorted { IsStrictlySortedBy (slice_cmp nat_cmp) (keys_of self.now.keys.entries) }
        ensures found { All (λ e. id_for_key e.0 self.now.keys.entries ≡ Some e.1) self.now.keys.entries }
    {
        let _keys = self.keys.iter();
        let index = self.nodes.index();
        index.known();
        index
    }

    // Whether the key exists.
    pub(crate) fn has(&self, key: &Word) -> bool
        requires { IsInOrder self.now }
        ensures { result ≡ is_some (get key.now (db_view_of self.now).keys) }
    {
        self.keys.contains_key(key)
    }

    // Whether a series may not have this many labels.
    pub(crate) fn are_too_many(&self, labels: &Labels) -> bool
        ensures { result ≡ nat_lt self.now.limits.labels (length labels.now) }
    {
        (self.limits.labels as usize) < labels.len()
    }

    // Whether the store holds as many keys as its limits allow.
    pub(crate) fn is_full(&self) -> bool
        requires { IsInOrder self.now }
        ensures { result ≡ nat_le self.now.limits.keys (count_keys (db_view_of self.now).keys) }
    {
        self.limits.keys as usize <= self.keys.len()
    }

    // Commits the plans for the destinations of rules. Can't fail and allocates nothing.
    pub(crate) fn update_destinations(&mut self, plans: Vec<DestinationPlan>)
        requires store { IsInOrder self.old }
        requires planned { AreDestinationPlans self.old plans.items }
        ensures store { IsInOrder self.new }
        ensures update_dest { (rows : Rows) (gone : RemovedTimes) (rs : List TheRule)
            → AreDestinationsUpdatedBy self.old.limits.samples self.old.nodes rows gone rs plans.items → AreDistinct rs
            → AreDestinationsUpdated self.old rows gone rs self.new }
    {
        for plan in plans {
            let DestinationPlan { dest, change } = plan;
            match change {
                Some(series) => self.apply(dest, series, None),
                None => {}
            }
        }
    }
}

// Lists all fields: adding one, such as a copy of the samples, does not compile.
fn fields(it: &Store) {
    let Store {
        alloc: _,
        limits: _,
        nodes: _,
        keys: _,
    } = it;
}

// Plans the effects of a change on all rules of a source before anything is changed.
ghost use Rattle.std.specs.Prelude.{◌≡◌, ◌≤◌, [], ◌∷◌, None, length, IfOk, IfErr};
ghost use Rattle.ts_sample.specs.Steps.{Takes};
ghost use Rattle.slab.specs.Slab as slab;
ghost use Rattle.ts_series.specs.History.{list_of};
ghost use Rattle.ts_rules.specs.Rules.{stored_rule_for, IsChanged};
ghost use Rattle.ts_rules.specs.Plans.{IsPlanned as IsPlannedSo};
ghost use Rattle.ts_spec.specs.Key.{Key};
ghost use Rattle.ts_db.specs.Planning.{changed_by, gone_by, rows_by_change, HasCountCapacity, AllHaveCountCapacity};
ghost use Rattle.ts_db.specs.Planning.{IsSharedOf, AreChanged};
ghost use Rattle.ts_db.specs.Planning.{for_destination, IsDestinationUpdatedBy, AreDestinationsUpdatedBy, first_full};
ghost use Rattle.ts_db.specs.Planning.{IsRulePlanFault, IsPlanFault};
ghost use Rattle.ts_db.specs.Planning.{share_of, share_at, shares_of, IsEasyOf, IsEasyAt};
ghost use Rattle.ts_db.specs.Planning.{AreEasyOf};
ghost use Rattle.ts_db.specs.Store.{IsInOrder, HasNode, AreLive};

use crate::fault::DbFault;
use crate::plan_fault::full_at;
use crate::store::{Planned, Store};
use std::sync::ledger::Ledger;
use ts_rules::{
    Rule, RuleFault, RulePlan, SharedBuckets, SourceDeletion, plan_delete_shared, plan_put_shared,
};
use ts_sample::{Sample, Steps};
use ts_series::Series;

// A change of a source's samples: one sample written, or all samples from one time to another deleted (both
// inclusive).
#[derive(Clone, Copy, PartialEq, Eq)]
pub(crate) enum SourceChange {
    Write(Sample),
    Delete(u64, u64),
}

impl Store {
    // Plans the effects of a change on all rules, in order of creation, and on their destinations. If a destination
    // would be full, reports the first one, even if memory also ran out.
    pub(crate) fn plan_rules<L: Ledger>(
        &self,
        rules: &[Rule],
        source: &Series,
        work: &SourceChange,
        steps: &mut Steps<L>,
    ) -> Result<Planned, DbFault>
        requires store { IsInOrder self.now }
        requires live { AreLive self.now.nodes rules.now }
        requires room { AllHaveCountCapacity work.now source.now rules.now }
        ensures rules { IfOk result
            (λ planned. AreChanged (changed_by work.now source.now) rules.now planned.rules.items) }
        ensures update_dest { IfOk result
            (λ planned. AreDestinationsUpdatedBy self.now.limits.samples self.now.nodes
            (rows_by_change work.now source.now)
            (gone_by work.now source.now) rules.now planned.plans.items) }
        ensures fit { IfOk result
            (λ planned. first_full self.now.limits.samples self.now.nodes (rows_by_change work.now source.now)
            (gone_by work.now source.now) rules.now ≡ None) }
        ensures refused { IfErr result
            (IsPlanFault
            (first_full self.now.limits.samples self.now.nodes (rows_by_change work.now source.now)
            (gone_by work.now source.now) rules.now)) }
        ensures steps { Takes steps.old steps.new (shares_of self.now.nodes work.now source.now rules.now) }
        ensures easy { AreEasyOf self.now.limits.samples self.now.nodes work.now source.now rules.now
            → steps.new ≡ steps.old }
    {
        let mut planned = match Planned::with_reserved(self.alloc, rules.len()) {
            Ok(planned) => planned,
            Err(_) => return Err(self.plan_fault(rules, source, work, steps)),
        };
        let mut shared = SharedBuckets::new();
        for rule in rules {
            match self.plan_next(rule, source, *work, &mut shared, steps) {
                Ok(plan) => planned.push(plan),
                Err(RuleFault::Full) => return Err(full_at(rule)),
                Err(RuleFault::Memory(_)) => {
                    let left = &rules[planned.plans.len() + 1..];
                    return Err(self.plan_fault(left, source, work, steps));
                }
            }
        }
        Ok(planned)
    }

    // Plans the effects of a change on one rule and its destination.
    pub(crate) fn plan_rule<L: Ledger>(
        &self,
        rule: &Rule,
        source: &Series,
        work: SourceChange,
        steps: &mut Steps<L>,
    ) -> Result<RulePlan, RuleFault>
        requires store { IsInOrder self.now }
        requires live { HasNode self.now.nodes rule.now.dest }
        requires room { HasCountCapacity work source.now rule.now }
        ensures changed { IfOk result (λ plan. IsChanged (changed_by work source.now) rule.now plan.rule) }
        ensures update_dest { IfOk result
            (λ plan. IsDestinationUpdatedBy self.now.limits.samples self.now.nodes (rows_by_change work source.now)
            (gone_by work source.now) rule.now (for_destination plan)) }
        ensures fits { IfOk result
            (λ _. first_full self.now.limits.samples self.now.nodes (rows_by_change work source.now)
            (gone_by work source.now) (rule.now ∷ []) ≡ None) }
        ensures refused { IfErr result
            (IsRulePlanFault rule.now
            (first_full self.now.limits.samples self.now.nodes (rows_by_change work source.now)
            (gone_by work source.now)
            (rule.now ∷ []))) }
        ensures steps { Takes steps.old steps.new
            (share_at work source.now rule.now (slab.get self.now.nodes rule.now.dest.0)) }
        ensures easy { IsEasyAt self.now.limits.samples work source.now rule.now
            (slab.get self.now.nodes rule.now.dest.0) → steps.new ≡ steps.old }
    {
        let mut shared = SharedBuckets::new();
        self.plan_next(rule, source, work, &mut shared, steps)
    }

    // Plans for one rule after another. `shared` caches the buckets that the rules have in common.
    fn plan_next<L: Ledger>(
        &self,
        rule: &Rule,
        source: &Series,
        work: SourceChange,
        shared: &mut SharedBuckets,
        steps: &mut Steps<L>,
    ) -> Result<RulePlan, RuleFault>
        requires store { IsInOrder self.now }
        requires live { HasNode self.now.nodes rule.now.dest }
        requires room { HasCountCapacity work source.now rule.now }
        requires shared { IsSharedOf work source.now shared.old }
        ensures changed { IfOk result (λ plan. IsChanged (changed_by work source.now) rule.now plan.rule) }
        ensures update_dest { IfOk result
            (λ plan. IsDestinationUpdatedBy self.now.limits.samples self.now.nodes (rows_by_change work source.now)
            (gone_by work source.now) rule.now (for_destination plan)) }
        ensures fits { IfOk result
            (λ _. first_full self.now.limits.samples self.now.nodes (rows_by_change work source.now)
            (gone_by work source.now) (rule.now ∷ []) ≡ None) }
        ensures refused { IfErr result
            (IsRulePlanFault rule.now
            (first_full self.now.limits.samples self.now.nodes (rows_by_change work source.now)
            (gone_by work source.now)
            (rule.now ∷ []))) }
        ensures shared { IsSharedOf work source.now shared.new }
        ensures steps { Takes steps.old steps.new
            (share_at work source.now rule.now (slab.get self.now.nodes rule.now.dest.0)) }
        ensures easy { IsEasyAt self.now.limits.samples work source.now rule.now
            (slab.get self.now.nodes rule.now.dest.0) → steps.new ≡ steps.old }
    {
        let dest = self.nodes.node(rule.dest);
        self.made_plan(work, rule, source, &dest.series, shared, steps)
    }

    // Plans the effects of a change on one rule and its destination.
    fn made_plan<L: Ledger>(
        &self,
        work: SourceChange,
        rule: &Rule,
        source: &Series,
        dest: &Series,
        shared: &mut SharedBuckets,
        steps: &mut Steps<L>,
    ) -> Result<RulePlan, RuleFault>
        requires room { HasCountCapacity work source.now rule.now }
        requires fits { length (list_of dest.now) ≤ self.now.limits.samples }
        requires shared { IsSharedOf work source.now shared.old }
        ensures planned { (k : Key) → IsPlannedSo self.now.limits.samples (changed_by work source.now)
            (gone_by work source.now (stored_rule_for k rule.now))
            (rows_by_change work source.now dest.now.born (stored_rule_for k rule.now)) rule.now dest.now result }
        ensures shared { IsSharedOf work source.now shared.new }
        ensures steps { Takes steps.old steps.new (share_of work source.now rule.now dest.now) }
        ensures easy { IsEasyOf self.now.limits.samples work source.now rule.now dest.now → steps.new ≡ steps.old }
    {
        match work {
            SourceChange::Write(wrote) => plan_put_shared(
                rule,
                source,
                &wrote,
                dest,
                self.limits.samples,
                &mut shared.first,
                steps,
            ),
            SourceChange::Delete(from, to) => plan_delete_shared(
                self.alloc,
                rule,
                &SourceDeletion { source, from, to },
                dest,
                self.limits.samples,
                shared,
                steps,
            ),
        }
    }
}

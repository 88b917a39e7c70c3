// The error for a change that could not be planned.
ghost use Rattle.std.specs.Prelude.{◌≡◌, false, nat_lt, length};
ghost use Rattle.ts_sample.specs.Steps.{Takes};
ghost use Rattle.slab.specs.Slab as slab;
ghost use Rattle.ts_db.specs.declared.fault.DbFault.TheVariants.{SamplesFull};
ghost use Rattle.ts_db.specs.Planning.{gone_by, rows_by_change, HasCountCapacity, AllHaveCountCapacity};
ghost use Rattle.ts_db.specs.Planning.{updated_dest_list, first_full, IsPlanFault};
ghost use Rattle.ts_db.specs.Planning.{share_at, shares_of, IsEasyAt, AreEasyOf};
ghost use Rattle.ts_db.specs.Store.{IsInOrder, HasNode, AreLive};

use crate::fault::DbFault;
use crate::planning::SourceChange;
use crate::store::Store;
use std::alloc::AllocError;
use std::sync::ledger::Ledger;
use ts_rules::{Rule, RuleFault};
use ts_sample::Steps;
use ts_series::Series;

impl Store {
    // The error for a change whose planning ran out of memory. Reports the first destination that would be full, or
    // else out of memory: a command that would fail anyway fails with its own error. Plans each rule again to find
    // out, and discards the plans.
    pub(crate) fn plan_fault<L: Ledger>(
        &self,
        rules: &[Rule],
        source: &Series,
        work: &SourceChange,
        steps: &mut Steps<L>,
    ) -> DbFault
        requires store { IsInOrder self.now }
        requires live { AreLive self.now.nodes rules.now }
        requires room { AllHaveCountCapacity work.now source.now rules.now }
        ensures refused { IsPlanFault
            (first_full self.now.limits.samples self.now.nodes (rows_by_change work.now source.now)
            (gone_by work.now source.now) rules.now) result }
        ensures steps { Takes steps.old steps.new (shares_of self.now.nodes work.now source.now rules.now) }
        ensures easy { AreEasyOf self.now.limits.samples self.now.nodes work.now source.now rules.now
            → steps.new ≡ steps.old }
    {
        for rule in rules {
            if self.overfills(rule, source, work, steps) {
                return full_at(rule);
            }
        }
        DbFault::Memory(AllocError)
    }

    // Whether the rule's destination would be full after the change.
    fn overfills<L: Ledger>(
        &self,
        rule: &Rule,
        source: &Series,
        work: &SourceChange,
        steps: &mut Steps<L>,
    ) -> bool
        requires store { IsInOrder self.now }
        requires live { HasNode self.now.nodes rule.now.dest }
        requires room { HasCountCapacity work.now source.now rule.now }
        ensures full { result ≡ nat_lt self.now.limits.samples
            (length (updated_dest_list self.now.nodes (rows_by_change work.now source.now) (gone_by work.now source.now)
            rule.now)) }
        ensures steps { Takes steps.old steps.new
            (share_at work.now source.now rule.now (slab.get self.now.nodes rule.now.dest.0)) }
        ensures easy { IsEasyAt self.now.limits.samples work.now source.now rule.now
            (slab.get self.now.nodes rule.now.dest.0) → steps.new ≡ steps.old }
    {
        match self.plan_rule(rule, source, *work, steps) {
            Ok(_) => false,
            Err(RuleFault::Full) => true,
            Err(RuleFault::Memory(_)) => false,
        }
    }
}

// The error for a full destination.
pub(crate) fn full_at(rule: &Rule) -> DbFault
    ensures { result ≡ SamplesFull rule.now.dest false }
{
    DbFault::SamplesFull {
        id: rule.dest,
        written: false,
    }
}

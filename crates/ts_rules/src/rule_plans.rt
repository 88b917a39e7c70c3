// The public functions that plan a change of a source for a rule.
ghost use Rattle.std.specs.Prelude.{◌≡◌, ◌≤◌, ◌+◌, None, length};
ghost use Rattle.ts_spec.specs.Sample.{MAX_TIME, put};
ghost use Rattle.ts_sample.specs.Steps.{Takes};
ghost use Rattle.ts_series.specs.History.{list_of};
ghost use Rattle.ts_rules.specs.Rules.{TakesAppended};
ghost use Rattle.ts_rules.specs.PlansOfWrites.{IsPlanOfWrite};
ghost use Rattle.ts_rules.specs.PlansOfDeletions.{IsPlanOfDeletion};
ghost use Rattle.ts_rules.specs.SourceDeletions.{gone_by, left_by};
ghost use Rattle.ts_rules.specs.LostBuckets.{HasStartCapacity};
ghost use Rattle.ts_rules.specs.DeletionBuffers.{HasCapacity, count_touched};
ghost use Rattle.ts_rules.specs.SharedBucket.{IsShared};
ghost use Rattle.ts_rules.specs.SharedBuckets.{AreShared};
ghost use Rattle.ts_rules.specs.Shares.{write_share, deletion_share, IsEasyWrite};

use crate::deletion::Deletion;
use crate::deletion_buffers::DeletionBuffers;
use crate::ends_left::ends_left;
use crate::fullness::is_full;
use crate::plan::{RuleFault, RulePlan, with_row};
use crate::rule::Rule;
use crate::shared_bucket::{SharedBucket, SharedBuckets};
use crate::source_deletion::SourceDeletion;
use crate::write::written;
use std::alloc::Global;
use std::sync::ledger::Ledger;
use ts_sample::{MAX_TIME, Sample, Steps};
use ts_series::Series;

/// Plans the effect of a write to the rule's source on the rule and its destination. `source` is still as it was
/// before the write. The destination has at most `limit` samples, before and after. Fails with `Full` if it would
/// have more, even if memory runs out too.
pub fn plan_put<L: Ledger>(
    rule: &Rule,
    source: &Series,
    wrote: &Sample,
    dest: &Series,
    limit: u32,
    steps: &mut Steps<L>,
) -> Result<RulePlan, RuleFault>
    requires append { TakesAppended rule.now source.now wrote.now }
    requires fits { length (list_of dest.now) ≤ limit }
    ensures planned { IsPlanOfWrite limit rule.now source.now wrote.now dest.now result }
    ensures steps { Takes steps.old steps.new (write_share rule.now source.now wrote.now dest.now) }
    ensures easy { IsEasyWrite limit rule.now source.now wrote.now dest.now → steps.new ≡ steps.old }
{
    let mut shared = SharedBucket::new();
    plan_put_shared(rule, source, wrote, dest, limit, &mut shared, steps)
}

/// Like `plan_put`, for the rules of one source in turn. `shared` carries a bucket that one rule counted to the next.
pub fn plan_put_shared<L: Ledger>(
    rule: &Rule,
    source: &Series,
    wrote: &Sample,
    dest: &Series,
    limit: u32,
    shared: &mut SharedBucket,
    steps: &mut Steps<L>,
) -> Result<RulePlan, RuleFault>
    requires append { TakesAppended rule.now source.now wrote.now }
    requires fits { length (list_of dest.now) ≤ limit }
    requires shared { IsShared (put wrote.now (list_of source.now)) shared.old }
    ensures planned { IsPlanOfWrite limit rule.now source.now wrote.now dest.now result }
    ensures shared { IsShared (put wrote.now (list_of source.now)) shared.new }
    ensures steps { Takes steps.old steps.new (write_share rule.now source.now wrote.now dest.now) }
    ensures easy { IsEasyWrite limit rule.now source.now wrote.now dest.now → steps.new ≡ steps.old }
{
    let (rule, row) = written(rule, source, wrote, dest.born(), shared, steps);
    let dest = with_row(dest, row, limit, steps)?;
    Ok(RulePlan { rule, dest })
}

/// Plans the effect of deleting the samples from `from` to `to`, both inclusive, on the rule and its destination.
/// `source` is still as it was before the deletion. The destination has at most `limit` samples, before and after.
/// Fails with `Full` if it would have more, even if memory runs out too.
pub fn plan_delete<L: Ledger>(
    alloc: Global,
    rule: &Rule,
    source: &Series,
    from: u64,
    to: u64,
    dest: &Series,
    limit: u32,
    steps: &mut Steps<L>,
) -> Result<RulePlan, RuleFault>
    requires fits { length (list_of dest.now) ≤ limit }
    ensures planned { IsPlanOfDeletion limit rule.now source.now from to dest.now result }
    ensures steps { Takes steps.old steps.new (deletion_share rule.now source.now from to dest.now) }
{
    let deletion = SourceDeletion { source, from, to };
    let mut shared = SharedBuckets::new();
    plan_delete_shared(alloc, rule, &deletion, dest, limit, &mut shared, steps)
}

/// Like `plan_delete`, for the rules of one source in turn. `shared` carries the end buckets that one rule counted to
/// the next.
pub fn plan_delete_shared<L: Ledger>(
    alloc: Global,
    rule: &Rule,
    deletion: &SourceDeletion<'_>,
    dest: &Series,
    limit: u32,
    shared: &mut SharedBuckets,
    steps: &mut Steps<L>,
) -> Result<RulePlan, RuleFault>
    requires fits { length (list_of dest.now) ≤ limit }
    requires shared { AreShared (left_by deletion.now) shared.old }
    ensures planned { IsPlanOfDeletion limit rule.now deletion.now.source.now deletion.now.from deletion.now.to
        dest.now result }
    ensures shared { AreShared (left_by deletion.now) shared.new }
    ensures steps { Takes steps.old steps.new
        (deletion_share rule.now deletion.now.source.now deletion.now.from deletion.now.to dest.now) }
{
    deletion.source.known();
    dest.known();
    let to = deletion.to.min(MAX_TIME);
    if to < deletion.from {
        return Ok(unchanged(rule));
    }
    let within = SourceDeletion { to, ..*deletion };
    match DeletionBuffers::new(alloc, rule, &within, dest) {
        Ok(room) => plan_with_buffers(room, rule, &within, dest, limit, shared, steps),
        Err(fault) => {
            if is_full(rule, &within, dest, limit, shared, steps) {
                return Err(RuleFault::Full);
            }
            Err(RuleFault::Memory(fault))
        }
    }
}

// The same with buffers that are already allocated.
fn plan_with_buffers<L: Ledger>(
    room: DeletionBuffers,
    rule: &Rule,
    deletion: &SourceDeletion<'_>,
    dest: &Series,
    limit: u32,
    shared: &mut SharedBuckets,
    steps: &mut Steps<L>,
) -> Result<RulePlan, RuleFault>
    requires order { deletion.now.from ≤ deletion.now.to }
    requires time { deletion.now.to ≤ MAX_TIME }
    requires fits { length (list_of dest.now) ≤ limit }
    requires lost { HasStartCapacity rule.now.grid (length (gone_by deletion.now)) room.lost }
    requires shown { HasCapacity (count_touched rule.now deletion.now.from deletion.now.to dest.now) room.shown }
    requires rows { HasCapacity (count_touched rule.now deletion.now.from deletion.now.to dest.now + 2) room.rows }
    requires shared { AreShared (left_by deletion.now) shared.old }
    ensures planned { IsPlanOfDeletion limit rule.now deletion.now.source.now deletion.now.from deletion.now.to
        dest.now result }
    ensures shared { AreShared (left_by deletion.now) shared.new }
    ensures steps { Takes steps.old steps.new
        (deletion_share rule.now deletion.now.source.now deletion.now.from deletion.now.to dest.now) }
{
    dest.known();
    let SourceDeletion { source, from, to } = *deletion;
    let lost = room.lost.starts(source, from, to, steps);
    if lost.is_empty() {
        return Ok(unchanged(rule));
    }
    let (first, last) = ends_left(rule, deletion, shared, steps);
    let deletion = Deletion {
        rule,
        source,
        from,
        to,
        lost: &lost,
        first,
        last,
    };
    let dest = deletion.dest_left(room.shown, room.rows, dest, limit, steps)?;
    let rule = deletion.rule_left();
    Ok(RulePlan { rule, dest })
}

// The plan that changes neither the rule nor its destination.
fn unchanged(rule: &Rule) -> RulePlan
    ensures rule { result.rule ≡ rule.now }
    ensures dest { result.dest ≡ None }
{
    RulePlan {
        rule: *rule,
        dest: None,
    }
}

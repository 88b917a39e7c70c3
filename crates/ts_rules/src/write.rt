// The effect of a write to a source on one of its rules.
ghost use Rattle.std.specs.Prelude.{◌≡◌, ◌^◌, ◌<◌, true, [], if◌then◌else◌};
ghost use Rattle.ts_spec.specs.Sample.{put};
ghost use Rattle.ts_spec.specs.Bucket.{start as start_of};
ghost use Rattle.ts_spec.specs.Aggregate.{nothing, push};
ghost use Rattle.ts_spec.specs.Rules.{is_append};
ghost use Rattle.ts_spec.specs.StoredUpdates.{recounted_bucket};
ghost use Rattle.ts_sample.specs.Steps.{Takes};
ghost use Rattle.ts_series.specs.History.{list_of};
ghost use Rattle.ts_rules.specs.Rules.{stored_rule_for, one_of, IsChanged, TakesAppended};
ghost use Rattle.ts_rules.specs.Shares.{source_share, IsNotClosed};
ghost use Rattle.ts_rules.specs.SharedBucket.{IsShared};
ghost use Rattle.ts_rules.specs.Writes.{rule_after, row_for_dest};

use crate::count::count_written;
use crate::open_bucket::{latest, opened, row};
use crate::rule::Rule;
use crate::shared_bucket::SharedBucket;
use std::sync::ledger::Ledger;
use ts_agg::Running;
use ts_sample::{Sample, Steps};
use ts_series::Series;

// The rule after a write, and the row that its destination gets: that of the sample's own bucket if it is closed, or
// that of the open bucket if the sample closes it. `born` is the destination's rule count.
pub(crate) fn written<L: Ledger>(
    rule: &Rule,
    source: &Series,
    wrote: &Sample,
    born: u32,
    shared: &mut SharedBucket,
    steps: &mut Steps<L>,
) -> (Rule, Option<Sample>)
    requires append { TakesAppended rule.now source.now wrote.now }
    requires shared { IsShared (put wrote.now (list_of source.now)) shared.old }
    ensures rule { IsChanged (rule_after source.now wrote.now) rule.now result.0 }
    ensures row { one_of result.1 ≡ row_for_dest source.now wrote.now born rule.now }
    ensures shared { IsShared (put wrote.now (list_of source.now)) shared.new }
    ensures steps { Takes steps.old steps.new (source_share rule.now source.now wrote.now.time) }
    ensures easy { is_append wrote.now.time source.now.high ≡ true → IsNotClosed rule.now wrote.now.time
        → steps.new ≡ steps.old }
{
    rule.grid.known();
    let start = rule.grid.start_of(wrote.time);
    let Some(open) = rule.current else {
        return (opened(rule, Some(start), of_one(wrote)), None);
    };
    if start < open {
        let running = count_written(rule, source, wrote, shared, steps);
        return (*rule, row(rule.agg, born, start, &running));
    }
    if open < start {
        return (opened(rule, Some(start), of_one(wrote)), latest(rule, born));
    }
    let running = open_bucket_after(rule, source, wrote, shared, steps);
    (opened(rule, Some(open), running), None)
}

// The open bucket after a write to it. An appended sample is added; any other write recounts the bucket.
fn open_bucket_after<L: Ledger>(
    rule: &Rule,
    source: &Series,
    wrote: &Sample,
    shared: &mut SharedBucket,
    steps: &mut Steps<L>,
) -> Running
    requires shared { IsShared (put wrote.now (list_of source.now)) shared.old }
    requires room { is_append wrote.now.time source.now.high ≡ true → rule.now.running.count < 10 ^ 14 }
    ensures running { result ≡ (if is_append wrote.now.time source.now.high then push rule.now.running wrote.now
        else recounted_bucket (stored_rule_for [] rule.now) (start_of rule.now.grid wrote.now.time)
        (put wrote.now (list_of source.now))) }
    ensures shared { IsShared (put wrote.now (list_of source.now)) shared.new }
    ensures steps { Takes steps.old steps.new (source_share rule.now source.now wrote.now.time) }
    ensures easy { is_append wrote.now.time source.now.high ≡ true → steps.new ≡ steps.old }
{
    if is_past(wrote.time, source.high()) {
        pushed(rule.running, wrote)
    } else {
        count_written(rule, source, wrote, shared, steps)
    }
}

// Whether a time is after the highest one so far.
fn is_past(time: u64, high: Option<u64>) -> bool
    ensures { result ≡ is_append time high }
{
    match high {
        None => true,
        Some(high) => high < time,
    }
}

// A bucket with only this sample.
fn of_one(sample: &Sample) -> Running
    ensures { result ≡ push nothing sample.now }
{
    pushed(Running::new(), sample)
}

// A bucket with one more sample.
fn pushed(mut running: Running, sample: &Sample) -> Running
    requires { running.count < 10 ^ 14 }
    ensures { result ≡ push running sample.now }
{
    running.push(sample);
    running
}

// Counts what a deletion leaves in its end buckets.
ghost use Rattle.std.specs.Prelude.{◌≡◌, ◌≢◌, ℕ, ◌≤◌, ◌-◌, ◌^◌, List, length, ◌+◌, ◌*◌, [], nat_le, filter};
ghost use Rattle.ts_spec.specs.Sample.{Point, MAX_TIME, between};
ghost use Rattle.ts_spec.specs.Aggregate.{nothing, summary};
ghost use Rattle.ts_spec.specs.Bucket.{members, start as start_of};
ghost use Rattle.ts_spec.specs.StoredUpdates.{recounted_bucket};
ghost use Rattle.ts_sample.specs.Visit.{visited};
ghost use Rattle.ts_sample.specs.Steps.{Takes};
ghost use Rattle.ts_series.specs.History.{list_of, reach};
ghost use Rattle.ts_rules.specs.Rules.{stored_rule_for};
ghost use Rattle.ts_rules.specs.CountedLeft.{with_left};
ghost use Rattle.ts_rules.specs.SourceDeletions.{gone_by, left_by};
ghost use Rattle.ts_rules.specs.Shares.{in_buckets};
ghost use Rattle.ts_rules.specs.Spans.{from_until};
ghost use Rattle.ts_rules.specs.SharedBucket.{IsShared};
ghost use Rattle.ts_rules.specs.SharedBuckets.{AreShared};

use crate::rule::Rule;
use crate::shared_bucket::{SharedBucket, SharedBuckets};
use crate::source_deletion::SourceDeletion;
use std::marker::Model;
use std::sync::ledger::Ledger;
use ts_agg::{Counted, Running};
use ts_sample::{Sample, Steps, Visit};
use ts_series::Series;

// A visitor that counts samples for a rule, and finds the smallest rule count at which any of them was written.
#[derive(Drop)]
pub(crate) struct CountedLeft {
    counted: Counted,
    // That rule count. Without samples it is the greatest number there is.
    least: u32,
}

impl Model for CountedLeft {
    ghost use Rattle.ts_rules.specs.CountedLeft.{CountingLeft};

    ghost Value = { CountingLeft };

    ghost view = { λ c. record { counting = c.counted; least = c.least } };
}

impl CountedLeft {
    // No samples yet.
    fn new(made: u32) -> CountedLeft
        ensures empty { result.counting ≡ record { made = made; running = nothing } }
        ensures told { (ps : List Point) → (visited with_left result ps).counting.running
            ≡ summary (filter (λ p. nat_le made p.made) ps) }
        ensures least { (ps : List Point) (number : ℕ) → number ≤ (visited with_left result ps).least
            → filter (λ p. nat_le number p.made) ps ≡ ps }
    {
        CountedLeft {
            counted: Counted::new(made),
            least: u32::MAX,
        }
    }

    // The smallest rule count at which any of the samples so far was written.
    fn least(&self) -> u32
        ensures { result ≡ self.now.least }
    {
        self.least
    }

    // The count so far.
    fn running(&self) -> Running
        ensures { result ≡ self.now.counting.running }
    {
        self.counted.running()
    }
}

impl Visit for CountedLeft {
    ghost use Rattle.ts_rules.specs.CountedLeft.{lowered_left};

    ghost step = { with_left };

    ghost room = { λ c. 10 ^ 14 - c.counting.running.count };

    fn sample(&mut self, sample: &Sample) {
        self.least = self.least.min(sample.made);
        self.counted.sample(sample);
    }

    ghost lowers = { lowered_left };
}

// What remains in the bucket of the first deleted time and in that of the last one.
pub(crate) fn ends_left<L: Ledger>(
    rule: &Rule,
    deletion: &SourceDeletion<'_>,
    shared: &mut SharedBuckets,
    steps: &mut Steps<L>,
) -> (Running, Running)
    requires order { deletion.now.from ≤ deletion.now.to }
    requires time { deletion.now.to ≤ MAX_TIME }
    requires shared { AreShared (left_by deletion.now) shared.old }
    ensures first { result.0 ≡ recounted_bucket (stored_rule_for [] rule.now)
        (start_of rule.now.grid deletion.now.from) (left_by deletion.now) }
    ensures last { result.1 ≡ recounted_bucket (stored_rule_for [] rule.now)
        (start_of rule.now.grid deletion.now.to) (left_by deletion.now) }
    ensures shared { AreShared (left_by deletion.now) shared.new }
    ensures counted { steps.old ≤ steps.new }
    ensures bounded { steps.new + length (gone_by deletion.now)
        ≤ steps.old + 4 * reach deletion.now.source.now
        + length (in_buckets rule.now.grid deletion.now.from deletion.now.to (list_of deletion.now.source.now)) }
{
    rule.grid.known();
    let first = bucket_left(rule, deletion, deletion.from, &mut shared.first, steps);
    if rule.grid.start_of(deletion.from) == rule.grid.start_of(deletion.to) {
        return (first, first);
    }
    let last = bucket_left(rule, deletion, deletion.to, &mut shared.last, steps);
    (first, last)
}

// What remains in the bucket of a deleted time. Takes the count of an earlier rule of the same deletion if it applies,
// and otherwise scans the bucket before and after the deleted interval.
fn bucket_left<L: Ledger>(
    rule: &Rule,
    deletion: &SourceDeletion<'_>,
    time: u64,
    shared: &mut SharedBucket,
    steps: &mut Steps<L>,
) -> Running
    requires from { deletion.now.from ≤ time }
    requires to { time ≤ deletion.now.to }
    requires time { deletion.now.to ≤ MAX_TIME }
    requires shared { IsShared (left_by deletion.now) shared.old }
    ensures running { result ≡ recounted_bucket (stored_rule_for [] rule.now) (start_of rule.now.grid time)
        (left_by deletion.now) }
    ensures shared { IsShared (left_by deletion.now) shared.new }
    ensures steps { Takes steps.old steps.new
        (length (members rule.now.grid (start_of rule.now.grid time) (left_by deletion.now))
        + 4 * reach deletion.now.source.now) }
    ensures one_side { start_of rule.now.grid deletion.now.from ≢ start_of rule.now.grid deletion.now.to
        → steps.new ≤ steps.old
        + length (members rule.now.grid (start_of rule.now.grid time) (left_by deletion.now))
        + 2 * reach deletion.now.source.now }
{
    deletion.source.known();
    rule.grid.known();
    let first = rule.grid.start_of(time);
    let last = rule.grid.last_of(time);
    if let Some(running) = shared.find(first, last, rule.made) {
        return running;
    }
    let mut counted = CountedLeft::new(rule.made);
    scan_until(deletion.source, first, deletion.from, &mut counted, steps);
    scan_until(
        deletion.source,
        deletion.to + 1,
        last + 1,
        &mut counted,
        steps,
    );
    let running = counted.running();
    shared.keep(first, last, running, counted.least(), rule.made);
    running
}

// Passes the samples from `from` to just before `end` to `visit`.
fn scan_until<V: Visit, L: Ledger>(
    source: &Series,
    from: u64,
    end: u64,
    visit: &mut V,
    steps: &mut Steps<L>,
)
    requires { length (from_until from end (list_of source.now)) ≤ V.room visit.old }
    ensures visited { visit.new ≡ visited V.step visit.old (from_until from end (list_of source.now)) }
    ensures steps { Takes steps.old steps.new
        (length (from_until from end (list_of source.now)) + 2 * reach source.now) }
    ensures none { end ≤ from → steps.new ≡ steps.old }
{
    if from < end {
        source.scan(from, end - 1, visit, steps);
    }
}

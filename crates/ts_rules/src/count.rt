// Counts a bucket as if a written sample were already in the source.
ghost use Rattle.std.specs.Prelude.{◌≡◌, ℕ, ◌≤◌, ◌-◌, ◌^◌, List, nat_le, filter, length, Some, []};
ghost use Rattle.ts_spec.specs.Sample.{Point, IsAscending, put};
ghost use Rattle.ts_spec.specs.Aggregate.{nothing, summary};
ghost use Rattle.ts_spec.specs.Bucket.{start as start_of};
ghost use Rattle.ts_spec.specs.StoredUpdates.{recounted_bucket};
ghost use Rattle.ts_sample.specs.Visit.{visited};
ghost use Rattle.ts_sample.specs.Steps.{Takes};
ghost use Rattle.ts_series.specs.History.{list_of};
ghost use Rattle.ts_rules.specs.Rules.{one_of, stored_rule_for};
ghost use Rattle.ts_rules.specs.CountedWith.{with_next, whole};
ghost use Rattle.ts_rules.specs.Shares.{source_share};
ghost use Rattle.ts_rules.specs.SharedBucket.{IsShared};

use crate::rule::Rule;
use crate::shared_bucket::SharedBucket;
use std::marker::Model;
use std::sync::ledger::Ledger;
use ts_agg::{Counted, Running};
use ts_sample::{Sample, Steps, Visit};
use ts_series::Series;

// A visitor that counts samples in ascending time together with a written one, which is added or replaces the one at
// its time.
#[derive(Drop)]
pub(crate) struct CountedWith {
    counted: Counted,
    // The sample to count next. At first this is the written one; once its time is reached, each sample waits here
    // for the next, so that one step never counts two. It is empty after the written sample replaced another.
    held: Option<Sample>,
    // The smallest rule count at which any of the samples, including the written one, was written.
    least: u32,
}

impl Model for CountedWith {
    ghost use Rattle.ts_rules.specs.CountedWith.{CountingWith};

    ghost Value = { CountingWith };

    ghost view = { λ c. record { counting = c.counted; held = c.held; least = c.least } };
}

impl CountedWith {
    // Only the written sample so far.
    pub(crate) fn new(made: u32, wrote: &Sample) -> CountedWith
        ensures empty { result ≡ record {
          counting = record { made = made; running = nothing };
          held = Some wrote.now;
          least = wrote.now.made;
        } }
        ensures told { (ps : List Point) → IsAscending ps → whole (visited with_next result ps)
            ≡ summary (filter (λ p. nat_le made p.made) (put wrote.now ps)) }
        ensures least { (ps : List Point) (number : ℕ) → number ≤ (visited with_next result ps).least
            → filter (λ p. nat_le number p.made) (put wrote.now ps) ≡ put wrote.now ps }
    {
        CountedWith {
            counted: Counted::new(made),
            held: Some(*wrote),
            least: wrote.made,
        }
    }

    // The smallest rule count at which any of the samples, including the written one, was written.
    pub(crate) fn least(&self) -> u32
        ensures { result ≡ self.now.least }
    {
        self.least
    }

    // The count so far, with the waiting sample.
    pub(crate) fn running(mut self) -> Running
        requires room { length (one_of self.held) ≤ 10 ^ 14 - self.counting.running.count }
        ensures { result ≡ whole self }
    {
        if let Some(held) = self.held {
            self.counted.sample(&held);
        }
        self.counted.running()
    }
}

impl Visit for CountedWith {
    ghost use Rattle.ts_rules.specs.CountedWith.{lowered_with};

    ghost step = { with_next };

    ghost room = { λ c. 10 ^ 14 - c.counting.running.count };

    fn sample(&mut self, sample: &Sample) {
        self.least = self.least.min(sample.made);
        let Some(held) = self.held else {
            self.counted.sample(sample);
            return;
        };
        if sample.time < held.time {
            self.counted.sample(sample);
            return;
        }
        self.counted.sample(&held);
        self.held = if held.time < sample.time {
            Some(*sample)
        } else {
            None
        };
    }

    ghost lowers = { lowered_with };
}

// The bucket of a written sample, counted with that sample. Takes the count of an earlier rule of the same write if
// it applies, and otherwise scans the bucket.
pub(crate) fn count_written<L: Ledger>(
    rule: &Rule,
    source: &Series,
    wrote: &Sample,
    shared: &mut SharedBucket,
    steps: &mut Steps<L>,
) -> Running
    requires shared { IsShared (put wrote.now (list_of source.now)) shared.old }
    ensures running { result ≡ recounted_bucket (stored_rule_for [] rule.now) (start_of rule.now.grid wrote.now.time)
        (put wrote.now (list_of source.now)) }
    ensures shared { IsShared (put wrote.now (list_of source.now)) shared.new }
    ensures steps { Takes steps.old steps.new (source_share rule.now source.now wrote.now.time) }
{
    source.known();
    wrote.known();
    rule.grid.known();
    let first = rule.grid.start_of(wrote.time);
    let last = rule.grid.last_of(wrote.time);
    if let Some(running) = shared.find(first, last, rule.made) {
        return running;
    }
    let mut counted = CountedWith::new(rule.made, wrote);
    source.scan(first, last, &mut counted, steps);
    let least = counted.least();
    let running = counted.running();
    shared.keep(first, last, running, least, rule.made);
    running
}

// The buffers that planning a deletion needs, and the starts of the buckets that lose a sample.
ghost use Rattle.std.specs.Prelude.{◌≡◌, ℕ, ◌+◌, ◌*◌, length, IfOk, ◌<◌, ◌≤◌, ◌^◌};
ghost use Rattle.std.specs.List.Sorted.{IsNonDecreasing};
ghost use Rattle.ts_spec.specs.Sample.{between, MAX_TIME};
ghost use Rattle.ts_spec.specs.Answer.{contains_time};
ghost use Rattle.ts_spec.specs.StoredUpdates.{lies_in};
ghost use Rattle.ts_sample.specs.Steps.{Takes};
ghost use Rattle.ts_series.specs.History.{list_of, reach};
ghost use Rattle.ts_rules.specs.LostBuckets.{is_last, with_bucket, HasStartCapacity};
ghost use Rattle.ts_rules.specs.SourceDeletions.{gone_by};
ghost use Rattle.ts_rules.specs.DeletionBuffers.{HasCapacity, count_touched};

use crate::rule::Rule;
use crate::source_deletion::SourceDeletion;
use std::alloc::{AllocError, Global};
use std::marker::Model;
use std::sync::ledger::Ledger;
use ts_bucket::Grid;
use ts_sample::{Sample, SampleCollector, Steps, Visit};
use ts_series::Series;

// A visitor that collects the starts of the buckets of the samples it visits, each once.
#[derive(Drop)]
pub(crate) struct LostBuckets {
    grid: Grid,
    last: Option<u64>,
    starts: Vec<u64>,
}

impl Model for LostBuckets {
    ghost use Rattle.std.specs.Prelude.{◌-◌, vec_len, vec_capacity};
    ghost use Rattle.ts_rules.specs.LostBuckets.{LostBucketList};

    ghost Value = { LostBucketList };

    ghost view = { λ l. record {
      grid = l.grid;
      last = l.last;
      starts = l.starts.items;
      room = vec_capacity l.starts - vec_len l.starts;
    } };
}

impl LostBuckets {
    // No starts yet, with capacity for `count` of them.
    pub(crate) fn with_reserved(
        alloc: Global,
        grid: Grid,
        count: usize,
    ) -> Result<LostBuckets, AllocError>
        ensures { IfOk result (HasStartCapacity grid count) }
    {
        Ok(LostBuckets {
            grid,
            last: None,
            starts: Vec::with_capacity(alloc, count)?,
        })
    }

    // The starts of the buckets with a sample from `from` to `to`, both inclusive, in ascending order.
    pub(crate) fn starts<L: Ledger>(
        mut self,
        source: &Series,
        from: u64,
        to: u64,
        steps: &mut Steps<L>,
    ) -> Vec<u64>
        requires room { HasStartCapacity self.grid (length (between from to (list_of source.now))) self }
        ensures rising { IsNonDecreasing result.items }
        ensures lies { (b : ℕ) → contains_time result.items b
            ≡ lies_in self.grid (between from to (list_of source.now)) b }
        ensures steps { Takes steps.old steps.new
            (length (between from to (list_of source.now)) + 2 * reach source.now) }
    {
        source.known();
        source.scan(from, to, &mut self, steps);
        self.starts
    }
}

impl Visit for LostBuckets {
    ghost use Rattle.ts_rules.specs.LostBuckets.{lowered};

    ghost step = { with_bucket };

    ghost room = { λ l. l.room };

    // Allocates nothing.
    fn sample(&mut self, sample: &Sample) {
        sample.known();
        let start = self.grid.start_of(sample.time);
        let seen = is_at(self.last, start);
        self.last = Some(start);
        if !seen {
            self.starts.push_reserved(start);
        }
    }

    ghost lowers = { lowered };
}

// Whether there is a last start and it equals `start`.
fn is_at(last: Option<u64>, start: u64) -> bool
    ensures { result ≡ is_last last start }
{
    match last {
        None => false,
        Some(last) => last == start,
    }
}

// All buffers, allocated before anything is decoded. After that only the plan of the destination can run out of
// memory.
#[derive(Drop)]
pub(crate) struct DeletionBuffers {
    // The starts of the buckets that lose a sample.
    pub(crate) lost: LostBuckets,
    // The destination's samples from the first bucket to the last one.
    pub(crate) shown: SampleCollector,
    // The samples of these that stay, and a row at each end.
    pub(crate) rows: SampleCollector,
}

impl DeletionBuffers {
    // Buffers for a deletion. If the first bucket is not closed, the destination does not change and needs no buffer.
    pub(crate) fn new(
        alloc: Global,
        rule: &Rule,
        deletion: &SourceDeletion<'_>,
        dest: &Series,
    ) -> Result<DeletionBuffers, AllocError>
        requires from { deletion.now.from ≤ MAX_TIME }
        requires to { deletion.now.to ≤ MAX_TIME }
        requires few { length (list_of dest.now) < 2 ^ 32 }
        ensures lost { IfOk result (λ r. HasStartCapacity rule.now.grid (length (gone_by deletion.now)) r.lost) }
        ensures shown { IfOk result
            (λ r. HasCapacity (count_touched rule.now deletion.now.from deletion.now.to dest.now) r.shown) }
        ensures rows { IfOk result
            (λ r. HasCapacity (count_touched rule.now deletion.now.from deletion.now.to dest.now + 2) r.rows) }
    {
        let SourceDeletion { source, from, to } = *deletion;
        let shown = touched_upper_bound(rule, from, to, dest);
        Ok(DeletionBuffers {
            lost: LostBuckets::with_reserved(alloc, rule.grid, source.room_for(from, to))?,
            shown: SampleCollector::with_reserved(alloc, shown)?,
            rows: SampleCollector::with_reserved(alloc, shown.saturating_add(2))?,
        })
    }
}

// An upper bound of the number of the destination's samples from the first bucket to the last one, if the first is
// closed.
fn touched_upper_bound(rule: &Rule, from: u64, to: u64, dest: &Series) -> usize
    requires from { from ≤ MAX_TIME }
    requires to { to ≤ MAX_TIME }
    ensures { count_touched rule.now from to dest.now ≤ result }
{
    let first = rule.grid.start_of(from);
    if !rule.is_closed(first) {
        return 0;
    }
    dest.room_for(first, rule.grid.start_of(to))
}

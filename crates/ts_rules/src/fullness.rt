// Whether a destination would hold too many samples after a deletion on its source. Allocates nothing.
ghost use Rattle.std.specs.Prelude.{◌≡◌, ◌<◌, ◌+◌, ◌^◌, ◌&&◌, ◌==◌, if◌then◌else◌, length, ◌≤◌, nat_lt};
ghost use Rattle.ts_spec.specs.Sample.{IsAscending, at_times, MAX_TIME};
ghost use Rattle.ts_spec.specs.Rules.{is_past};
ghost use Rattle.ts_spec.specs.StoredUpdates.{lies_in};
ghost use Rattle.ts_sample.specs.Steps.{Takes};
ghost use Rattle.ts_series.specs.History.{list_of};
ghost use Rattle.ts_rules.specs.Plans.{list_after_update};
ghost use Rattle.ts_rules.specs.Deletions.{is_lost, rows_left};
ghost use Rattle.ts_rules.specs.SourceDeletions.{left_by};
ghost use Rattle.ts_rules.specs.Shares.{deletion_share};
ghost use Rattle.ts_rules.specs.SharedBuckets.{AreShared};

use crate::end_rows::Ends;
use crate::interval_cursor::IntervalCursor;
use crate::rule::Rule;
use crate::shared_bucket::SharedBuckets;
use crate::source_deletion::SourceDeletion;
use std::sync::ledger::Ledger;
use ts_sample::Steps;
use ts_series::Series;

// The number of destination samples whose buckets are closed and lose a sample. Both cursors are in ascending time,
// so this merges them and advances the earlier one.
pub(crate) fn count_lost<L: Ledger>(
    rule: &Rule,
    mut gone: IntervalCursor<'_>,
    mut shown: IntervalCursor<'_>,
    steps: &mut Steps<L>,
) -> usize
    requires gone { IsAscending gone }
    requires shown { IsAscending shown }
    requires few { length shown < 2 ^ 32 }
    ensures count { result ≡ length
        (at_times (λ t. is_past rule.now.current t && lies_in rule.now.grid gone.entry t) shown.entry) }
    ensures steps { Takes steps.old steps.new (length gone.entry + length shown.entry) }
{
    let mut count = 0;
    while let Some(lost) = gone.head() {
        let Some(sample) = shown.head() else {
            return count;
        };
        let start = rule.grid.start_of(lost.time);
        if start < sample.time {
            gone.advance(steps);
        } else {
            count += count_at(rule, start, sample.time);
            shown.advance(steps);
        }
    }
    count
}

// 1 if a closed bucket starts at `time`, otherwise 0.
fn count_at(rule: &Rule, start: u64, time: u64) -> usize
    ensures { result ≡ (if (start == time) && is_past rule.now.current start then 1 else 0) }
{
    usize::from(start == time && rule.is_closed(start))
}

// Whether the destination would have more than `limit` samples after a deletion.
pub(crate) fn is_full<L: Ledger>(
    rule: &Rule,
    deletion: &SourceDeletion<'_>,
    dest: &Series,
    limit: u32,
    shared: &mut SharedBuckets,
    steps: &mut Steps<L>,
) -> bool
    requires order { deletion.now.from ≤ deletion.now.to }
    requires time { deletion.now.to ≤ MAX_TIME }
    requires fits { length (list_of dest.now) ≤ limit }
    requires shared { AreShared (left_by deletion.now) shared.old }
    ensures full { result ≡ nat_lt limit
        (length (list_after_update (is_lost rule.now deletion.now.source.now deletion.now.from deletion.now.to)
        (rows_left rule.now deletion.now.source.now deletion.now.from deletion.now.to dest.now.born) dest.now)) }
    ensures shared { AreShared (left_by deletion.now) shared.new }
    ensures steps { Takes steps.old steps.new
        (deletion_share rule.now deletion.now.source.now deletion.now.from deletion.now.to dest.now) }
{
    let SourceDeletion { source, from, to } = *deletion;
    source.known();
    dest.known();
    rule.grid.known();
    let gone = IntervalCursor::new(source, from, to, steps);
    let ends = Ends::new(rule, deletion, &gone, dest.born(), shared, steps);
    let edge = ends.edge(dest);
    let first = rule.grid.start_of(from).max(edge);
    let last = rule.grid.start_of(to);
    let shown = IntervalCursor::new(dest, first, last, steps);
    let removed = count_lost(rule, gone, shown, steps);
    let left = dest.count_from(edge, steps) - removed;
    (limit as usize) < left + ends.count_from(edge)
}

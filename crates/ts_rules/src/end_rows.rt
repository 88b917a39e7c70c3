// The destination's rows for the first and the last bucket of a deletion. Allocates nothing.
ghost use Rattle.std.specs.Prelude.{◌≡◌, ◌≤◌, ◌+◌, ◌*◌, ◌&&◌, ◌==◌, nat_le, [], length, if◌then◌else◌};
ghost use Rattle.ts_spec.specs.Sample.{MAX_TIME, IsAscending, at_times};
ghost use Rattle.ts_spec.specs.State.{edge_of};
ghost use Rattle.ts_spec.specs.Rules.{is_past};
ghost use Rattle.ts_spec.specs.StoredUpdates.{bucket_row, high_after_rows};
ghost use Rattle.ts_series.specs.History.{list_of, reach};
ghost use Rattle.ts_rules.specs.Rules.{one_of};
ghost use Rattle.ts_rules.specs.Deletions.{rows_left};
ghost use Rattle.ts_rules.specs.SourceDeletions.{gone_by, left_by};
ghost use Rattle.ts_rules.specs.Shares.{in_buckets};
ghost use Rattle.ts_rules.specs.SharedBuckets.{AreShared};
ghost use Rattle.ts_rules.specs.Ends.{rows_at, is_first_in};

use crate::ends_left::ends_left;
use crate::interval_cursor::IntervalCursor;
use crate::open_bucket::row;
use crate::rule::Rule;
use crate::shared_bucket::SharedBuckets;
use crate::source_deletion::SourceDeletion;
use std::sync::ledger::Ledger;
use ts_agg::Running;
use ts_sample::{Sample, Steps};
use ts_series::Series;

// The two rows, where they exist. The second belongs to a later bucket.
#[derive(Clone, Copy)]
pub(crate) struct Ends {
    pub(crate) first: Option<Sample>,
    pub(crate) last: Option<Sample>,
}

impl Ends {
    // The rows after a deletion. `gone` are the deleted samples, and `born` is the destination's rule count.
    pub(crate) fn new<L: Ledger>(
        rule: &Rule,
        deletion: &SourceDeletion<'_>,
        gone: &IntervalCursor<'_>,
        born: u32,
        shared: &mut SharedBuckets,
        steps: &mut Steps<L>,
    ) -> Ends
        requires order { deletion.now.from ≤ deletion.now.to }
        requires time { deletion.now.to ≤ MAX_TIME }
        requires gone { gone.now ≡ gone_by deletion.now }
        requires shared { AreShared (left_by deletion.now) shared.old }
        ensures rows { rows_at result
            ≡ rows_left rule.now deletion.now.source.now deletion.now.from deletion.now.to born }
        ensures shared { AreShared (left_by deletion.now) shared.new }
        ensures counted { steps.old ≤ steps.new }
        ensures bounded { steps.new + length (gone_by deletion.now)
            ≤ steps.old + 5 * reach deletion.now.source.now
            + length (in_buckets rule.now.grid deletion.now.from deletion.now.to (list_of deletion.now.source.now)) }
    {
        let SourceDeletion { source, from, to } = *deletion;
        source.known();
        rule.grid.known();
        let first = rule.grid.start_of(from);
        let last = rule.grid.start_of(to);
        let (early, late) = ends_left(rule, deletion, shared, steps);
        let goes_early = is_head_in(rule, gone, first);
        let goes_late = source.has_between(last.max(from), to, steps);
        Ends {
            first: row_if(rule, first, goes_early, &early, born),
            last: last_row(rule, first, last, goes_late, &late, born),
        }
    }

    // The destination's retention edge after the rows are written.
    pub(crate) fn edge(&self, dest: &Series) -> u64
        requires { IsAscending (rows_at self.now) }
        ensures { result ≡ edge_of dest.now.options.retention (high_after_rows (rows_at self.now) dest.now.high) }
    {
        match (self.first, self.last) {
            (None, None) => dest.edge_with(&[]),
            (Some(first), None) => dest.edge_with(&[first]),
            (None, Some(last)) => dest.edge_with(&[last]),
            (Some(first), Some(last)) => dest.edge_with(&[first, last]),
        }
    }

    // The number of rows at or after `time`.
    pub(crate) fn count_from(&self, time: u64) -> usize
        ensures count { result ≡ length (at_times (nat_le time) (rows_at self.now)) }
        ensures few { result ≤ 2 }
    {
        count_if(self.first, time) + count_if(self.last, time)
    }
}

// The row of a bucket with `left` remaining, if it is closed and lost a sample.
fn row_if(rule: &Rule, start: u64, lost: bool, left: &Running, born: u32) -> Option<Sample>
    requires { start ≤ MAX_TIME }
    ensures { one_of result
        ≡ (if lost && is_past rule.now.current start then bucket_row rule.now.agg born start left.now else []) }
{
    if lost && rule.is_closed(start) {
        row(rule.agg, born, start, left)
    } else {
        None
    }
}

// The row of the last bucket, unless it is the first one.
fn last_row(
    rule: &Rule,
    first: u64,
    last: u64,
    lost: bool,
    left: &Running,
    born: u32,
) -> Option<Sample>
    requires { last ≤ MAX_TIME }
    ensures { one_of result
        ≡ (if first == last then []
        else (if lost && is_past rule.now.current last then bucket_row rule.now.agg born last left.now else [])) }
{
    if first == last {
        return None;
    }
    row_if(rule, last, lost, left, born)
}

// Whether the next sample of the cursor is in the bucket that starts at `start`.
fn is_head_in(rule: &Rule, walk: &IntervalCursor<'_>, start: u64) -> bool
    ensures { result ≡ is_first_in rule.now.grid start walk.now }
{
    match walk.head() {
        None => false,
        Some(head) => rule.grid.start_of(head.time) == start,
    }
}

// 1 if there is a row at or after `time`, otherwise 0.
fn count_if(row: Option<Sample>, time: u64) -> usize
    ensures count { result ≡ length (at_times (nat_le time) (one_of row)) }
    ensures few { result ≤ 1 }
{
    match row {
        None => 0,
        Some(row) => usize::from(time <= row.time),
    }
}

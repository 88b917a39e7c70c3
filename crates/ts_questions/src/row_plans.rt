// Row plans: which rows a query returns, decided before the first row is produced.
ghost use Rattle.std.specs.Prelude.{◌≡◌, ◌≤◌, ◌+◌, ◌*◌, None, Some, is_none, IfNone, IfSome};
ghost use Rattle.ts_spec.specs.Answer.{answer as spec_answer};
ghost use Rattle.ts_spec.specs.Key.{Key};
ghost use Rattle.ts_spec.specs.Keyed.{get};
ghost use Rattle.ts_spec.specs.StoredQueries.{stored_asked};
ghost use Rattle.ts_range.specs.Query.{query_of};
ghost use Rattle.ts_range.specs.BucketRanges.{FillsGaps};
ghost use Rattle.ts_db.specs.DbState.{IsLive, reach_at};
ghost use Rattle.ts_questions.specs.Asking.{queried_samples, queried_reach, queried_rows, queried_answer, steps_beside};
ghost use Rattle.ts_questions.specs.Asking.{IsRowPlan};

use crate::series_query::SeriesQuery;
use std::sync::ledger::Ledger;
use ts_db::{Db, Id};
use ts_range::{BucketRange, Buckets as Grouped, Query, are_too_many, gap_filling_buckets};
use ts_sample::Steps;

/// Which rows a query returns.
#[derive(Clone, Copy)]
pub(crate) enum RowPlan {
    /// One for each sample, or for each non-empty bucket.
    Samples,
    /// One for each bucket of a range, empty ones included.
    Buckets(BucketRange),
    Nothing,
}

/// The row plan of a query, or `None` if it has too many rows. Allocates nothing.
pub(crate) fn row_plan<L: Ledger>(
    series_query: &SeriesQuery<'_>,
    steps: &mut Steps<L>,
) -> Option<RowPlan>
    ensures plan { IfSome result (IsRowPlan series_query.now.query.now (queried_samples series_query.now)) }
    ensures few { IfSome result (λ plan. queried_answer series_query.now ≡ Some (queried_rows series_query.now)) }
    ensures many { IfNone result (queried_answer series_query.now ≡ None) }
    ensures steps { IfSome result (λ plan. steps.new + steps_beside series_query.now plan
        ≤ steps.old + 3 * queried_reach series_query.now) }
    ensures refused { IfNone result (steps.new ≤ steps.old + queried_reach series_query.now) }
{
    match gap_filling_buckets(series_query.query) {
        None => Some(RowPlan::Samples),
        Some(buckets) => gap_filled_row_plan(series_query, &buckets, steps),
    }
}

// The row plan of a query with EMPTY and these buckets.
fn gap_filled_row_plan<L: Ledger>(
    series_query: &SeriesQuery<'_>,
    buckets: &Grouped,
    steps: &mut Steps<L>,
) -> Option<RowPlan>
    requires { FillsGaps series_query.now.query.now buckets.now }
    ensures plan { IfSome result (IsRowPlan series_query.now.query.now (queried_samples series_query.now)) }
    ensures few { IfSome result (λ plan. queried_answer series_query.now ≡ Some (queried_rows series_query.now)) }
    ensures many { IfNone result (queried_answer series_query.now ≡ None) }
    ensures steps { IfSome result (λ plan. steps.new + steps_beside series_query.now plan
        ≤ steps.old + 3 * queried_reach series_query.now) }
    ensures refused { IfNone result (steps.new ≤ steps.old + queried_reach series_query.now) }
{
    let ends = series_query.ends(steps);
    if are_too_many(
        series_query.query,
        ends,
        series_query.db.limits().empty_rows,
    ) {
        return None;
    }
    match BucketRange::of(series_query.query, buckets, ends) {
        None => Some(RowPlan::Nothing),
        Some(bucket_range) => Some(RowPlan::Buckets(bucket_range)),
    }
}

/// Whether a query over series `id` has too many rows. Allocates nothing.
pub(crate) fn has_too_many_rows<L: Ledger>(
    db: &Db,
    id: Id,
    latest: bool,
    query: &Query,
    steps: &mut Steps<L>,
) -> bool
    requires { IsLive db.now.ids id }
    ensures many { (key : Key) → get key db.now.ids ≡ Some id
        → result ≡ is_none
        (spec_answer db.now.limits.empty_rows (query_of query.now) (stored_asked db.now.keys latest key)) }
    ensures steps { (key : Key) → get key db.now.ids ≡ Some id → steps.new ≤ steps.old + reach_at db.now key }
{
    let ends = db.ends_of(id, latest, steps);
    are_too_many(query, ends, db.limits().empty_rows)
}

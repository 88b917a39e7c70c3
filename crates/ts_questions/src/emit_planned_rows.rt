// Emits the rows of a query to a sink.
ghost use Rattle.std.specs.Prelude.{◌≡◌, ◌+◌, ◌*◌, true, false, [], map, IfOk};
ghost use Rattle.ts_spec.specs.Answer.{includes_empty};
ghost use Rattle.ts_range.specs.Query.{query_of, row_of};
ghost use Rattle.ts_range.specs.BucketRanges.{IsBucketRangeIn};
ghost use Rattle.ts_series.specs.Seams.{IsSeamed};
ghost use Rattle.ts_questions.specs.Asking.{queried_samples, queried_pieces, queried_reach, queried_rows, steps_beside};
ghost use Rattle.ts_questions.specs.Asking.{IsRowPlan};

use crate::few_samples::{emit_few, narrowed_to, small_count};
use crate::gap_filled::emit_gap_filled;
use crate::reversed_samples::{emit_rows, emit_samples_reversed, last_rows, rows_between};
use crate::row_plans::RowPlan;
use crate::series_query::SeriesQuery;
use crate::walked::emitted;
use std::alloc::AllocError;
use std::sync::ledger::Ledger;
use ts_range::{BucketRange, FallibleRowSink, Limited, Row, RowList, RowSink, in_requested_order};
use ts_sample::Steps;

/// The sink after receiving the rows of a row plan, in the requested order.
pub(crate) fn emit_planned_rows<T: FallibleRowSink, L: Ledger>(
    series_query: &SeriesQuery<'_>,
    plan: &RowPlan,
    row_sink: T,
    steps: &mut Steps<L>,
) -> T
    requires plan { IsRowPlan series_query.now.query.now (queried_samples series_query.now) plan.now }
    requires none { T.has row_sink [] }
    ensures rows { T.has result (queried_rows series_query.now) }
    ensures seams { IsSeamed (queried_pieces series_query.now) series_query.now.query.now.from
        series_query.now.query.now.to (steps.old + steps_beside series_query.now plan.now) steps.new }
{
    if series_query.query.reverse {
        return emit_reversed(series_query, plan, row_sink, steps);
    }
    match plan {
        RowPlan::Samples => emit_samples(series_query, row_sink, steps),
        RowPlan::Buckets(bucket_range) => emit_gap_filled(
            series_query,
            bucket_range,
            row_sink,
            steps,
        ),
        RowPlan::Nothing => row_sink,
    }
}

// The sink after receiving the rows of samples or of non-empty buckets, oldest first.
fn emit_samples<T: RowSink, L: Ledger>(
    series_query: &SeriesQuery<'_>,
    row_sink: T,
    steps: &mut Steps<L>,
) -> T
    requires forward { series_query.now.query.now.reverse ≡ false }
    requires full { includes_empty (query_of series_query.now.query.now).buckets ≡ false }
    requires none { T.has row_sink [] }
    ensures rows { T.has result (queried_rows series_query.now) }
    ensures seams { IsSeamed (queried_pieces series_query.now) series_query.now.query.now.from
        series_query.now.query.now.to (steps.old + 3 * queried_reach series_query.now) steps.new }
{
    if let Some(count) = small_count(series_query) {
        return emit_few(series_query, count, row_sink, steps);
    }
    let query = series_query.query;
    let to = narrowed_to(series_query);
    let row_sink = Limited::new(row_sink, query.count);
    emitted(series_query, query.from, to, row_sink, steps).into_row_sink()
}

// The sink after receiving the rows newest first. Rows of buckets are collected before the first is emitted.
fn emit_reversed<T: FallibleRowSink, L: Ledger>(
    series_query: &SeriesQuery<'_>,
    plan: &RowPlan,
    mut row_sink: T,
    steps: &mut Steps<L>,
) -> T
    requires backward { series_query.now.query.now.reverse ≡ true }
    requires plan { IsRowPlan series_query.now.query.now (queried_samples series_query.now) plan.now }
    requires none { T.has row_sink [] }
    ensures rows { T.has result (queried_rows series_query.now) }
    ensures seams { IsSeamed (queried_pieces series_query.now) series_query.now.query.now.from
        series_query.now.query.now.to (steps.old + steps_beside series_query.now plan.now) steps.new }
{
    if series_query.query.buckets.is_none() {
        return emit_samples_reversed(series_query, row_sink, steps);
    }
    match reversed_rows(series_query, plan, steps) {
        Ok(rows) => emit_rows(&rows, &mut row_sink),
        Err(_) => row_sink.lose(),
    }
    row_sink
}

/// The rows of a row plan, newest first.
pub(crate) fn reversed_rows<L: Ledger>(
    series_query: &SeriesQuery<'_>,
    plan: &RowPlan,
    steps: &mut Steps<L>,
) -> Result<Vec<Row>, AllocError>
    requires backward { series_query.now.query.now.reverse ≡ true }
    requires plan { IsRowPlan series_query.now.query.now (queried_samples series_query.now) plan.now }
    ensures rows { IfOk result (λ found. map row_of found.items ≡ queried_rows series_query.now) }
    ensures seams { IsSeamed (queried_pieces series_query.now) series_query.now.query.now.from
        series_query.now.query.now.to (steps.old + steps_beside series_query.now plan.now) steps.new }
{
    match plan {
        RowPlan::Samples => reversed_sample_rows(series_query, steps),
        RowPlan::Buckets(bucket_range) => reversed_gap_filled_rows(
            series_query,
            bucket_range,
            steps,
        ),
        RowPlan::Nothing => Ok(Vec::new(series_query.db.alloc())),
    }
}

// The rows of samples or of non-empty buckets, newest first.
fn reversed_sample_rows<L: Ledger>(
    series_query: &SeriesQuery<'_>,
    steps: &mut Steps<L>,
) -> Result<Vec<Row>, AllocError>
    requires backward { series_query.now.query.now.reverse ≡ true }
    requires full { includes_empty (query_of series_query.now.query.now).buckets ≡ false }
    ensures rows { IfOk result (λ found. map row_of found.items ≡ queried_rows series_query.now) }
    ensures seams { IsSeamed (queried_pieces series_query.now) series_query.now.query.now.from
        series_query.now.query.now.to (steps.old + 3 * queried_reach series_query.now) steps.new }
{
    let query = series_query.query;
    if let Some(count) = query.count {
        return last_rows(series_query, query.from, count, steps);
    }
    let rows = rows_between(series_query, query.from, query.to, steps)?;
    Ok(in_requested_order(rows, None))
}

// The rows of a bucket range, newest first.
fn reversed_gap_filled_rows<L: Ledger>(
    series_query: &SeriesQuery<'_>,
    bucket_range: &BucketRange,
    steps: &mut Steps<L>,
) -> Result<Vec<Row>, AllocError>
    requires backward { series_query.now.query.now.reverse ≡ true }
    requires bucket_range { IsBucketRangeIn series_query.now.query.now (queried_samples series_query.now)
        bucket_range.now }
    ensures rows { IfOk result (λ found. map row_of found.items ≡ queried_rows series_query.now) }
    ensures seams { IsSeamed (queried_pieces series_query.now) series_query.now.query.now.from
        series_query.now.query.now.to (steps.old + 2 * queried_reach series_query.now) steps.new }
{
    let row_sink = RowList::with_reserved(series_query.db.alloc(), 0)?;
    let rows = emit_gap_filled(series_query, bucket_range, row_sink, steps).into_rows()?;
    Ok(in_requested_order(rows, None))
}

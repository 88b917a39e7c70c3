// Answers a query with EMPTY by one scan over the samples.
ghost use Rattle.std.specs.Prelude.{◌≡◌, ◌+◌, ◌*◌, ◌≤◌, ℕ, List, []};
ghost use Rattle.ts_spec.specs.declared.bucket.Aggregator.TheVariants.{Last};
ghost use Rattle.ts_spec.specs.Sample.{between};
ghost use Rattle.ts_spec.specs.Answer.{Row as TheRow, in_requested_order};
ghost use Rattle.ts_range.specs.LastValues.{last_rows, IsLine};
ghost use Rattle.ts_range.specs.BucketRanges.{IsKnownBefore, IsBucketRangeIn};
ghost use Rattle.ts_series.specs.Seams.{IsSeamed};
ghost use Rattle.ts_questions.specs.Asking.{queried_samples, queried_pieces, queried_reach, queried_rows};

use crate::series_query::SeriesQuery;
use crate::walked::walked;
use std::sync::ledger::Ledger;
use ts_range::{BucketRange, LastValues, RowSink};
use ts_sample::{Sample, Steps};

/// The sink after receiving all rows of a bucket range, oldest first.
pub(crate) fn emit_gap_filled<T: RowSink, L: Ledger>(
    series_query: &SeriesQuery<'_>,
    bucket_range: &BucketRange,
    row_sink: T,
    steps: &mut Steps<L>,
) -> T
    requires bucket_range { IsBucketRangeIn series_query.now.query.now (queried_samples series_query.now)
        bucket_range.now }
    requires none { T.has row_sink [] }
    ensures rows { (emitted : List TheRow) × T.has result emitted
        × (in_requested_order series_query.now.query.now.reverse emitted ≡ queried_rows series_query.now) }
    ensures seams { IsSeamed (queried_pieces series_query.now) series_query.now.query.now.from
        series_query.now.query.now.to (steps.old + 2 * queried_reach series_query.now) steps.new }
{
    series_query.known();
    let (ahead, prior) = known_before(series_query, bucket_range, steps);
    if bucket_range.fills_with_filtered_out(series_query.filters) {
        let line = bucket_range.last_values(series_query.filters, ahead, prior, row_sink);
        return shown(
            series_query,
            bucket_range.from,
            bucket_range.to,
            line,
            steps,
        );
    }
    let walk = bucket_range.walk(series_query.filters, ahead, prior, row_sink);
    walked(
        series_query,
        bucket_range.from,
        bucket_range.to,
        walk,
        steps,
    )
    .into_row_sink()
}

// The last samples before the first bucket and before the first time of the range, if empty buckets repeat them.
fn known_before<L: Ledger>(
    series_query: &SeriesQuery<'_>,
    bucket_range: &BucketRange,
    steps: &mut Steps<L>,
) -> (Option<Sample>, Option<Sample>)
    ensures known { bucket_range.now.buckets.agg ≡ Last
        → IsKnownBefore bucket_range.now (queried_samples series_query.now) result.0 result.1 }
    ensures steps { steps.new ≤ steps.old + 2 * queried_reach series_query.now }
{
    if !bucket_range.fills_with_last() {
        return (None, None);
    }
    let ahead = series_query.before(bucket_range.first(), steps);
    let prior = series_query.before(bucket_range.from, steps);
    (ahead, prior)
}

// Feeds the samples between two times to a fresh `LastValues` and returns its sink.
fn shown<T: RowSink, L: Ledger>(
    series_query: &SeriesQuery<'_>,
    from: u64,
    to: u64,
    mut line: LastValues<'_, T>,
    steps: &mut Steps<L>,
) -> T
    requires none { line.seen ≡ [] }
    ensures rows { (lo hi : ℕ)
        → IsLine lo hi (record line.entry { seen = between from to (queried_samples series_query.now) })
        → T.has result (last_rows (record line.entry { seen = between from to (queried_samples series_query.now) })) }
    ensures seams { IsSeamed (queried_pieces series_query.now) from to steps.old steps.new }
{
    series_query.visit(from, to, &mut line, steps);
    line.finish()
}

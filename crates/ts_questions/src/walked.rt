// Scans the samples of a query and skips those that can't contribute.
ghost use Rattle.std.specs.Prelude.{◌≡◌, ◌≤◌, ◌+◌, ◌⊎◌, List, [], filter};
ghost use Rattle.ts_spec.specs.Sample.{Point, between};
ghost use Rattle.ts_range.specs.RowScanState.{lets, rows_passing};
ghost use Rattle.ts_series.specs.Seams.{IsSeam, IsSeamed};
ghost use Rattle.ts_questions.specs.Asking.{queried_samples, queried_pieces, rows_in};

use crate::series_query::SeriesQuery;
use std::sync::ledger::Ledger;
use ts_range::{RowScan, RowSink};
use ts_sample::Steps;

// The least number of samples in a batch before the scan is asked what else it needs.
const SHARE: u64 = 1024;

/// The sink after receiving the rows of the samples between two times, oldest first.
pub(crate) fn emitted<T: RowSink, L: Ledger>(
    series_query: &SeriesQuery<'_>,
    from: u64,
    to: u64,
    row_sink: T,
    steps: &mut Steps<L>,
) -> T
    requires none { T.has row_sink [] }
    ensures rows { T.has result (rows_in series_query.now.query.now (queried_samples series_query.now) from to) }
    ensures limit { T.limit result ≡ T.limit row_sink }
    ensures seams { IsSeamed (queried_pieces series_query.now) from to steps.old steps.new }
{
    let walk = RowScan::new(series_query.filters, series_query.query.buckets, row_sink);
    walked(series_query, from, to, walk, steps)
}

/// Feeds the samples between two times to a fresh scan and returns its sink. For a query with a COUNT or with listed
/// times it does not decode all samples.
pub(crate) fn walked<T: RowSink, L: Ledger>(
    series_query: &SeriesQuery<'_>,
    from: u64,
    to: u64,
    mut walk: RowScan<'_, T>,
    steps: &mut Steps<L>,
) -> T
    requires none { walk.seen ≡ [] }
    ensures rows { T.has result
        (rows_passing walk.entry.buckets (queried_samples series_query.now)
        (filter (lets walk.entry) (between from to (queried_samples series_query.now)))) }
    ensures limit { T.limit result ≡ walk.entry.limit }
    ensures seams { IsSeamed (queried_pieces series_query.now) from to steps.old steps.new }
{
    let query = series_query.query;
    if query.times.is_some() || (!query.reverse && query.count.is_some()) {
        return scan_in_batches(series_query, from, to, walk, steps);
    }
    series_query.known();
    series_query.visit(from, to, &mut walk, steps);
    walk.finish()
}

// The same in batches: before each batch it asks the scan which samples it still needs.
fn scan_in_batches<T: RowSink, L: Ledger>(
    series_query: &SeriesQuery<'_>,
    mut from: u64,
    mut to: u64,
    mut walk: RowScan<'_, T>,
    steps: &mut Steps<L>,
) -> T
    requires none { walk.seen ≡ [] }
    ensures rows { T.has result
        (rows_passing walk.entry.buckets (queried_samples series_query.now)
        (filter (lets walk.entry) (between from to (queried_samples series_query.now)))) }
    ensures limit { T.limit result ≡ walk.entry.limit }
    ensures seams { IsSeamed (queried_pieces series_query.now) from to steps.old steps.new }
{
    series_query.known();
    while let Some((start, last)) = walk.part_to_scan(from, to) {
        let scan_batch = scan_batch_of(series_query, &walk, start, last);
        series_query.visit(scan_batch.first, scan_batch.last, &mut walk, steps);
        if scan_batch.end == last {
            return walk.finish();
        }
        walk = match walk.finish_if_full() {
            Ok(row_sink) => return row_sink,
            Err(walk) => walk,
        };
        from = scan_batch.end + 1;
        to = last;
    }
    walk.finish()
}

// A batch of samples: the first and the last needed time in it, and its end. It ends where a chunk does, so no chunk is
// decoded for two batches.
#[derive(Clone, Copy)]
struct ScanBatch {
    first: u64,
    last: u64,
    end: u64,
}

// The batch from `start` on, of about `SHARE` samples, that ends no later than `last`.
fn scan_batch_of<T: RowSink>(
    series_query: &SeriesQuery<'_>,
    walk: &RowScan<'_, T>,
    start: u64,
    last: u64,
) -> ScanBatch
    requires ordered { start ≤ last }
    ensures within { (start ≤ result.first) × (result.first ≤ result.last) × (result.last ≤ result.end)
        × (result.end ≤ last) }
    ensures all { (ps : List Point)
        → filter (lets walk.now) (between result.first result.last ps)
        ≡ filter (lets walk.now) (between start result.end ps) }
    ensures seam { (result.end ≡ last) ⊎ IsSeam (result.end + 1) (queried_pieces series_query.now) }
{
    let end = series_query.end_for_count(start, last, SHARE);
    match walk.part_to_scan(start, end) {
        None => ScanBatch {
            first: start,
            last: end,
            end,
        },
        Some((first, last)) => ScanBatch { first, last, end },
    }
}

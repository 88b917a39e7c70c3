// Reads a series from the back in batches, so that it decodes no earlier samples than necessary: the last rows of a
// query, and samples newest first.
ghost use Rattle.std.specs.Prelude.{◌≡◌, ◌+◌, ◌*◌, ◌≤◌, ◌<◌, ◌⊎◌, ◌++◌, map, reverse, take, IsSome, IfOk, ◌-◌, true};
ghost use Rattle.std.specs.Prelude.{List, [], None, option_map};
ghost use Rattle.std.specs.Option.{ForSome};
ghost use Rattle.ts_spec.specs.Bucket.{start};
ghost use Rattle.ts_spec.specs.Answer.{Row as TheRow};
ghost use Rattle.ts_range.specs.Query.{row_of};
ghost use Rattle.ts_series.specs.Seams.{IsSeamed};
ghost use Rattle.ts_questions.specs.Asking.{queried_samples, queried_pieces, queried_reach, rows_in, queried_rows};

use crate::few_samples::{narrowed_from, only_last_row};
use crate::series_query::SeriesQuery;
use crate::walked::emitted;
use std::alloc::AllocError;
use std::sync::ledger::Ledger;
use ts_range::{FallibleRowSink, Row, RowList, RowSink, in_requested_order};
use ts_sample::Steps;

/// The last `count` rows of the samples from `from` on, newest first.
pub(crate) fn last_rows<L: Ledger>(
    series_query: &SeriesQuery<'_>,
    from: u64,
    count: u64,
    steps: &mut Steps<L>,
) -> Result<Vec<Row>, AllocError>
    ensures rows { IfOk result (λ found. map row_of found.items
        ≡ take count
        (reverse (rows_in series_query.now.query.now (queried_samples series_query.now) from
        series_query.now.query.now.to))) }
    ensures seams { IsSeamed (queried_pieces series_query.now) from series_query.now.query.now.to
        (steps.old + 3 * queried_reach series_query.now) steps.new }
{
    series_query.known();
    let mut found = Vec::new(series_query.db.alloc());
    let mut end = series_query.query.to;
    if end < from {
        return Ok(found);
    }
    let mut scan_batches = 0;
    while (found.len() as u64) < count {
        let wanted = count - found.len() as u64;
        let start = start_of_batch(series_query, from, end, wanted, scan_batches);
        let rows = rows_between(series_query, start, end, steps)?;
        found = with_earlier(found, rows, count)?;
        if start == from {
            return Ok(found);
        }
        end = start - 1;
        scan_batches += 1;
    }
    Ok(found)
}

// The start of a batch that ends at `end`: no earlier than `from`, and otherwise the start of a bucket. A batch goes
// back by the samples of one chunk, or by as many buckets as are missing if that is further. Each batch goes back eight
// times as far as the previous one.
fn start_of_batch(
    series_query: &SeriesQuery<'_>,
    from: u64,
    end: u64,
    wanted: u64,
    scan_batches: u64,
) -> u64
    requires ordered { (from ≤ end) × (end ≤ series_query.now.query.now.to) }
    requires more { 0 < wanted }
    ensures within { (from ≤ result) × (result ≤ end) }
    ensures bucket { (result ≡ from)
        ⊎ ForSome series_query.now.query.now.buckets (λ bs. (0 < bs.grid.duration) × (start bs.grid result ≡ result)) }
    ensures few { (result ≡ from) ⊎ (scan_batches < 3) }
{
    let Some(scale) = scale_after(scan_batches) else {
        return from;
    };
    let near = series_query.start_for_count(
        from,
        end,
        series_query.chunk_reach().saturating_mul(scale),
    );
    let Some(buckets) = series_query.query.buckets else {
        return near;
    };
    let last = series_query.start_for_count(from, end, 1);
    let grid = buckets.grid;
    grid.known();
    let back = (wanted - 1)
        .saturating_mul(scale)
        .saturating_mul(grid.duration());
    from.max(grid.start_of(near.min(last.saturating_sub(back))))
}

// How far the next batch goes back, relative to the first. `None` takes all remaining samples. A chunk at the border of
// two batches is decoded twice, so there are few batches.
fn scale_after(scan_batches: u64) -> Option<u64>
    ensures { IsSome result → scan_batches < 3 }
{
    match scan_batches {
        0 => Some(1),
        1 => Some(8),
        2 => Some(64),
        _ => None,
    }
}

/// The rows of the samples between two times, oldest first.
pub(crate) fn rows_between<L: Ledger>(
    series_query: &SeriesQuery<'_>,
    from: u64,
    to: u64,
    steps: &mut Steps<L>,
) -> Result<Vec<Row>, AllocError>
    ensures rows { IfOk result (λ found. map row_of found.items
        ≡ rows_in series_query.now.query.now (queried_samples series_query.now) from to) }
    ensures seams { IsSeamed (queried_pieces series_query.now) from to steps.old steps.new }
{
    let row_sink = RowList::with_reserved(series_query.db.alloc(), 0)?;
    emitted(series_query, from, to, row_sink, steps).into_rows()
}

// Appends earlier rows, newest first, and keeps at most `count` in total.
fn with_earlier(mut found: Vec<Row>, earlier: Vec<Row>, count: u64) -> Result<Vec<Row>, AllocError>
    ensures { IfOk result (λ all. map row_of all.items
        ≡ take count (map row_of found.items ++ reverse (map row_of earlier.items))) }
{
    let mut earlier = in_requested_order(earlier, Some(count));
    if found.is_empty() {
        return Ok(earlier);
    }
    found.append(&mut earlier)?;
    found.truncate(count as usize);
    Ok(found)
}

// The least number of samples in a batch, except in the earliest one.
const SHARE: u64 = 1024;

/// The sink after receiving the rows of the interval, newest first. Each batch begins where a chunk does, so no chunk
/// is decoded twice.
pub(crate) fn emit_samples_reversed<T: FallibleRowSink, L: Ledger>(
    series_query: &SeriesQuery<'_>,
    mut row_sink: T,
    steps: &mut Steps<L>,
) -> T
    requires backward { series_query.now.query.now.reverse ≡ true }
    requires single { series_query.now.query.now.buckets ≡ None }
    requires none { T.has row_sink [] }
    ensures rows { T.has result (queried_rows series_query.now) }
    ensures seams { IsSeamed (queried_pieces series_query.now) series_query.now.query.now.from
        series_query.now.query.now.to steps.old steps.new }
{
    if let Some(row) = only_last_row(series_query, steps) {
        row_sink.row(row);
        return row_sink;
    }
    let from = narrowed_from(series_query);
    series_query.known();
    let mut left = series_query.query.count;
    let mut end = series_query.query.to;
    if end < from {
        return row_sink;
    }
    while left != Some(0) {
        let start = series_query.start_for_count(from, end, SHARE);
        let Ok(rows) = rows_between(series_query, start, end, steps) else {
            row_sink.lose();
            return row_sink;
        };
        let rows = in_requested_order(rows, left);
        emit_rows(&rows, &mut row_sink);
        if start == from {
            return row_sink;
        }
        left = left_after(left, rows.len());
        end = start - 1;
    }
    row_sink
}

// The row limit that remains after `count` rows.
fn left_after(left: Option<u64>, count: usize) -> Option<u64>
    ensures { result ≡ option_map (λ n. n - count) left }
{
    let left = left?;
    Some(left.saturating_sub(count as u64))
}

/// Emits rows to a sink.
pub(crate) fn emit_rows<T: RowSink>(rows: &[Row], row_sink: &mut T)
    ensures { (before : List TheRow) → T.has row_sink.old before → T.has row_sink.new (before ++ map row_of rows.now) }
{
    for row in rows {
        row_sink.row(*row);
    }
}

// Plain scans with a COUNT: narrow the interval, or read a few samples one by one.
ghost use Rattle.std.specs.Prelude.{◌≡◌, ◌≤◌, true, false, None, ◌+◌, ◌*◌, [], ◌∷◌};
ghost use Rattle.ts_spec.specs.Answer.{rows, row_of as row_of_sample};
ghost use Rattle.ts_range.specs.Query.{query_of, row_of};
ghost use Rattle.ts_questions.specs.Asking.{queried_samples, queried_rows, queried_reach, IsFew};
ghost use Rattle.std.specs.Option.{ForSome};

use crate::series_query::SeriesQuery;
use std::sync::ledger::Ledger;
use ts_range::{Query, Row, RowSink};
use ts_sample::{Cell, Sample, Steps};

/// An end time late enough for the first `count` rows, and early enough to skip most later samples.
pub(crate) fn narrowed_to(series_query: &SeriesQuery<'_>) -> u64
    requires forward { series_query.now.query.now.reverse ≡ false }
    ensures within { result ≤ series_query.now.query.now.to }
    ensures rows { rows (record (query_of series_query.now.query.now) { to = result })
        (queried_samples series_query.now) ≡ queried_rows series_query.now }
{
    let query = series_query.query;
    series_query.known();
    let Some(count) = query.count else {
        return query.to;
    };
    if series_query.latest {
        return query.to;
    }
    if query.to < query.from {
        return query.to;
    }
    if !is_plain_scan(query) {
        return query.to;
    }
    series_query.end_for_count(query.from, query.to, count)
}

/// A start time early enough for the last `count` rows, and late enough to skip most earlier samples.
pub(crate) fn narrowed_from(series_query: &SeriesQuery<'_>) -> u64
    requires backward { series_query.now.query.now.reverse ≡ true }
    ensures within { series_query.now.query.now.from ≤ result }
    ensures rows { rows (record (query_of series_query.now.query.now) { from = result })
        (queried_samples series_query.now) ≡ queried_rows series_query.now }
{
    let query = series_query.query;
    series_query.known();
    let Some(count) = query.count else {
        return query.from;
    };
    if series_query.latest {
        return query.from;
    }
    if query.to < query.from {
        return query.from;
    }
    if !is_plain_scan(query) {
        return query.from;
    }
    series_query.start_for_count(query.from, query.to, count)
}

/// Whether the query is a plain scan, which returns each sample of its interval.
pub(crate) fn is_plain_scan(query: &Query) -> bool
    ensures { result ≡ true → (query.now.times ≡ None) × (query.now.values ≡ None) × (query.now.buckets ≡ None) }
{
    if query.times.is_some() {
        return false;
    }
    if query.values.is_some() {
        return false;
    }
    query.buckets.is_none()
}

// Above this many samples, scanning whole chunks is faster.
const FEW: u64 = 64;

/// The sample limit, if the query is a plain scan with a small COUNT.
pub(crate) fn small_count(series_query: &SeriesQuery<'_>) -> Option<u64>
    ensures { ForSome result (IsFew series_query.now) }
{
    let count = series_query.query.count?;
    if series_query.latest {
        return None;
    }
    if !is_plain_scan(series_query.query) {
        return None;
    }
    if series_query.chunk_reach() <= count {
        return None;
    }
    if FEW < count {
        return None;
    }
    Some(count)
}

/// The sink after receiving the rows of the first `count` samples.
pub(crate) fn emit_few<T: RowSink, L: Ledger>(
    series_query: &SeriesQuery<'_>,
    count: u64,
    mut row_sink: T,
    steps: &mut Steps<L>,
) -> T
    requires few { IsFew series_query.now count }
    requires forward { series_query.now.query.now.reverse ≡ false }
    requires none { T.has row_sink [] }
    ensures rows { T.has result (queried_rows series_query.now) }
    ensures steps { steps.new ≤ steps.old + 2 * queried_reach series_query.now }
{
    series_query.known();
    let to = series_query.query.to;
    let mut samples = series_query.read_from(series_query.query.from, steps);
    let mut left = count;
    while left > 0 {
        let Some(sample) = samples.next(steps) else {
            return row_sink;
        };
        if sample.time > to {
            return row_sink;
        }
        row_sink.row(row(&sample));
        left -= 1;
    }
    row_sink
}

/// The row of the last sample, if the query returns only that.
pub(crate) fn only_last_row<L: Ledger>(
    series_query: &SeriesQuery<'_>,
    steps: &mut Steps<L>,
) -> Option<Row>
    requires backward { series_query.now.query.now.reverse ≡ true }
    ensures row { ForSome result (λ row. queried_rows series_query.now ≡ row_of row ∷ []) }
    ensures steps { steps.new ≡ steps.old }
{
    let count = small_count(series_query)?;
    if count != 1 {
        return None;
    }
    let query = series_query.query;
    let last = series_query.last(steps)?;
    if last.time < query.from {
        return None;
    }
    if last.time > query.to {
        return None;
    }
    Some(row(&last))
}

// The row of a sample.
fn row(sample: &Sample) -> Row
    ensures { row_of result ≡ row_of_sample sample.now }
{
    Row {
        time: sample.time,
        value: Cell::Number(sample.value),
    }
}

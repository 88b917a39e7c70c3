// The reduced rows of a group.
ghost use Rattle.std.specs.Prelude.{◌≡◌, ◌≤◌, List, ◌∷◌, ◌++◌, [], length, map, MatchOption, IfOk};
ghost use Rattle.ts_spec.specs.Answer.{Row as TheRow, limit_rows};
ghost use Rattle.ts_spec.specs.Sample.{MAX_TIME};
ghost use Rattle.ts_range.specs.Query.{cell_of, row_of};
ghost use Rattle.ts_range.specs.AskedSamples.{most_of};
ghost use Rattle.ts_group.specs.Rows.{cell_of_summary, rows_of_summaries};
ghost use Rattle.ts_group.specs.Summaries.{AreTimely};

use crate::summaries::{Summaries, SummaryIter};
use std::alloc::{AllocError, Global};
use std::marker::Model;
use ts_agg::{Reducer, Running, aggregator_of};
use ts_range::{Row, RowList, RowSink};
use ts_sample::Cell;

/// An iterator over the reduced rows of a group.
#[derive(Drop)]
pub struct GroupRows<'a> {
    times: SummaryIter<'a>,
    // How many more rows it yields, and whether from the end.
    left: usize,
    reverse: bool,
    reducer: Reducer,
}

impl<'a> Model for GroupRows<'a> {
    ghost use Rattle.std.specs.Prelude.{List, take};
    ghost use Rattle.ts_spec.specs.Answer.{Row as TheRow};
    ghost use Rattle.ts_group.specs.Rows.{rows_of_summaries};

    ghost Value = { List TheRow };

    ghost view = { λ g. take g.left (rows_of_summaries g.reducer g.reverse g.times) };

    ghost use Rattle.ts_group.specs.Rows.{AreInPart};

    ghost invariant = { λ g. AreInPart g.left g.times };
}

impl<'a> GroupRows<'a> {
    // The rows of these times, at most `count`.
    pub(crate) fn new(
        kept: &'a Summaries,
        reducer: Reducer,
        count: Option<u64>,
        reverse: bool,
    ) -> GroupRows<'a>
        requires { AreTimely kept.now }
        ensures { result ≡ limit_rows count (rows_of_summaries reducer reverse kept.now) }
    {
        GroupRows {
            times: kept.iter(),
            left: at_most(count, kept.len()),
            reverse,
            reducer,
        }
    }

    /// The number of remaining rows.
    pub fn len(&self) -> usize
        ensures { result ≡ length self.now }
    {
        self.left
    }

    /// The next row, if any remains.
    pub fn next(&mut self) -> Option<Row>
        ensures { MatchOption result ((self.old ≡ []) × (self.new ≡ [])) (λ row. self.old ≡ row_of row ∷ self.new) }
    {
        let left = self.left.checked_sub(1)?;
        let row = next_row(&mut self.times, self.reducer, self.reverse)?;
        self.left = left;
        Some(row)
    }

    /// Emits the remaining rows to a sink.
    pub fn emit_rows<T: RowSink>(mut self, row_sink: &mut T)
        ensures limit { T.limit row_sink.new ≡ T.limit row_sink.old }
        ensures taken { (before : List TheRow) → T.has row_sink.old before → T.has row_sink.new (before ++ self.entry) }
    {
        while let Some(row) = self.next() {
            row_sink.row(row);
        }
    }

    /// Collects the remaining rows into a list.
    pub fn collect_rows(self, alloc: Global) -> Result<Vec<Row>, AllocError>
        ensures { IfOk result (λ list. map row_of list.items ≡ self.entry) }
    {
        let mut row_sink = RowList::with_reserved(alloc, self.len())?;
        self.emit_rows(&mut row_sink);
        row_sink.into_rows()
    }
}

// The number of rows, at most `count`.
fn at_most(count: Option<u64>, rows: usize) -> usize
    ensures { result ≡ most_of count rows }
{
    match count {
        None => rows,
        Some(count) => rows.min(count as usize),
    }
}

// The row of the next time, from either end.
fn next_row(times: &mut SummaryIter<'_>, reducer: Reducer, reverse: bool) -> Option<Row>
    requires { AreTimely times.old }
    ensures row { MatchOption result (times.old ≡ []) (λ row. rows_of_summaries reducer reverse times.old
        ≡ row_of row ∷ rows_of_summaries reducer reverse times.new) }
    ensures timely { AreTimely times.new }
{
    if reverse {
        let (time, running) = times.next_back()?;
        return Some(row_at(time, reducer, running));
    }
    let (time, running) = times.next()?;
    Some(row_at(time, reducer, running))
}

// The row of a time.
fn row_at(time: u64, reducer: Reducer, running: &Running) -> Row
    requires { time ≤ MAX_TIME }
    ensures time { result.time ≡ time }
    ensures value { cell_of result.value ≡ cell_of_summary reducer running.now }
{
    Row {
        time,
        value: cell_at(reducer, running),
    }
}

// The reduced value of a time, NaN if all its rows are NaN.
fn cell_at(reducer: Reducer, running: &Running) -> Cell
    ensures { cell_of result ≡ cell_of_summary reducer running.now }
{
    match running.result(aggregator_of(reducer)) {
        None => Cell::Nan,
        Some(value) => Cell::Number(value),
    }
}

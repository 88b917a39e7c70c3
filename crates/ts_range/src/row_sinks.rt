// Sinks that receive the rows of an answer: the traits, a list, and one with a limit.
ghost use Rattle.std.specs.Prelude.{◌≡◌, true, List, [], ◌∷◌, ◌++◌, ◌≤◌, false, map, IfOk, OnOk, None};
ghost use Rattle.ts_spec.specs.Answer.{Row as TheRow, limit_rows};
ghost use Rattle.ts_range.specs.Query.{row_of, cell_of};
ghost use Rattle.ts_range.specs.SinkState.{Limit, HoldsUnlessLost, no_limit, IsFirstOf};
ghost use Rattle.ts_spec.specs.Sample.{MAX_TIME};

use crate::query::Row;
use std::alloc::{AllocError, Global};
use ts_sample::Cell;

/// Receives the rows of an answer one by one. A sink that runs out of memory remembers that and ignores further rows.
pub trait RowSink: Drop {
    // Whether the sink has received these rows. Any list qualifies once memory has run out.
    ghost has: { Self → List TheRow → Type 0 };

    // What limits the rows that it passes on: a maximum number, or the buckets whose gaps it fills.
    ghost limit: { Self → Limit };

    /// Accepts the next row.
    fn row(&mut self, row: Row)
        ensures taken { (rows : List TheRow) → has self.old rows → has self.new (rows ++ row_of row ∷ []) }
        ensures limit { limit self.new ≡ limit self.old };

    /// Whether further rows would change nothing.
    fn is_full(&self) -> bool
        ensures { result ≡ true → (rows more : List TheRow) → has self.now rows → has self.now (rows ++ more) };
}

/// A sink that stores rows, and so may run out of memory.
pub trait FallibleRowSink: RowSink {
    /// Records that memory ran out for a row.
    fn lose(&mut self)
        ensures { (rows : List TheRow) → Self.has self.new rows };
}

/// A list of the received rows, in order.
#[derive(Drop)]
pub struct RowList {
    rows: Vec<Row>,
    // Whether memory ran out for a row.
    lost: bool,
}

impl RowList {
    /// An empty list with capacity for `count` rows. Fails if there is no memory.
    pub fn with_reserved(alloc: Global, count: usize) -> Result<RowList, AllocError>
        ensures { IfOk result (λ t. HoldsUnlessLost t.lost t.rows.items []) }
    {
        Ok(RowList {
            rows: Vec::with_capacity(alloc, count)?,
            lost: false,
        })
    }

    /// The received rows. Fails if memory ran out for one of them.
    pub fn into_rows(self) -> Result<Vec<Row>, AllocError>
        ensures { (rows : List TheRow) → HoldsUnlessLost self.lost self.rows.items rows
            → IfOk result (λ taken. map row_of taken.items ≡ rows) }
    {
        let RowList { rows, lost } = self;
        if lost {
            return Err(AllocError);
        }
        Ok(rows)
    }
}

impl RowSink for RowList {
    ghost has = { λ t rows. HoldsUnlessLost t.lost t.rows.items rows };

    ghost limit = { λ t. no_limit };

    fn row(&mut self, row: Row) {
        if self.lost {
            return;
        }
        match add(&mut self.rows, row.time, row.value) {
            Ok(()) => {}
            Err(_) => self.lost = true,
        }
    }

    fn is_full(&self) -> bool {
        self.lost
    }
}

impl FallibleRowSink for RowList {
    fn lose(&mut self) {
        self.lost = true;
    }
}

fn add(rows: &mut Vec<Row>, time: u64, value: Cell) -> Result<(), AllocError>
    requires { time ≤ MAX_TIME }
    ensures { OnOk result (map row_of rows.new.items
        ≡ map row_of rows.old.items ++ record { time = time; value = cell_of value } ∷ []) }
{
    rows.push(Row { time, value })?;
    Ok(())
}

#[derive(Drop)]
pub struct Limited<T: RowSink> {
    row_sink: T,
    // The maximum number of rows, and how many more it accepts.
    count: Option<u64>,
    left: Option<u64>,
}

impl<T: RowSink> Limited<T> {
    /// Passes on at most `count` rows, or all of them if `None`.
    pub fn new(row_sink: T, count: Option<u64>) -> Limited<T>
        requires { T.has row_sink [] }
        ensures taken { IsFirstOf (T.has result.row_sink) result.count result.left [] }
        ensures count { result.count ≡ count }
    {
        Limited {
            row_sink,
            count,
            left: count,
        }
    }

    /// The inner sink.
    pub fn into_row_sink(self) -> T
        ensures { (rows : List TheRow) → IsFirstOf (T.has self.row_sink) self.count self.left rows
            → T.has result (limit_rows self.count rows) }
    {
        let Limited {
            row_sink,
            count: _,
            left: _,
        } = self;
        row_sink
    }
}

impl<T: RowSink> RowSink for Limited<T> {
    ghost has = { λ t rows. IsFirstOf (T.has t.row_sink) t.count t.left rows };

    ghost limit = { λ t. record { count = t.count; filling = None } };

    fn row(&mut self, row: Row) {
        match self.left {
            None => self.row_sink.row(row),
            Some(0) => {}
            Some(left) => {
                self.left = Some(left - 1);
                self.row_sink.row(row);
            }
        }
    }

    fn is_full(&self) -> bool {
        self.left == Some(0)
    }
}

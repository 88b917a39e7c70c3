// Queries over all times, and helpers for their samples and rows.
ghost use Rattle.std.specs.Prelude.{◌≡◌, ◌≤◌};
ghost use Rattle.ts_spec.specs.Sample.{MAX_TIME, IsAscending, between};

use std::alloc::Global;
use ts_agg::Aggregator;
use ts_bucket::{Grid, Stamp};
use ts_range::{Asked, Buckets, Query, RangeFault, Row, answer};
use ts_sample::{Cell, MAX_TIME, Sample, Units};

pub(crate) fn units(millionths: i128) -> Units {
    Units::new(millionths).unwrap_or(Units::ZERO)
}

pub(crate) fn sample(time: u64, millionths: i128) -> Sample
    requires { time ≤ MAX_TIME }
    ensures { result.time ≡ time }
{
    Sample {
        time,
        value: units(millionths),
        made: 0,
    }
}

pub(crate) fn row(time: u64, millionths: i128) -> Row
    requires { time ≤ MAX_TIME }
{
    row_of_cell(time, Some(millionths))
}

// A row with a value, or without one.
pub(crate) fn row_of_cell(time: u64, millionths: Option<i128>) -> Row
    requires { time ≤ MAX_TIME }
{
    let value = match millionths {
        Some(millionths) => Cell::Number(units(millionths)),
        None => Cell::Nan,
    };
    Row { time, value }
}

// A query over all times.
pub(crate) fn query(count: Option<u64>, buckets: Option<Buckets>, reverse: bool) -> Query
    ensures from { result.from ≡ 0 }
    ensures to { result.to ≡ MAX_TIME }
{
    Query {
        from: 0,
        to: MAX_TIME,
        times: None,
        values: None,
        count,
        buckets,
        reverse,
    }
}

pub(crate) fn buckets(agg: Aggregator, align: u64, stamp: Stamp, empty: bool) -> Option<Buckets> {
    let grid = Grid::new(align, 10)?;
    Some(Buckets {
        grid,
        agg,
        stamp,
        empty,
    })
}

// The rows of a query over these samples, which are the whole series.
pub(crate) fn ask(query: &Query, rows: Vec<Sample>, limit: u32) -> Result<Vec<Row>, RangeFault>
    requires ascending { IsAscending rows.items }
    requires within { between query.now.from query.now.to rows.items ≡ rows.items }
{
    let alloc = *rows.allocator();
    let ends = match (rows.first(), rows.last()) {
        (Some(first), Some(last)) => Some((first.time, last.time)),
        _ => None,
    };
    let asked = Asked {
        rows,
        prior: None,
        ahead: None,
        ends,
    };
    answer(alloc, query, &asked, limit)
}

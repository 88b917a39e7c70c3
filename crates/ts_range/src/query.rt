// A query over one series, the rows that answer it, and why it fails.
ghost use Rattle.std.specs.Prelude.{◌≤◌, All, Some};
ghost use Rattle.std.specs.Option.{ForSome};
ghost use Rattle.ts_spec.specs.Sample.{MAX_TIME};
ghost use Rattle.ts_range.specs.FaultNames.{name_of};

use std::alloc::AllocError;
use std::fmt;
use thiserror::Error;
use ts_agg::Aggregator;
use ts_bucket::{Grid, Stamp};
use ts_sample::{Cell, Sample, Units};

/// The buckets that a query aggregates into.
#[derive(Clone, Copy, Debug, PartialEq, Eq)]
pub struct Buckets {
    pub grid: Grid,
    /// How the samples of a bucket are aggregated.
    pub agg: Aggregator,
    /// Which time of a bucket its row shows.
    pub stamp: Stamp,
    /// Whether empty buckets get rows too (EMPTY).
    pub empty: bool,
}

/// A range query. Times are in milliseconds, at most `MAX_TIME`.
#[derive(Debug, Drop)]
pub struct Query {
    /// The first time of the interval.
    pub from: u64,
    /// The last time of the interval, included.
    pub to: u64,
    /// If given, only samples at these times pass (FILTER_BY_TS), in any order.
    pub times: Option<Vec<u64>>,
    /// If given, only values between these two pass, both included (FILTER_BY_VALUE).
    pub values: Option<(Units, Units)>,
    /// The maximum number of rows (COUNT).
    pub count: Option<u64>,
    /// The buckets to aggregate into. `None` returns the samples themselves.
    pub buckets: Option<Buckets>,
    /// Whether the newest row comes first.
    pub reverse: bool,
    ghost from_fits: { from ≤ MAX_TIME },
    ghost to_fits: { to ≤ MAX_TIME },
    ghost times_fit: { ForSome times (λ ts. All (λ t. t ≤ MAX_TIME) ts.items) },
}

/// A row of an answer.
#[derive(Clone, Copy, Debug, PartialEq, Eq)]
pub struct Row {
    /// In milliseconds, at most `MAX_TIME`.
    pub time: u64,
    pub value: Cell,
    ghost time_fits: { time ≤ MAX_TIME },
}

/// The samples of a series that a query needs. Those around the interval matter only for a query with EMPTY.
#[derive(Debug, Drop)]
pub struct Asked {
    /// The samples in the interval, in ascending time.
    pub rows: Vec<Sample>,
    /// The last sample before the interval.
    pub prior: Option<Sample>,
    /// The last sample before the first bucket of the answer. That bucket contains the start of the interval, or the
    /// first sample if that is later.
    pub ahead: Option<Sample>,
    /// The times of the first and the last sample of the series, in milliseconds.
    pub ends: Option<(u64, u64)>,
}

/// Why a query fails.
#[derive(Drop, Error)]
pub enum RangeFault {
    /// The query asks for empty buckets, and its answer exceeds the row limit.
    #[error("too many rows")]
    EmptyRows,
    /// There is no memory for the answer.
    #[error(transparent)]
    Memory(AllocError),
}

impl fmt::Debug for RangeFault {
    ghost debug_output = { λ fault. Some (name_of fault) };

    fn fmt<W: fmt::Write>(&self, f: &mut fmt::Formatter<W>) -> fmt::Result {
        f.write_str(match self {
            RangeFault::EmptyRows => "EmptyRows",
            RangeFault::Memory(_) => "Memory(AllocError)",
        })
    }
}

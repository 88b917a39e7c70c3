// How to fill gaps: the buckets of an answer with EMPTY, their limit, and the values of the empty ones.
ghost use Rattle.std.specs.Prelude.{◌≡◌, ◌≤◌, ◌<◌, ◌+◌, ◌^◌, IfNone, IfSome, Some, Option, length, option_map};
ghost use Rattle.std.specs.Prelude.{slice_get, ◌&&◌, List, nat_lt, IsTrue};
ghost use Rattle.ts_spec.specs.Sample.{MAX_TIME, Point, IsAscending, first_of, last_of};
ghost use Rattle.ts_spec.specs.Answer.{Cell as TheCell};
ghost use Rattle.ts_spec.specs.Bucket.{stamp};
ghost use Rattle.ts_spec.specs.Answer as spec;
ghost use Rattle.ts_range.specs.Query.{cell_of, query_of};
ghost use Rattle.ts_range.specs.Empty.{empty_cell_of, known_before};
ghost use Rattle.ts_range.specs.BucketRanges.{FillsGaps};
ghost use Rattle.ts_range.specs.FillPlan.{fill_value_after, value_or_fill, fill_value_at};
ghost use Rattle.ts_range.specs.Starts.{starts_of};
ghost use Rattle.ts_range.specs.AskedSamples.{times_of};

use crate::query::{Asked, Buckets, Query, Row};
use crate::starts::Starts;
use ts_agg::Aggregator;
use ts_sample::{Cell, Sample, Units, lower_bound};

// The buckets to emit, and the values of empty ones before the first bucket with samples.
#[derive(Clone, Copy)]
pub(crate) struct FillPlan {
    pub(crate) buckets: Buckets,
    pub(crate) starts: Starts,
    // The value of the first bucket if it is empty, and that of the others.
    pub(crate) first: Cell,
    pub(crate) others: Cell,
}

// How far the rows have been emitted.
#[derive(Clone, Copy)]
pub(crate) struct Place {
    // The number of buckets emitted so far.
    pub(crate) told: u64,
    // The last emitted value, for aggregators whose empty buckets repeat it.
    pub(crate) last: Option<Cell>,
}

impl FillPlan {
    // The start of the next bucket, in milliseconds, if one is left.
    pub(crate) fn next(&self, place: &Place) -> Option<u64>
        ensures some { IfSome result (λ start. slice_get (starts_of self.now.starts) place.now.told ≡ Some start) }
        ensures time { IfSome result (λ start. start ≤ MAX_TIME) }
        ensures few { length (starts_of self.now.starts) < 2 ^ 64 }
        ensures none { IfNone result (length (starts_of self.now.starts) ≤ place.now.told) }
    {
        if place.told < self.starts.wanted(None) {
            Some(self.starts.at(false, place.told))
        } else {
            None
        }
    }

    // The start of the bucket after that, if there is one.
    pub(crate) fn after(&self, place: &Place) -> Option<u64>
        requires { place.now.told < length (starts_of self.now.starts) }
        ensures some { IfSome result (λ start. slice_get (starts_of self.now.starts) (place.now.told + 1)
            ≡ Some start) }
        ensures within { IfSome result (λ start. place.now.told + 1 < length (starts_of self.now.starts)) }
        ensures few { length (starts_of self.now.starts) < 2 ^ 64 }
        ensures none { IfNone result (length (starts_of self.now.starts) ≤ place.now.told + 1) }
    {
        let count = self.starts.wanted(None);
        let next = place.told + 1;
        if next < count {
            Some(self.starts.at(false, next))
        } else {
            None
        }
    }

    // The value of the next bucket if it is empty.
    pub(crate) fn says(&self, place: &Place) -> Cell
        ensures { cell_of result
            ≡ fill_value_at place.now.told (cell_of self.now.first)
            (value_or_fill (cell_of self.now.others) (option_map cell_of place.now.last)) }
    {
        if place.told == 0 {
            return self.first;
        }
        match place.last {
            None => self.others,
            Some(value) => value,
        }
    }

    // The row of the bucket that begins at `start`.
    pub(crate) fn row(&self, start: u64, value: Cell) -> Row
        requires { start ≤ MAX_TIME }
        ensures time { result.time ≡ stamp self.now.buckets.grid start self.now.buckets.stamp }
        ensures value { result.value ≡ value }
    {
        Row {
            time: self.buckets.grid.stamp(start, self.buckets.stamp),
            value,
        }
    }

    // The value that empty buckets repeat after a bucket with this value.
    pub(crate) fn last_after(&self, place: &Place, value: &Cell) -> Option<Cell>
        ensures { (others : TheCell)
            → value_or_fill others (option_map cell_of result)
            ≡ fill_value_after self.now.buckets.agg (value_or_fill others (option_map cell_of place.now.last))
            (cell_of value.now) }
    {
        match self.buckets.agg {
            Aggregator::Last => Some(*value),
            _ => place.last,
        }
    }
}

// The value of an empty bucket whose last earlier sample is `before`: 0 for sums and counts, that sample's value for
// LAST, else NaN.
pub(crate) fn empty_cell(agg: Aggregator, before: Option<Sample>) -> Cell
    ensures { cell_of result ≡ empty_cell_of agg before }
{
    match agg {
        Aggregator::Sum | Aggregator::Count => Cell::Number(Units::ZERO),
        Aggregator::Last => match before {
            Some(sample) => Cell::Number(sample.value),
            None => Cell::Nan,
        },
        _ => Cell::Nan,
    }
}

/// The buckets that a query fills with rows, also those without samples. `None` if it has no EMPTY.
pub fn gap_filling_buckets(query: &Query) -> Option<Buckets>
    ensures some { IfSome result (FillsGaps query.now) }
    ensures none { IfNone result ((buckets : Buckets) → FillsGaps query.now buckets → ⊥) }
{
    let buckets = query.buckets?;
    if buckets.empty { Some(buckets) } else { None }
}

/// Whether the query asks for empty buckets and its answer has more than `limit` rows. `ends` are the times of the
/// first and the last sample of the series, in milliseconds.
pub fn are_too_many(query: &Query, ends: Option<(u64, u64)>, limit: u32) -> bool
    ensures { (l : List Point)
        → (IsTrue (spec.includes_empty (query_of query.now).buckets) → ends ≡ times_of (first_of l) (last_of l))
        → result ≡ (spec.includes_empty (query_of query.now).buckets
        && nat_lt limit (length (spec.rows (query_of query.now) l))) }
{
    let Some(buckets) = &query.buckets else {
        return false;
    };
    if !buckets.empty {
        return false;
    }
    match Starts::over(query, &buckets.grid, ends) {
        None => false,
        Some(starts) => u64::from(limit) < starts.wanted(query.count),
    }
}

// The last sample before `start`, from the collected samples. `first` says that `start` begins the first bucket.
pub(crate) fn before(asked: &Asked, start: u64, first: bool) -> Option<Sample>
    requires { IsAscending asked.now.rows.items }
    ensures { result ≡ known_before first start asked.now }
{
    if first {
        return asked.ahead;
    }
    let samples = asked.rows.as_slice();
    match samples[..lower_bound(samples, start)].last() {
        Some(sample) => Some(*sample),
        None => asked.prior,
    }
}

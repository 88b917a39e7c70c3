// The range of buckets that an answer with EMPTY covers.
ghost use Rattle.std.specs.Prelude.{◌≡◌, ◌≤◌, ℕ, [], map, IfNone, IfSome};
ghost use Rattle.ts_spec.specs.Sample.{MAX_TIME};
ghost use Rattle.ts_spec.specs.Bucket.{start as start_of};
ghost use Rattle.ts_spec.specs.Answer.{Row as TheRow, starts_between, limit_rows, in_requested_order};
ghost use Rattle.ts_range.specs.Starts.{starts_within};

use crate::fill_plan::{FillPlan, empty_cell};
use crate::filters::Filters;
use crate::gap_filler::GapFiller;
use crate::last_values::LastValues;
use crate::query::{Buckets, Query};
use crate::row_scan::RowScan;
use crate::row_sinks::RowSink;
use crate::starts::Starts;
use ts_agg::Aggregator;
use ts_bucket::{Grid, Stamp};
use ts_sample::Sample;

/// The consecutive buckets that a query with EMPTY returns, and the part of its interval that lies in them. Times are
/// in milliseconds.
#[derive(Clone, Copy)]
pub struct BucketRange {
    pub(crate) buckets: Buckets,
    // Their starts, in ascending order.
    pub(crate) starts: Starts,
    /// The first time.
    pub from: u64,
    /// The last time, included.
    pub to: u64,
    ghost from_fits: { from ≤ MAX_TIME },
    ghost to_fits: { to ≤ MAX_TIME },
}

impl BucketRange {
    ghost use Rattle.std.specs.Prelude.{◌↔◌, true, false, None, Some, IsTrue};
    ghost use Rattle.ts_spec.specs.declared.bucket.Aggregator.TheVariants.{Last};
    ghost use Rattle.ts_spec.specs.Sample.{Point};
    ghost use Rattle.ts_range.specs.FillPlan.{begun, fill_plan_of};
    ghost use Rattle.ts_range.specs.Filters.{passes};
    ghost use Rattle.ts_range.specs.LastValues.{counts};
    ghost use Rattle.ts_range.specs.Query.{buckets_of};
    ghost use Rattle.ts_range.specs.BucketRanges.{IsBucketRangeOf, fill_plan_with};
    ghost use Rattle.ts_range.specs.RowScanState.{lets};

    /// The bucket range of a query over a series whose first and last sample have the times `ends`. Returns `None` if
    /// the answer has no rows.
    pub fn of(query: &Query, buckets: &Buckets, ends: Option<(u64, u64)>) -> Option<BucketRange>
        ensures bucket_range { IfSome result (λ bucket_range. IsBucketRangeOf query.now buckets.now ends bucket_range) }
        ensures none { IfNone result ((f : ℕ → TheRow)
            → limit_rows query.now.count
            (in_requested_order query.now.reverse
            (map f (starts_within buckets.now.grid query.now.from query.now.to ends))) ≡ []) }
    {
        let (first, last) = ends?;
        let first = query.from.max(first);
        let last = query.to.min(last);
        if last < first {
            return None;
        }
        let grid = &buckets.grid;
        grid.known();
        let (from, upto) = wanted(grid, first, last, query.reverse, query.count)?;
        Some(BucketRange {
            buckets: *buckets,
            starts: Starts::between(grid, from, upto),
            from,
            to: last.min(grid.last_of(upto)),
        })
    }

    /// The start of the first bucket.
    pub fn first(&self) -> u64
        ensures start { result ≡ start_of self.now.buckets.grid self.now.from }
        ensures time { result ≤ MAX_TIME }
    {
        self.buckets.grid.known();
        self.buckets.grid.start_of(self.from)
    }

    /// A scan for the samples from `from` to `to` that also emits the rows of empty buckets. `ahead` is the last sample
    /// before the first bucket, and `prior` the last one before `from`.
    pub fn walk<'f, T: RowSink>(
        &self,
        filters: &'f Filters,
        ahead: Option<Sample>,
        prior: Option<Sample>,
        row_sink: T,
    ) -> RowScan<'f, GapFiller<T>>
        requires { T.has row_sink [] }
        ensures lets { (p : Point) → lets result p ≡ passes filters.now p }
        ensures buckets { result.buckets ≡ Some (begun (buckets_of self.now.buckets)) }
        ensures limit { result.limit ≡ record { count = None; filling = Some (fill_plan_with self.now ahead prior) } }
        ensures seen { result.seen ≡ [] }
    {
        let filled = GapFiller::new(row_sink, self.filling(ahead, prior));
        let begun = Buckets {
            stamp: Stamp::Low,
            ..self.buckets
        };
        RowScan::new(filters, Some(begun), filled)
    }

    /// The same for a query whose empty buckets may repeat a value that the filters drop. The visitor needs all samples
    /// from `from` to `to`.
    pub fn last_values<'f, T: RowSink>(
        &self,
        filters: &'f Filters,
        ahead: Option<Sample>,
        prior: Option<Sample>,
        row_sink: T,
    ) -> LastValues<'f, T>
        requires { T.has row_sink [] }
        ensures filling { result.filling ≡ fill_plan_with self.now ahead prior }
        ensures counts { (p : Point) → counts result p ≡ passes filters.now p }
        ensures seen { result.seen ≡ [] }
    {
        LastValues::new(filters, self.filling(ahead, prior), row_sink)
    }

    /// Whether empty buckets repeat the last value before them.
    pub fn fills_with_last(&self) -> bool
        ensures { IsTrue result ↔ (self.now.buckets.agg ≡ Last) }
    {
        match self.buckets.agg {
            Aggregator::Last => true,
            _ => false,
        }
    }

    /// Whether empty buckets may repeat a value that these filters drop.
    pub fn fills_with_filtered_out(&self, filters: &Filters) -> bool
        ensures last { result ≡ true → self.now.buckets.agg ≡ Last }
        ensures shown { result ≡ false → self.now.buckets.agg ≡ Last → (p : Point) → passes filters.now p ≡ true }
    {
        self.fills_with_last() && !filters.pass_everything()
    }

    // How to fill the gaps of this range.
    fn filling(&self, ahead: Option<Sample>, prior: Option<Sample>) -> FillPlan
        ensures { fill_plan_of result ≡ fill_plan_with self.now ahead prior }
    {
        FillPlan {
            buckets: self.buckets,
            starts: self.starts,
            first: empty_cell(self.buckets.agg, ahead),
            others: empty_cell(self.buckets.agg, prior),
        }
    }
}

// A time in the first bucket to return and one in the last, given the limit `count`.
fn wanted(
    grid: &Grid,
    first: u64,
    last: u64,
    reverse: bool,
    count: Option<u64>,
) -> Option<(u64, u64)>
    requires ordered { first ≤ last }
    requires time { last ≤ MAX_TIME }
    ensures rows { IfSome result (λ part. (f : ℕ → TheRow)
        → limit_rows count (in_requested_order reverse (map f (starts_between grid.now first last)))
        ≡ in_requested_order reverse (map f (starts_between grid.now part.0 part.1))) }
    ensures ordered { IfSome result (λ part. (first ≤ part.0) × (part.0 ≤ part.1) × (part.1 ≤ last)) }
    ensures whole { IfSome result (λ part. (t : ℕ) → first ≤ t → start_of grid.now part.0 ≤ start_of grid.now t
        → part.0 ≤ t) }
    ensures none { IfNone result ((f : ℕ → TheRow)
        → limit_rows count (in_requested_order reverse (map f (starts_between grid.now first last))) ≡ []) }
{
    grid.known();
    let starts = Starts::between(grid, first, last);
    let all = starts.wanted(None);
    let some = starts.wanted(count);
    if some == 0 {
        return None;
    }
    if some == all {
        return Some((first, last));
    }
    if reverse {
        return Some((starts.at(false, all - some), last));
    }
    Some((first, first.max(starts.at(false, some - 1))))
}

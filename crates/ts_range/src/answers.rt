// Answers a query from samples that were collected before.
ghost use Rattle.std.specs.Prelude.{◌≡◌, ◌≢◌, ◌≤◌, ◌^◌, List, [], map, reverse, Some, IfOk, IfErr, OnOk};
ghost use Rattle.ts_spec.specs.Sample.{Point, IsAscending, between};
ghost use Rattle.ts_spec.specs.Answer as spec;
ghost use Rattle.ts_sample.specs.Visit.{visited};
ghost use Rattle.ts_range.specs.Filters.{passes};
ghost use Rattle.ts_range.specs.Query.{query_of, row_of};
ghost use Rattle.ts_range.specs.BucketRanges.{FillsGaps, IsBucketRangeOf};
ghost use Rattle.ts_range.specs.AskedSamples.{IsAskedOf};
ghost use Rattle.ts_range.specs.SinkState.{HoldsUnlessLost};

use crate::bucket_range::BucketRange;
use crate::fill_plan::{are_too_many, before, gap_filling_buckets};
use crate::filters::Filters;
use crate::query::{Asked, Buckets, Query, RangeFault, Row};
use crate::row_scan::RowScan;
use crate::row_sinks::RowList;
use std::alloc::{AllocError, Global};
use ts_sample::{Sample, Visit, index_range};

/// Answers `query` from the collected samples `asked`. `empty_rows` limits the rows of a query with EMPTY. Fails with
/// `EmptyRows` above that limit, and with `Memory` if memory runs out.
pub fn answer(
    alloc: Global,
    query: &Query,
    asked: &Asked,
    empty_rows: u32,
) -> Result<Vec<Row>, RangeFault>
    requires ascending { IsAscending asked.now.rows.items }
    requires within { between query.now.from query.now.to asked.now.rows.items ≡ asked.now.rows.items }
    ensures rows { (l : List Point) → IsAscending l → IsAskedOf query.now asked.now l
        → IfOk result (λ rows. map row_of rows.items ≡ spec.rows (query_of query.now) l) }
    ensures limit { (l : List Point) → IsAscending l → IsAskedOf query.now asked.now l
        → IfOk result (λ rows. spec.answer empty_rows (query_of query.now) l
        ≡ Some (map row_of rows.items)) }
    ensures refused { (l : List Point) → IsAscending l → IsAskedOf query.now asked.now l
        → IfErr result (λ fault. fault ≡ RangeFault.EmptyRows
        → spec.answer empty_rows (query_of query.now) l ≡ None) }
    ensures memory { (l : List Point) → IsAscending l → IsAskedOf query.now asked.now l
        → IfErr result (λ fault. fault ≢ RangeFault.EmptyRows
        → spec.answer empty_rows (query_of query.now) l ≢ None) }
{
    if are_too_many(query, asked.ends, empty_rows) {
        return Err(RangeFault::EmptyRows);
    }
    match rows(alloc, query, asked) {
        Ok(rows) => Ok(rows),
        Err(fault) => Err(RangeFault::Memory(fault)),
    }
}

// All rows of the answer, without the limit on empty buckets.
fn rows(alloc: Global, query: &Query, asked: &Asked) -> Result<Vec<Row>, AllocError>
    requires ascending { IsAscending asked.now.rows.items }
    requires within { between query.now.from query.now.to asked.now.rows.items ≡ asked.now.rows.items }
    ensures { (l : List Point) → IsAscending l → IsAskedOf query.now asked.now l
        → IfOk result (λ rows. map row_of rows.items ≡ spec.rows (query_of query.now) l) }
{
    let filters = Filters::of(query)?;
    let row_sink = RowList::with_reserved(alloc, 0)?;
    let Some(buckets) = gap_filling_buckets(query) else {
        let mut walk = RowScan::new(&filters, query.buckets, row_sink);
        visit_all(&asked.rows, &mut walk)?;
        let rows = walk.finish().into_rows()?;
        return Ok(in_order(rows, query.reverse, query.count));
    };
    let Some(bucket_range) = BucketRange::of(query, &buckets, asked.ends) else {
        return Ok(Vec::new(alloc));
    };
    let rows = bucket_range_rows(query, &bucket_range, &filters, asked, row_sink)?;
    Ok(in_order(rows, query.reverse, None))
}

// The rows of a bucket range, oldest first.
fn bucket_range_rows(
    query: &Query,
    bucket_range: &BucketRange,
    filters: &Filters,
    asked: &Asked,
    row_sink: RowList,
) -> Result<Vec<Row>, AllocError>
    requires lets { (p : Point) → passes filters.now p ≡ spec.passes_filters (query_of query.now) p }
    requires ascending { IsAscending asked.now.rows.items }
    requires none { HoldsUnlessLost row_sink.lost row_sink.rows.items [] }
    ensures { (l : List Point) (buckets : Buckets) → IsAscending l → IsAskedOf query.now asked.now l
        → FillsGaps query.now buckets
        → IsBucketRangeOf query.now buckets asked.now.ends bucket_range.now
        → IfOk result (λ rows. spec.in_requested_order query.now.reverse (map row_of rows.items)
        ≡ spec.rows (query_of query.now) l) }
{
    let first = bucket_range.first();
    let ahead = before(asked, first, first < query.from);
    let prior = before(asked, bucket_range.from, false);
    let samples = asked.rows.as_slice();
    let samples = &samples[index_range(samples, bucket_range.from, bucket_range.to)];
    if bucket_range.fills_with_filtered_out(filters) {
        let mut line = bucket_range.last_values(filters, ahead, prior, row_sink);
        visit_all(samples, &mut line)?;
        return line.finish().into_rows();
    }
    let mut walk = bucket_range.walk(filters, ahead, prior, row_sink);
    visit_all(samples, &mut walk)?;
    walk.finish().into_row_sink().into_rows()
}

// The most samples that a scan accepts. No memory could hold as many.
const MOST: usize = 100_000_000_000_000;

// Shows all samples to a visitor, in order. Fails if they are more than a scan accepts.
fn visit_all<V: Visit>(samples: &[Sample], visit: &mut V) -> Result<(), AllocError>
    requires { 10 ^ 14 ≤ V.room visit.old }
    ensures { OnOk result (visit.new ≡ visited V.step visit.old samples.now) }
{
    if samples.len() > MOST {
        return Err(AllocError);
    }
    for sample in samples {
        visit.sample(sample);
    }
    Ok(())
}

// At most the first `count` rows, newest first if `reverse`. The given rows are oldest first.
fn in_order(rows: Vec<Row>, reverse: bool, count: Option<u64>) -> Vec<Row>
    ensures { map row_of result.items
        ≡ spec.limit_rows count (spec.in_requested_order reverse (map row_of rows.items)) }
{
    if reverse {
        return in_requested_order(rows, count);
    }
    first(rows, count)
}

/// Reverses the rows and keeps at most the first `count`.
pub fn in_requested_order(mut rows: Vec<Row>, count: Option<u64>) -> Vec<Row>
    ensures { map row_of result.items ≡ spec.limit_rows count (reverse (map row_of rows.items)) }
{
    rows.reverse();
    first(rows, count)
}

// Keeps at most the first `count` rows.
fn first(mut rows: Vec<Row>, count: Option<u64>) -> Vec<Row>
    ensures { map row_of result.items ≡ spec.limit_rows count (map row_of rows.items) }
{
    if let Some(count) = count {
        rows.truncate(count as usize);
    }
    rows
}

// The current bucket of a scan: its span and the tally of its samples.
ghost use Rattle.std.specs.Prelude.{◌≡◌, ℕ, ◌<◌, ◌≤◌};
ghost use Rattle.ts_spec.specs.Sample.{MAX_TIME};
ghost use Rattle.ts_spec.specs.Bucket.{start as start_of, stamp};
ghost use Rattle.ts_bucket.specs.Grid.{IsLastOf};
ghost use Rattle.ts_range.specs.Spans.{IsSpan};

use crate::query::{Buckets, Row};
use crate::row_sinks::RowSink;
use ts_agg::Tally;
use ts_bucket::{Grid, Stamp};
use ts_sample::{Cell, MAX_TIME, Sample};

#[derive(Clone, Copy)]
pub(crate) struct Bucket {
    // The first and the last time of the bucket, in milliseconds.
    pub(crate) start: u64,
    pub(crate) last: u64,
    // The aggregate of its samples so far.
    pub(crate) tally: Tally,
    ghost start_fits: { start ≤ MAX_TIME },
    ghost last_fits: { last ≤ MAX_TIME },
}

impl Bucket {
    ghost use Rattle.std.specs.Prelude.{List, [], ◌∷◌, ◌++◌};
    ghost use Rattle.ts_spec.specs.Sample.{Point};
    ghost use Rattle.ts_spec.specs.Answer.{Row as TheRow};
    ghost use Rattle.ts_agg.specs.Tally.{IsTallyOf, counted};
    ghost use Rattle.ts_range.specs.Query.{buckets_of};
    ghost use Rattle.ts_range.specs.BucketRows.{row_with};

    // Starts the bucket of `sample`, with that sample in it.
    pub(crate) fn of(buckets: &Buckets, sample: &Sample) -> Bucket
        ensures span { IsSpan buckets.now.grid result.start result.last }
        ensures start { result.start ≡ start_of buckets.now.grid sample.now.time }
        ensures tells { IsTallyOf buckets.now.agg result.tally (sample.now ∷ []) }
        ensures one { counted result.tally ≤ 1 }
    {
        let (start, last) = span_of(&buckets.grid, sample.time);
        Bucket {
            start,
            last,
            tally: Tally::of(buckets.agg, sample),
        }
    }

    // Starts the bucket of a sample after this bucket, with that sample in it.
    #[inline]
    pub(crate) fn after(&self, buckets: &Buckets, sample: &Sample) -> Bucket
        requires { self.now.last < sample.now.time }
        ensures span { IsSpan buckets.now.grid self.now.start self.now.last
            → IsSpan buckets.now.grid result.start result.last }
        ensures start { IsSpan buckets.now.grid self.now.start self.now.last
            → result.start ≡ start_of buckets.now.grid sample.now.time }
        ensures tells { IsTallyOf buckets.now.agg result.tally (sample.now ∷ []) }
        ensures one { counted result.tally ≤ 1 }
    {
        let (start, last) = span_past(self.last, &buckets.grid, sample.time);
        Bucket {
            start,
            last,
            tally: Tally::of(buckets.agg, sample),
        }
    }

    // Emits the row of this bucket and starts the bucket of `sample`. It runs once per bucket, so it stays out of the
    // code that runs once per sample.
    #[inline(never)]
    pub(crate) fn emit_and_advance<T: RowSink>(
        &mut self,
        buckets: &Buckets,
        sample: &Sample,
        row_sink: &mut T,
    )
        requires { self.old.last < sample.now.time }
        ensures limit { T.limit row_sink.new ≡ T.limit row_sink.old }
        ensures row { (ps : List Point) → IsTallyOf buckets.now.agg self.old.tally ps
            → start_of buckets.now.grid self.old.start ≡ self.old.start
            → (rows : List TheRow) → T.has row_sink.old rows
            → T.has row_sink.new (rows ++ row_with (buckets_of buckets.now) self.old.start ps ∷ []) }
        ensures span { IsSpan buckets.now.grid self.old.start self.old.last
            → IsSpan buckets.now.grid self.new.start self.new.last }
        ensures start { IsSpan buckets.now.grid self.old.start self.old.last
            → self.new.start ≡ start_of buckets.now.grid sample.now.time }
        ensures tells { IsTallyOf buckets.now.agg self.new.tally (sample.now ∷ []) }
        ensures one { counted self.new.tally ≤ 1 }
    {
        self.emit_row(buckets, row_sink);
        *self = self.after(buckets, sample);
    }

    // Emits the row of this bucket.
    #[inline]
    pub(crate) fn emit_row<T: RowSink>(&self, buckets: &Buckets, row_sink: &mut T)
        ensures limit { T.limit row_sink.new ≡ T.limit row_sink.old }
        ensures row { (ps : List Point) → IsTallyOf buckets.now.agg self.now.tally ps
            → start_of buckets.now.grid self.now.start ≡ self.now.start
            → (rows : List TheRow) → T.has row_sink.old rows
            → T.has row_sink.new (rows ++ row_with (buckets_of buckets.now) self.now.start ps ∷ []) }
    {
        row_sink.row(Row {
            time: stamp_of(self.start, buckets),
            value: Cell::Number(self.tally.value()),
        });
    }
}

// The first and the last time of the bucket that contains `t`, in milliseconds.
fn span_of(grid: &Grid, t: u64) -> (u64, u64)
    requires { t ≤ MAX_TIME }
    ensures times { (result.0 ≤ MAX_TIME) × (result.1 ≤ MAX_TIME) }
    ensures span { IsSpan grid.now result.0 result.1 }
    ensures start { result.0 ≡ start_of grid.now t }
{
    grid.known();
    let start = grid.start_of(t);
    (start, last_time_of_bucket(grid, start))
}

// The same for a time after a bucket that ends at `last`. Mostly that is the next bucket, which takes one addition.
#[inline]
fn span_past(last: u64, grid: &Grid, t: u64) -> (u64, u64)
    requires past { last < t }
    requires time { t ≤ MAX_TIME }
    ensures times { (result.0 ≤ MAX_TIME) × (result.1 ≤ MAX_TIME) }
    ensures span { (b : ℕ) → IsSpan grid.now b last → IsSpan grid.now result.0 result.1 }
    ensures start { (b : ℕ) → IsSpan grid.now b last → result.0 ≡ start_of grid.now t }
{
    let next = last + 1;
    let end = last_time_of_bucket(grid, next);
    if t <= end {
        return (next, end);
    }
    span_of(grid, t)
}

// The last time of the bucket that begins at `start`. Only the first bucket may be shorter, and needs a division.
#[inline]
fn last_time_of_bucket(grid: &Grid, start: u64) -> u64
    requires { start ≤ MAX_TIME }
    ensures within { result ≤ MAX_TIME }
    ensures last { start_of grid.now start ≡ start → IsLastOf grid.now start result }
{
    grid.known();
    if start == 0 {
        return grid.last_of(start);
    }
    MAX_TIME.min(start + (grid.duration() - 1))
}

// The timestamp that a row shows for the bucket that begins at `start`.
#[inline]
fn stamp_of(start: u64, buckets: &Buckets) -> u64
    requires { start ≤ MAX_TIME }
    ensures time { result ≤ MAX_TIME }
    ensures stamp { start_of buckets.now.grid start ≡ start → result ≡ stamp buckets.now.grid start buckets.now.stamp }
{
    match buckets.stamp {
        Stamp::Low => start,
        _ => buckets.grid.stamp(start, buckets.stamp),
    }
}

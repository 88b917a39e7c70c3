// The scan that turns samples into rows.
ghost use Rattle.std.specs.Prelude.{◌≡◌, ◌<◌, ◌+◌, ◌^◌, ℕ, List, [], ◌∷◌, ◌++◌, filter, option_map};
ghost use Rattle.std.specs.Option.{ForSome};
ghost use Rattle.ts_spec.specs.Sample.{Point, IsAscending};
ghost use Rattle.ts_spec.specs.Answer.{Row as TheRow, row_of};
ghost use Rattle.ts_agg.specs.Tally.{counted};
ghost use Rattle.ts_range.specs.Filters.{passes};
ghost use Rattle.ts_range.specs.RowScanState.{AreScanned, HasFew};

use crate::cutter::Cutter;
use crate::filters::Filters;
use crate::query::{Buckets, Row};
use crate::row_sinks::RowSink;
use crate::trail::Trail;
use std::marker::Model;
use ts_sample::{Cell, Sample, Visit};

/// A visitor that answers a query: it emits each row to a sink as soon as the row is complete. Accepts up to 10^14
/// samples, in ascending time.
#[derive(Drop)]
pub struct RowScan<'f, T: RowSink> {
    filters: &'f Filters,
    // Groups samples into buckets. `None` emits the samples themselves.
    cut: Option<Cutter>,
    row_sink: T,
    seen: Trail,
}

impl<'f, T: RowSink> Model for RowScan<'f, T> {
    ghost use Rattle.std.specs.Prelude.{filter, option_map};
    ghost use Rattle.ts_range.specs.Query.{buckets_of};
    ghost use Rattle.ts_range.specs.Filters.{passes};
    ghost use Rattle.ts_range.specs.RowScanState.{RowScanState, IsRowScan};

    ghost Value = { RowScanState };

    ghost view = { λ w. record {
      times = option_map (λ times. times.items) w.filters.now.times;
      values = w.filters.now.values;
      buckets = option_map (λ c. buckets_of c.buckets) w.cut;
      limit = T.limit w.row_sink;
      seen = w.seen.points;
    } };

    ghost invariant = { λ w. IsRowScan (T.has w.row_sink) w.cut w.seen.points
        (filter (passes w.filters.now) w.seen.points) };
}

impl<'f, T: RowSink> RowScan<'f, T> {
    ghost use Rattle.std.specs.Prelude.{◌≡◌, ◌≤◌, [], ◌++◌, filter, IfOk, IfErr, IfSome, IfNone};
    ghost use Rattle.ts_spec.specs.Sample.{Point, IsAscending, between};
    ghost use Rattle.ts_range.specs.Query.{buckets_of};
    ghost use Rattle.ts_range.specs.Filters.{passes};
    ghost use Rattle.ts_range.specs.RowScanState.{lets, rows_of_scan};

    /// A scan with these filters that has received no sample yet. It aggregates into `buckets`, or emits each sample if
    /// `None`.
    pub fn new(filters: &'f Filters, buckets: Option<Buckets>, row_sink: T) -> RowScan<'f, T>
        requires { T.has row_sink [] }
        ensures lets { (p : Point) → lets result p ≡ passes filters.now p }
        ensures buckets { result.buckets ≡ option_map buckets_of buckets }
        ensures limit { result.limit ≡ T.limit row_sink }
        ensures seen { result.seen ≡ [] }
    {
        let cut = match buckets {
            None => None,
            Some(buckets) => Some(Cutter::new(buckets)),
        };
        RowScan {
            filters,
            cut,
            row_sink,
            seen: Trail::new(),
        }
    }

    /// The part of the interval that can contain samples that pass the filters, if any can.
    pub fn part_to_scan(&self, from: u64, to: u64) -> Option<(u64, u64)>
        ensures within { IfSome result (λ part. (from ≤ part.0) × ((part.0 ≤ part.1) × (part.1 ≤ to))) }
        ensures all { IfSome result (λ part. (ps : List Point) →
            filter (lets self.now) (between part.0 part.1 ps) ≡ filter (lets self.now) (between from to ps)) }
        ensures none { IfNone result ((ps : List Point) → filter (lets self.now) (between from to ps) ≡ []) }
    {
        self.filters.part_of(from, to)
    }

    /// Emits the row of the current bucket and returns the sink.
    pub fn finish(self) -> T
        ensures rows { IsAscending self.entry.seen → (asked : List Point)
            → T.has result (rows_of_scan self.entry asked) }
        ensures limit { T.limit result ≡ self.entry.limit }
    {
        let RowScan {
            filters: _,
            cut,
            mut row_sink,
            seen: _,
        } = self;
        if let Some(cutter) = cut {
            cutter.close(&mut row_sink);
        }
        row_sink
    }

    /// Returns the sink if further samples would change none of its rows, else the scan itself.
    pub fn finish_if_full(self) -> Result<T, RowScan<'f, T>>
        ensures rows { IfOk result (λ row_sink. (more asked : List Point) → IsAscending (self.entry.seen ++ more)
            → T.has row_sink (rows_of_scan (record self.entry { seen = self.entry.seen ++ more }) asked)) }
        ensures limit { IfOk result (λ row_sink. T.limit row_sink ≡ self.entry.limit) }
        ensures walk { IfErr result (λ walk. walk ≡ self.entry) }
    {
        if !self.row_sink.is_full() {
            return Err(self);
        }
        let RowScan {
            filters: _,
            cut: _,
            row_sink,
            seen: _,
        } = self;
        Ok(row_sink)
    }
}

impl<T: RowSink> Visit for RowScan<'_, T> {
    ghost use Rattle.std.specs.Prelude.{◌-◌, ◌^◌, length};
    ghost use Rattle.ts_range.specs.RowScanState.{with_seen, lowered};

    ghost step = { with_seen };

    ghost room = { λ w. 10 ^ 14 - length w.seen };

    #[inline(always)]
    fn sample(&mut self, sample: &Sample) {
        accept_sample(self.filters, &mut self.cut, &mut self.row_sink, sample);
        self.seen = Trail::with(&self.seen, sample);
    }

    ghost lowers = { lowered };
}

// Emits the row that this sample makes or completes, if the sample passes the filters.
#[inline(always)]
fn accept_sample<T: RowSink>(
    filters: &Filters,
    cut: &mut Option<Cutter>,
    row_sink: &mut T,
    sample: &Sample,
)
    requires { ForSome cut.old (λ c. ForSome c.current (λ b. counted b.tally < 10 ^ 14)) }
    ensures buckets { option_map (λ c. c.buckets) cut.new ≡ option_map (λ c. c.buckets) cut.old }
    ensures limit { T.limit row_sink.new ≡ T.limit row_sink.old }
    ensures few { (n : ℕ) → HasFew n cut.old → HasFew (n + 1) cut.new }
    ensures walked { (seen : List Point) → IsAscending (seen ++ sample.now ∷ [])
        → AreScanned (T.has row_sink.old) cut.old (filter (passes filters.now) seen)
        → AreScanned (T.has row_sink.new) cut.new (filter (passes filters.now) (seen ++ sample.now ∷ [])) }
{
    if !filters.lets_pass(sample) {
        return;
    }
    match cut {
        None => emit_row(sample, row_sink),
        Some(cutter) => cutter.push(sample, row_sink),
    }
}

// Emits the row of a sample.
#[inline(always)]
fn emit_row<T: RowSink>(sample: &Sample, row_sink: &mut T)
    ensures limit { T.limit row_sink.new ≡ T.limit row_sink.old }
    ensures row { (rows : List TheRow) → T.has row_sink.old rows → T.has row_sink.new (rows ++ row_of sample.now ∷ []) }
{
    row_sink.row(Row {
        time: sample.time,
        value: Cell::Number(sample.value),
    });
}

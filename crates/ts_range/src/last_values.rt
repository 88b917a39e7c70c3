// A visitor that emits the last value of each bucket. An empty bucket repeats the value of the last sample before it.
ghost use Rattle.std.specs.Prelude.{◌≡◌, ◌<◌, ◌+◌, ◌^◌, ◌++◌, ℕ, List, [], ◌∷◌, Some, if◌then◌else◌, take, length};
ghost use Rattle.std.specs.Prelude.{option_map, slice_get};
ghost use Rattle.ts_spec.specs.Answer.{Number};
ghost use Rattle.ts_spec.specs.Sample.{Point};
ghost use Rattle.ts_range.specs.FillPlan.{fill_plan_of};
ghost use Rattle.ts_range.specs.LastValues.{LastValues as Last, values_of, last_rows, IsLine, IsOpen, IsLasting};
ghost use Rattle.ts_range.specs.LastValues.{BeginsBy};
ghost use Rattle.ts_range.specs.Query.{cell_of};
ghost use Rattle.ts_range.specs.Starts.{starts_of};

use crate::fill_plan::{FillPlan, Place};
use crate::filters::Filters;
use crate::row_sinks::RowSink;
use crate::trail::Trail;
use std::marker::Model;
use ts_sample::{Cell, Sample, Units, Visit};

/// Emits a bucket's row once a later sample arrives. Empty buckets also repeat values that the filters drop.
#[derive(Drop)]
pub struct LastValues<'f, T: RowSink> {
    filters: &'f Filters,
    filling: FillPlan,
    current: Current,
    row_sink: T,
    seen: Trail,
}

// The current bucket. More samples may follow.
#[derive(Clone, Copy)]
pub(crate) struct Current {
    place: Place,
    // The last value in it that passes the filters.
    chosen: Option<Cell>,
    // The last value of all samples so far.
    latest: Option<Cell>,
}

impl<'f, T: RowSink> Model for LastValues<'f, T> {
    ghost use Rattle.ts_range.specs.LastValues.{LastValues as Last, IsLasting, values_of};

    ghost Value = { Last };

    ghost view = { λ w. values_of w.filters.now w.filling w.seen.points };

    ghost invariant = { λ w. IsLasting (T.has w.row_sink) (values_of w.filters.now w.filling w.seen.points) w.current };
}

impl<'f, T: RowSink> LastValues<'f, T> {
    pub(crate) fn new(filters: &'f Filters, filling: FillPlan, row_sink: T) -> LastValues<'f, T>
        requires { T.has row_sink [] }
        ensures { result ≡ values_of filters.now filling [] }
    {
        LastValues {
            filters,
            filling,
            current: Current {
                place: Place {
                    told: 0,
                    last: None,
                },
                chosen: None,
                latest: None,
            },
            row_sink,
            seen: Trail::new(),
        }
    }

    /// Emits the rows of the remaining buckets and returns the sink.
    pub fn finish(self) -> T
        ensures { (lo hi : ℕ) → IsLine lo hi self.entry → T.has result (last_rows self.entry) }
    {
        let LastValues {
            filling,
            mut current,
            mut row_sink,
            ..
        } = self;
        advance_to_last(&filling, &mut current, &mut row_sink);
        emit_row(&filling, &current, &mut row_sink);
        row_sink
    }
}

impl<T: RowSink> Visit for LastValues<'_, T> {
    ghost use Rattle.std.specs.Prelude.{◌^◌};
    ghost use Rattle.std.proofs.Common.{arith};
    ghost use Rattle.ts_range.specs.LastValues.{with_one};

    ghost step = { with_one };

    ghost room = { λ w. 10 ^ 14 };

    #[inline(always)]
    fn sample(&mut self, sample: &Sample) {
        accept_sample(
            self.filters,
            &self.filling,
            &mut self.current,
            &mut self.row_sink,
            sample,
        );
        self.seen = Trail::with(&self.seen, sample);
    }

    ghost lowers = { λ v p. Prim.omega arith };
}

// Emits the rows of the buckets before that of the sample, then adds the sample to its own.
#[inline(always)]
fn accept_sample<T: RowSink>(
    filters: &Filters,
    filling: &FillPlan,
    current: &mut Current,
    row_sink: &mut T,
    sample: &Sample,
)
    requires { current.old.place.told < length (starts_of filling.now.starts) }
    ensures { (seen : List Point) → IsLasting (T.has row_sink.old) (values_of filters.now filling.now seen) current.old
        → IsLasting (T.has row_sink.new) (values_of filters.now filling.now (seen ++ sample.now ∷ [])) current.new }
{
    advance_to(filling, current, sample.time, row_sink);
    set_last_value(current, sample.value, filters.lets_pass(sample));
}

// Records a value in the current bucket. `is_chosen` says whether it passes the filters.
#[inline(always)]
fn set_last_value(current: &mut Current, value: Units, is_chosen: bool)
    ensures place { current.new.place ≡ current.old.place }
    ensures latest { option_map cell_of current.new.latest ≡ Some (Number value) }
    ensures chosen { option_map cell_of current.new.chosen
        ≡ (if is_chosen then Some (Number value) else option_map cell_of current.old.chosen) }
{
    current.latest = Some(Cell::Number(value));
    if is_chosen {
        current.chosen = Some(Cell::Number(value));
    }
}

// Emits the rows of the buckets before the one that contains `time`.
fn advance_to<T: RowSink>(filling: &FillPlan, current: &mut Current, time: u64, row_sink: &mut T)
    requires { current.old.place.told < length (starts_of filling.now.starts) }
    ensures within { current.new.place.told < length (starts_of filling.now.starts) }
    ensures current { (v : Last) (lo hi : ℕ) → v.filling ≡ fill_plan_of filling.now → IsLine lo hi v
        → IsOpen (T.has row_sink.old) v current.old → IsOpen (T.has row_sink.new) v current.new }
    ensures begun { (v : Last) → v.filling ≡ fill_plan_of filling.now → BeginsBy time v current.old
        → BeginsBy time v current.new }
    ensures ends { (c : ℕ) → slice_get (starts_of filling.now.starts) (current.new.place.told + 1) ≡ Some c → time < c }
{
    while let Some(next) = filling.after(&current.place) {
        if time < next {
            return;
        }
        open_next(filling, current, row_sink);
    }
}

// Emits the rows of all buckets but the last one.
fn advance_to_last<T: RowSink>(filling: &FillPlan, current: &mut Current, row_sink: &mut T)
    requires { current.old.place.told < length (starts_of filling.now.starts) }
    ensures last { current.new.place.told + 1 ≡ length (starts_of filling.now.starts) }
    ensures current { (v : Last) (lo hi : ℕ) → v.filling ≡ fill_plan_of filling.now → IsLine lo hi v
        → IsOpen (T.has row_sink.old) v current.old → IsOpen (T.has row_sink.new) v current.new }
{
    while let Some(_next) = filling.after(&current.place) {
        open_next(filling, current, row_sink);
    }
}

// Emits the row of the current bucket and starts the next one.
fn open_next<T: RowSink>(filling: &FillPlan, current: &mut Current, row_sink: &mut T)
    requires next { current.old.place.told + 1 < length (starts_of filling.now.starts) }
    requires few { length (starts_of filling.now.starts) < 2 ^ 64 }
    ensures told { current.new.place.told ≡ current.old.place.told + 1 }
    ensures current { (v : Last) (lo hi : ℕ) → v.filling ≡ fill_plan_of filling.now → IsLine lo hi v
        → IsOpen (T.has row_sink.old) v current.old → IsOpen (T.has row_sink.new) v current.new }
{
    emit_row(filling, current, row_sink);
    current.place.told += 1;
    current.place.last = current.latest;
    current.chosen = None;
}

// Emits the row of the current bucket.
fn emit_row<T: RowSink>(filling: &FillPlan, current: &Current, row_sink: &mut T)
    requires { current.now.place.told < length (starts_of filling.now.starts) }
    ensures { (v : Last) (lo hi : ℕ) → v.filling ≡ fill_plan_of filling.now → IsLine lo hi v
        → IsOpen (T.has row_sink.old) v current.now
        → T.has row_sink.new (take (current.now.place.told + 1) (last_rows v)) }
{
    let Some(start) = filling.next(&current.place) else {
        return;
    };
    let value = match current.chosen {
        None => filling.says(&current.place),
        Some(value) => value,
    };
    row_sink.row(filling.row(start, value));
}

// A sink that passes on rows of buckets and fills the gaps between them with rows of empty buckets.
ghost use Rattle.std.specs.Prelude.{◌≡◌, ◌≤◌, ◌<◌, ◌+◌, ◌^◌, ℕ, List, [], ◌∷◌, None, Some, length, slice_get};
ghost use Rattle.ts_spec.specs.Sample.{MAX_TIME};
ghost use Rattle.ts_spec.specs.Answer.{Row as TheRow};
ghost use Rattle.ts_range.specs.Query.{cell_of};
ghost use Rattle.ts_range.specs.FillPlan.{fill_plan_of, rows_with_gaps_filled, IsFilled, IsBefore};
ghost use Rattle.ts_range.specs.Starts.{starts_of};

use crate::fill_plan::{FillPlan, Place};
use crate::query::Row;
use crate::row_sinks::RowSink;
use ts_sample::Cell;

/// Receives rows that have bucket starts as their times, in ascending order.
#[derive(Drop)]
pub struct GapFiller<T: RowSink> {
    row_sink: T,
    filling: FillPlan,
    place: Place,
}

impl<T: RowSink> GapFiller<T> {
    ghost use Rattle.std.specs.Prelude.{◌++◌};

    pub(crate) fn new(row_sink: T, filling: FillPlan) -> GapFiller<T>
        requires { T.has row_sink [] }
        ensures filled { (more : List TheRow)
            → IsFilled (T.has result.row_sink) (fill_plan_of result.filling) result.place more more }
        ensures filling { result.filling ≡ filling }
    {
        GapFiller {
            row_sink,
            filling,
            place: Place {
                told: 0,
                last: None,
            },
        }
    }

    /// Emits the rows of the remaining empty buckets and returns the inner sink.
    pub fn into_row_sink(self) -> T
        ensures { (rows : List TheRow)
            → ((more : List TheRow)
            → IsFilled (T.has self.row_sink) (fill_plan_of self.filling) self.place (rows ++ more) more)
            → T.has result (rows_with_gaps_filled (fill_plan_of self.filling) rows) }
    {
        let GapFiller {
            mut row_sink,
            filling,
            mut place,
        } = self;
        emit_empty_rest(&filling, &mut place, &mut row_sink);
        row_sink
    }
}

impl<T: RowSink> RowSink for GapFiller<T> {
    ghost use Rattle.std.specs.Prelude.{◌++◌};

    ghost has = { λ t rows. (more : List TheRow)
        → IsFilled (T.has t.row_sink) (fill_plan_of t.filling) t.place (rows ++ more) more };

    ghost limit = { λ t. record { count = None; filling = Some (fill_plan_of t.filling) } };

    fn row(&mut self, row: Row) {
        emit_empty_before(&self.filling, &mut self.place, row.time, &mut self.row_sink);
        emit_present(
            &self.filling,
            &mut self.place,
            row.value,
            &mut self.row_sink,
        );
    }

    fn is_full(&self) -> bool {
        false
    }
}

// Emits the rows of the empty buckets before `time`.
fn emit_empty_before<T: RowSink>(filling: &FillPlan, place: &mut Place, time: u64, row_sink: &mut T)
    ensures filled { (all more : List TheRow) (r : TheRow) → r.time ≡ time
        → IsFilled (T.has row_sink.old) (fill_plan_of filling.now) place.old all (r ∷ more)
        → IsFilled (T.has row_sink.new) (fill_plan_of filling.now) place.new all (r ∷ more) }
    ensures reached { (b : ℕ) → slice_get (starts_of filling.now.starts) place.new.told ≡ Some b → time ≤ b }
{
    while let Some(start) = filling.next(place) {
        if time <= start {
            return;
        }
        emit_empty(filling, place, start, row_sink);
    }
}

// Emits the rows of the remaining empty buckets.
fn emit_empty_rest<T: RowSink>(filling: &FillPlan, place: &mut Place, row_sink: &mut T)
    ensures { (all : List TheRow) → IsFilled (T.has row_sink.old) (fill_plan_of filling.now) place.old all []
        → T.has row_sink.new (rows_with_gaps_filled (fill_plan_of filling.now) all) }
{
    while let Some(start) = filling.next(place) {
        emit_empty(filling, place, start, row_sink);
    }
}

// Emits the row of the next bucket, which is empty.
fn emit_empty<T: RowSink>(filling: &FillPlan, place: &mut Place, start: u64, row_sink: &mut T)
    requires time { start ≤ MAX_TIME }
    requires next { slice_get (starts_of filling.now.starts) place.old.told ≡ Some start }
    requires few { length (starts_of filling.now.starts) < 2 ^ 64 }
    ensures told { place.new.told ≡ place.old.told + 1 }
    ensures filled { (all more : List TheRow) → IsBefore start more
        → IsFilled (T.has row_sink.old) (fill_plan_of filling.now) place.old all more
        → IsFilled (T.has row_sink.new) (fill_plan_of filling.now) place.new all more }
{
    row_sink.row(filling.row(start, filling.says(place)));
    place.told += 1;
}

// Emits the row of the next bucket with this value, if any bucket is left.
fn emit_present<T: RowSink>(filling: &FillPlan, place: &mut Place, value: Cell, row_sink: &mut T)
    ensures { (all more : List TheRow) (r : TheRow) → r.value ≡ cell_of value
        → ((b : ℕ) → slice_get (starts_of filling.now.starts) place.old.told ≡ Some b → r.time ≤ b)
        → IsFilled (T.has row_sink.old) (fill_plan_of filling.now) place.old all (r ∷ more)
        → IsFilled (T.has row_sink.new) (fill_plan_of filling.now) place.new all more }
{
    let Some(start) = filling.next(place) else {
        return;
    };
    let last = filling.last_after(place, &value);
    row_sink.row(filling.row(start, value));
    place.told += 1;
    place.last = last;
}

// The aggregate of the rows at one time.
ghost use Rattle.std.specs.Prelude.{◌≡◌, ◌≤◌, ◌<◌, ◌++◌, true, List, [], ◌∷◌, length, OnOk, IfOk};
ghost use Rattle.ts_spec.specs.Aggregate.{summary};
ghost use Rattle.ts_spec.specs.Groups.{number_then};
ghost use Rattle.ts_spec.specs.Sample.{Point, MAX_TIME};
ghost use Rattle.ts_range.specs.Query.{cell_of};
ghost use Rattle.ts_group.specs.SlotIndices.{slot_at};

use std::alloc::AllocError;
use ts_agg::Running;
use ts_range::Row;
use ts_sample::{Cell, Sample, Units};

// A time in milliseconds, and the aggregate of its values.
#[derive(Drop)]
pub(crate) struct Slot {
    pub(crate) time: u64,
    pub(crate) running: Running,
}

impl Slot {
    // The slot of a first row.
    pub(crate) fn of_row(row: Row) -> Result<Slot, AllocError>
        ensures time { IfOk result (λ slot. slot.time ≡ row.time) }
        ensures counted { IfOk result (λ slot. slot.running ≡ summary (number_then row.time (cell_of row.value) [])) }
    {
        let mut running = Running::new();
        count(&mut running, row.time, row.value)?;
        Ok(Slot {
            time: row.time,
            running,
        })
    }

    // Adds a row of the same time.
    pub(crate) fn count(&mut self, row: Row) -> Result<(), AllocError>
        ensures counted { OnOk result ((ps : List Point) → self.old.running ≡ summary ps
            → self.new.running ≡ summary (ps ++ number_then row.time (cell_of row.value) [])) }
        ensures time { self.new.time ≡ self.old.time }
    {
        count(&mut self.running, row.time, row.value)
    }
}

// Whether the slot at this index exists and has this time.
pub(crate) fn is_slot_of(slots: &[Slot], list_index: usize, time: u64) -> bool
    ensures { result ≡ true → (list_index < length slots.now) × ((slot_at slots.now list_index).time ≡ time) }
{
    match slots.get(list_index) {
        Some(slot) => slot.time == time,
        None => false,
    }
}

// Adds a value to the aggregate. NaN counts as no value.
fn count(running: &mut Running, time: u64, cell: Cell) -> Result<(), AllocError>
    requires { time ≤ MAX_TIME }
    ensures { OnOk result ((ps : List Point) → running.old ≡ summary ps
        → running.new ≡ summary (ps ++ number_then time (cell_of cell) [])) }
{
    match cell {
        Cell::Nan => Ok(()),
        Cell::Number(value) => count_number(running, &sample_at(time, value)),
    }
}

// Adds a number to the aggregate. Fails if it already has as many as it can count.
fn count_number(running: &mut Running, sample: &Sample) -> Result<(), AllocError>
    ensures { OnOk result ((ps : List Point) → running.old ≡ summary ps
        → running.new ≡ summary (ps ++ sample.now ∷ [])) }
{
    if !running.has_capacity() {
        return Err(AllocError);
    }
    running.push(sample);
    Ok(())
}

// The sample that stands for a value at a time.
fn sample_at(time: u64, value: Units) -> Sample
    requires { time ≤ MAX_TIME }
    ensures { result ≡ record { time = time; value = value; made = 0 } }
{
    Sample {
        value,
        time,
        made: 0,
    }
}

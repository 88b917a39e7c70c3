// TS.ADD without options other than ON_DUPLICATE, executed straight from its arguments, with its journal record.
ghost use Rattle.std.specs.Prelude.{◌+◌, ◌≤◌, length, Option};
ghost use Rattle.ts_command.specs.SimpleAdd.{simple_add_of};
ghost use Rattle.ts_db.specs.DbState.{Simulates};
ghost use Rattle.ts_execution.specs.Journaling.{IsRecorded};
ghost use Rattle.ts_execution.specs.Recording.{record_bytes};

use crate::handling::reading_at;
use crate::plain_add::execute_addition;
use std::alloc::Global;
use std::sync::ledger::Ledger;
use ts_command::SimpleAdd;
use ts_db::{Db, Hints};
use ts_io::Clock;
use ts_journal::Record;
use ts_questions::write_out_of_memory;
use ts_resp::Out;
use ts_sample::Steps;

/// Executes such a TS.ADD, if its record can be allocated, and leaves its reply in `room`. Returns the record.
pub(crate) fn record_addition<C: Clock, L: Ledger>(
    alloc: Global,
    db: &mut Db,
    hints: &mut Hints,
    addition: &SimpleAdd,
    clock: &mut C,
    room: &mut Out,
    steps: &mut Steps<L>,
) -> Option<Record>
    requires { 128 ≤ length room.old.bytes + room.old.spare }
    ensures recorded { Simulates db.old db.new
        (λ from to. IsRecorded (simple_add_of addition.now) (record { held = from; readings = C.readings clock.old })
        room.new.bytes (record_bytes result room.new.bytes) (record { held = to; readings = C.readings clock.new })) }
    ensures room { 128 ≤ length room.new.bytes + room.new.spare }
{
    let reading = reading_at(addition.at, clock);
    match Record::of_addition(alloc, addition, reading) {
        Ok(entry) => {
            execute_addition(db, hints, alloc, addition, reading, room, steps);
            Some(entry)
        }
        Err(_) => {
            room.clear();
            write_out_of_memory(room);
            None
        }
    }
}

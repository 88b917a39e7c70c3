// Handles a request and makes its journal record.
ghost use Rattle.std.specs.Prelude.{◌≡◌, ◌+◌, ◌≤◌, true, false, [], length, Option, None, Some, IfOk, IfErr, OnErr};
ghost use Rattle.std.specs.Prelude.{IfSome, IfNone};
ghost use Rattle.ts_spec.specs.Run.{is_quit};
ghost use Rattle.ts_command.specs.Answers.{HasTime};
ghost use Rattle.ts_command.specs.Reading.{command_of};
ghost use Rattle.ts_db.specs.DbState.{Simulates};
ghost use Rattle.ts_journal.specs.Record.{is_change, IsRecordOf};
ghost use Rattle.ts_journal.specs.Content.{bytes_after};
ghost use Rattle.ts_execution.specs.Journaling.{Recorded, IsRecorded};
ghost use Rattle.ts_execution.specs.Recording.{record_bytes, HasRecord};

use crate::answers::fault_reply;
use crate::execution::execute_with_hints;
use crate::handling::{reading_for, says_quit};
use crate::recorded_add::record_addition;
use std::alloc::{AllocError, Global};
use std::mem;
use std::sync::ledger::Ledger;
use ts_command::{Command, SimpleAdd, read};
use ts_db::{Db, Hints};
use ts_io::Clock;
use ts_journal::Record;
use ts_questions::write_out_of_memory;
use ts_resp::{Out, Word, put};
use ts_sample::Steps;

/// The result of a handled request: whether it was QUIT, and its record if it is a change.
#[derive(Drop)]
pub struct Handled {
    pub quits: bool,
    pub entry: Option<Record>,
}

/// Handles a request and leaves its reply in `room`. Allocates its record before it executes the request; if that
/// fails, the request fails with out of memory. Moves arguments that the command stores out of `words`.
pub fn handle_recorded<C: Clock, L: Ledger>(
    db: &mut Db,
    hints: &mut Hints,
    words: &mut Vec<Word>,
    clock: &mut C,
    room: &mut Out,
    steps: &mut Steps<L>,
) -> Handled
    requires { 128 ≤ length room.old.bytes + room.old.spare }
    ensures recorded { Simulates db.old db.new
        (λ from to. Recorded words.old.items (record { held = from; readings = C.readings clock.old })
        room.new.bytes (record_bytes result.entry room.new.bytes)
        (record { held = to; readings = C.readings clock.new })) }
    ensures quits { result.quits ≡ is_quit words.old.items }
    ensures room { 128 ≤ length room.new.bytes + room.new.spare }
{
    let alloc = *words.allocator();
    let Some(addition) = SimpleAdd::read(words) else {
        return record_command(
            alloc,
            db,
            hints,
            mem::replace(words, Vec::new(alloc)),
            clock,
            room,
            steps,
        );
    };
    let entry = record_addition(alloc, db, hints, &addition, clock, room, steps);
    Handled {
        quits: false,
        entry,
    }
}

// The same for any other command. A `Command` is large, so this is not inlined into the caller.
#[inline(never)]
fn record_command<C: Clock, L: Ledger>(
    alloc: Global,
    db: &mut Db,
    hints: &mut Hints,
    words: Vec<Word>,
    clock: &mut C,
    room: &mut Out,
    steps: &mut Steps<L>,
) -> Handled
    requires { 128 ≤ length room.old.bytes + room.old.spare }
    ensures recorded { Simulates db.old db.new
        (λ from to. Recorded words.items (record { held = from; readings = C.readings clock.old })
        room.new.bytes (record_bytes result.entry room.new.bytes)
        (record { held = to; readings = C.readings clock.new })) }
    ensures quits { result.quits ≡ is_quit words.items }
    ensures room { 128 ≤ length room.new.bytes + room.new.spare }
{
    match read(words) {
        Ok(command) => {
            let quits = says_quit(&command);
            let entry = execute_recorded(alloc, db, hints, command, clock, room, steps);
            Handled { quits, entry }
        }
        Err(fault) => {
            room.clear();
            put(&fault_reply(fault), room);
            Handled {
                quits: false,
                entry: None,
            }
        }
    }
}

// Executes a command, if its record can be allocated.
fn execute_recorded<C: Clock, L: Ledger>(
    alloc: Global,
    db: &mut Db,
    hints: &mut Hints,
    command: Command,
    clock: &mut C,
    room: &mut Out,
    steps: &mut Steps<L>,
) -> Option<Record>
    requires room { 128 ≤ length room.old.bytes + room.old.spare }
    requires time { HasTime command }
    ensures recorded { Simulates db.old db.new
        (λ from to. IsRecorded (command_of command) (record { held = from; readings = C.readings clock.old })
        room.new.bytes (record_bytes result room.new.bytes) (record { held = to; readings = C.readings clock.new })) }
    ensures room { 128 ≤ length room.new.bytes + room.new.spare }
{
    let reading = reading_for(&command, clock);
    match record_for(alloc, &command, reading) {
        Ok(entry) => {
            execute_with_hints(db, hints, command, reading, room, steps);
            entry
        }
        Err(_) => {
            room.clear();
            write_out_of_memory(room);
            None
        }
    }
}

// Makes the record of a change. Returns `Ok(None)` for any other command, without allocating.
fn record_for(alloc: Global, command: &Command, reading: u64) -> Result<Option<Record>, AllocError>
    ensures record { IfOk result (HasRecord reading (command_of command.now)) }
    ensures change { OnErr result (is_change (command_of command.now) ≡ true) }
{
    if !is_change(command) {
        return Ok(None);
    }
    match Record::take(alloc, command, reading) {
        Ok(entry) => Ok(entry),
        Err(no_memory) => Err(no_memory),
    }
}

// Whether a command changes the database.
fn is_change(command: &Command) -> bool
    ensures { result ≡ is_change (command_of command.now) }
{
    match command {
        Command::Create { .. }
        | Command::Alter { .. }
        | Command::Add { .. }
        | Command::Madd { .. }
        | Command::Incr { .. }
        | Command::DelRange { .. }
        | Command::CreateRule { .. }
        | Command::DeleteRule { .. }
        | Command::Drop { .. } => true,
        _ => false,
    }
}

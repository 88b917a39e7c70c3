// Handles one request.
ghost use Rattle.std.specs.Prelude.{◌≡◌, ◌+◌, ◌≤◌, length, Ok};
ghost use Rattle.ts_spec.specs.Run.{is_quit, says_quit};
ghost use Rattle.ts_spec.specs.Grammar.{is_clock, needs_clock};
ghost use Rattle.ts_command.specs.Reading.{command_of};
ghost use Rattle.ts_db.specs.DbState.{Simulates};
ghost use Rattle.ts_execution.specs.Handling.{handles, IsReading, readings_after_use};

use crate::answers::fault_reply;
use crate::execution::execute_with_hints;
use crate::plain_add::execute_addition;
use std::mem;
use std::sync::ledger::Ledger;
use ts_command::{Command, SimpleAdd, read};
use ts_db::{Db, Hints};
use ts_io::Clock;
use ts_resp::{Out, Word, put};
use ts_sample::Steps;
use ts_spec::At;

/// Handles a request and leaves its reply in `room`. Returns whether it was QUIT. Moves arguments that the command
/// stores out of `words`.
pub fn handle_request<C: Clock, L: Ledger>(
    db: &mut Db,
    hints: &mut Hints,
    words: &mut Vec<Word>,
    clock: &mut C,
    room: &mut Out,
    steps: &mut Steps<L>,
) -> bool
    requires { 128 ≤ length room.old.bytes + room.old.spare }
    ensures handles { Simulates db.old db.new
        (λ from to. handles (record { held = from; readings = C.readings clock.old }) words.old.items room.new.bytes
        (record { held = to; readings = C.readings clock.new })) }
    ensures quits { result ≡ is_quit words.old.items }
    ensures room { 128 ≤ length room.new.bytes + room.new.spare }
{
    let alloc = *words.allocator();
    let Some(addition) = SimpleAdd::read(words) else {
        return handle_command(
            db,
            hints,
            mem::replace(words, Vec::new(alloc)),
            clock,
            room,
            steps,
        );
    };
    let reading = reading_at(addition.at, clock);
    execute_addition(db, hints, alloc, &addition, reading, room, steps);
    false
}

// The same for any other command. A `Command` is large, so this is not inlined into the caller.
#[inline(never)]
fn handle_command<C: Clock, L: Ledger>(
    db: &mut Db,
    hints: &mut Hints,
    words: Vec<Word>,
    clock: &mut C,
    room: &mut Out,
    steps: &mut Steps<L>,
) -> bool
    requires { 128 ≤ length room.old.bytes + room.old.spare }
    ensures handles { Simulates db.old db.new
        (λ from to. handles (record { held = from; readings = C.readings clock.old }) words.items room.new.bytes
        (record { held = to; readings = C.readings clock.new })) }
    ensures quits { result ≡ is_quit words.items }
    ensures room { 128 ≤ length room.new.bytes + room.new.spare }
{
    match read(words) {
        Ok(command) => {
            let reading = reading_for(&command, clock);
            let quits = says_quit(&command);
            execute_with_hints(db, hints, command, reading, room, steps);
            quits
        }
        Err(fault) => {
            room.clear();
            put(&fault_reply(fault), room);
            false
        }
    }
}

pub(crate) fn says_quit(command: &Command) -> bool
    ensures { result ≡ says_quit (Ok (command_of command.now)) }
{
    match command {
        Command::Quit => true,
        _ => false,
    }
}

// The clock reading in milliseconds if the command needs one, and 0 otherwise.
pub(crate) fn reading_for<C: Clock>(command: &Command, clock: &mut C) -> u64
    ensures reading { IsReading (needs_clock (command_of command.now)) (C.readings clock.old) result }
    ensures left { C.readings clock.new
        ≡ readings_after_use (needs_clock (command_of command.now)) (C.readings clock.old) }
{
    if command.needs_clock() {
        clock.now()
    } else {
        0
    }
}

// The clock reading in milliseconds if the sample's time is the clock's, and 0 otherwise.
pub(crate) fn reading_at<C: Clock>(at: At, clock: &mut C) -> u64
    ensures reading { IsReading (is_clock at) (C.readings clock.old) result }
    ensures left { C.readings clock.new ≡ readings_after_use (is_clock at) (C.readings clock.old) }
{
    match at {
        At::Clock => clock.now(),
        At::Time(_) => 0,
    }
}

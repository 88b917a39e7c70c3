// Replays one request of a journal.
ghost use Rattle.std.specs.Prelude.{◌≡◌, ◌<◌, ◌^◌, false, length};
ghost use Rattle.ts_spec.specs.Grammar.{needs_clock};
ghost use Rattle.ts_spec.specs.Command as spoken;
ghost use Rattle.ts_command.specs.Answers.{HasTime};
ghost use Rattle.ts_command.specs.Reading.{command_of, triple_of, triples_of};
ghost use Rattle.ts_db.specs.DbState.{Simulates};
ghost use Rattle.ts_execution.specs.JournalReplay.{replay_result_of_fault, replay_result_of, replay_result_of_words};
ghost use Rattle.ts_execution.specs.JournalReplay.{ReplaysCommand};
ghost use Rattle.ts_execution.specs.JournalReplay.{ReplaysTriple, ReplaysRequest};

use crate::changes::time_at;
use crate::redis_commands::drop_keys;
use std::sync::ledger::Ledger;
use ts_command::{Command, CommandFault, Triple, read};
use ts_db::{Db, DbFault, Hints};
use ts_resp::Word;
use ts_sample::Steps;

/// The result of replaying a request.
#[derive(Clone, Copy, Debug, PartialEq, Eq)]
pub(crate) enum ReplayResult {
    /// The change was made again.
    Accepted,
    /// The request is invalid in a journal, or the database rejects it.
    Refused,
    /// Out of memory.
    Memory,
}

/// Replays a request of a journal. It must be a change that does not read the clock.
pub(crate) fn replay_request<L: Ledger>(
    db: &mut Db,
    hints: &mut Hints,
    words: Vec<Word>,
    steps: &mut Steps<L>,
) -> ReplayResult
    ensures replay_matches { Simulates db.old db.new (λ from to. ReplaysRequest result words.items from to) }
{
    match read(words) {
        Ok(command) => replay_command(db, hints, command, steps),
        Err(fault) => replay_result_of_words(fault),
    }
}

// The result for arguments that are no command.
fn replay_result_of_words(fault: CommandFault) -> ReplayResult
    ensures { result ≡ replay_result_of_words fault }
{
    match fault {
        CommandFault::Memory(_) => ReplayResult::Memory,
        _ => ReplayResult::Refused,
    }
}

// The same for a command.
fn replay_command<L: Ledger>(
    db: &mut Db,
    hints: &mut Hints,
    command: Command,
    steps: &mut Steps<L>,
) -> ReplayResult
    requires time { HasTime command }
    ensures replay_matches { Simulates db.old db.new (λ from to. ReplaysCommand result (command_of command) from to) }
{
    if command.needs_clock() {
        return ReplayResult::Refused;
    }
    replay_change(db, hints, command, steps)
}

// The same for a command that does not read the clock.
fn replay_change<L: Ledger>(
    db: &mut Db,
    hints: &mut Hints,
    command: Command,
    steps: &mut Steps<L>,
) -> ReplayResult
    requires time { HasTime command }
    requires clock { needs_clock (command_of command) ≡ false }
    ensures replay_matches { Simulates db.old db.new (λ from to. ReplaysCommand result (command_of command) from to) }
{
    match command {
        Command::Create { key, spec } => done(db.create(key, spec)),
        Command::Alter { key, change } => done(db.alter(&key, change, steps)),
        Command::Add {
            key,
            at,
            value,
            on,
            spec,
        } => numbered(db.add(key, time_at(at, 0), value, on, spec, steps)),
        Command::Madd { triples } => replay_triples(db, hints, triples, steps),
        Command::Incr {
            key,
            change,
            at,
            spec,
        } => numbered(db.incr(key, change, time_at(at, 0), spec, steps)),
        Command::DelRange { key, from, to } => numbered(db.delete_range(&key, from, to, steps)),
        Command::CreateRule {
            source,
            dest,
            agg,
            grid,
        } => done(db.create_rule(&source, &dest, agg, grid)),
        Command::DeleteRule { source, dest } => done(db.delete_rule(&source, &dest)),
        Command::Drop { keys } => replay_drop(db, &keys),
        _ => ReplayResult::Refused,
    }
}

// Deletes keys.
fn replay_drop(db: &mut Db, keys: &[Word]) -> ReplayResult
    requires few { length keys.now < 2 ^ 63 }
    ensures replay_matches { Simulates db.old db.new (λ from to. ReplaysCommand result (spoken.Drop keys.now) from to) }
{
    drop_keys(db, keys);
    ReplayResult::Accepted
}

// Writes samples in order, up to the first one that is rejected.
fn replay_triples<L: Ledger>(
    db: &mut Db,
    hints: &mut Hints,
    triples: Vec<Triple>,
    steps: &mut Steps<L>,
) -> ReplayResult
    requires clock { needs_clock (spoken.Madd (triples_of triples.items)) ≡ false }
    ensures replay_matches { Simulates db.old db.new
        (λ from to. ReplaysCommand result (spoken.Madd (triples_of triples.items)) from to) }
{
    for triple in triples {
        match replay_triple(db, hints, triple, steps) {
            ReplayResult::Accepted => {}
            ReplayResult::Refused => return ReplayResult::Refused,
            ReplayResult::Memory => return ReplayResult::Memory,
        }
    }
    ReplayResult::Accepted
}

fn replay_triple<L: Ledger>(
    db: &mut Db,
    hints: &mut Hints,
    triple: Triple,
    steps: &mut Steps<L>,
) -> ReplayResult
    ensures replay_matches { Simulates db.old db.new (λ from to. ReplaysTriple result (triple_of triple) from to) }
{
    let at = match triple.at {
        Ok(at) => at,
        Err(_) => return ReplayResult::Refused,
    };
    match triple.value {
        Ok(value) => numbered(db.put_with_hints(
            hints,
            &triple.key,
            time_at(at, 0),
            value,
            None,
            steps,
        )),
        Err(_) => ReplayResult::Refused,
    }
}

// The result for a command that returns OK.
fn done(outcome: Result<(), DbFault>) -> ReplayResult
    ensures { result ≡ replay_result_of outcome }
{
    match outcome {
        Ok(()) => ReplayResult::Accepted,
        Err(fault) => of_fault(fault),
    }
}

// The result for a command that returns a time or a count.
fn numbered(outcome: Result<u64, DbFault>) -> ReplayResult
    ensures { result ≡ replay_result_of outcome }
{
    match outcome {
        Ok(_) => ReplayResult::Accepted,
        Err(fault) => of_fault(fault),
    }
}

// Tells out of memory from other errors.
fn of_fault(fault: DbFault) -> ReplayResult
    ensures { result ≡ replay_result_of_fault fault }
{
    match fault {
        DbFault::Memory(_) => ReplayResult::Memory,
        _ => ReplayResult::Refused,
    }
}

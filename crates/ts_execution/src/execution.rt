// Executes each command and writes its reply; and a law about TS.MADD.
ghost use Rattle.std.specs.Prelude.{◌≡◌, ◌+◌, ◌≤◌, length, ◌≢◌, ℕ, List, All};
ghost use Rattle.ts_command.specs.Answers.{HasTime};
ghost use Rattle.ts_command.specs.Reading.{command_of};
ghost use Rattle.ts_db.specs.DbState.{Simulates, DbState};
ghost use Rattle.ts_execution.specs.Bounded.{IsBounded};
ghost use Rattle.ts_execution.specs.Handling.{Executes, HasAllItems, IsStep};
ghost use Rattle.ts_spec.specs.Command.{Triple, Madd};
ghost use Rattle.ts_spec.specs.Replies.{memory_reply};
ghost use Rattle.ts_spec.specs.Step.{step};
ghost use Rattle.ts_spec.specs.Text.{Reply};

use crate::answers::ok;
use crate::changes::{add, alter, create, create_rule, delete, delete_rule, incr, time_at};
use crate::info::write_info;
use crate::multi_add::execute_triples;
use crate::redis_commands::{count_keys, drop_keys, write_pong, write_word};
use std::sync::ledger::Ledger;
use ts_command::Command;
use ts_db::{Db, Hints};
use ts_questions::{
    MemberContent, MemberQuery, write_get, write_members, write_range, write_ranges,
};
use ts_resp::{Out, put};
use ts_sample::Steps;

/// Executes a command and leaves exactly the text of its reply in `out`. `reading` is the clock reading in
/// milliseconds, capped at `MAX_TIME`. If memory runs out, the reply is the out-of-memory error and the database is
/// unchanged. TS.MADD reserves its reply first and then executes its triples in order; each of them may run out of
/// memory on its own.
pub fn execute<L: Ledger>(
    db: &mut Db,
    command: Command,
    reading: u64,
    out: &mut Out,
    steps: &mut Steps<L>,
)
    requires room { 128 ≤ length out.old.bytes + out.old.spare }
    requires time { HasTime command }
    ensures executes { Simulates db.old db.new
        (λ from to. Executes reading (command_of command) from out.new.bytes to) }
    ensures room { 128 ≤ length out.new.bytes + out.new.spare }
    ensures steps { IsBounded db.old reading (command_of command) steps.old steps.new }
{
    let mut hints = Hints::none(db.alloc());
    execute_with_hints(db, &mut hints, command, reading, out, steps);
}

/// The same with hints. They make lookups faster, and change no effect and no reply.
pub(crate) fn execute_with_hints<L: Ledger>(
    db: &mut Db,
    hints: &mut Hints,
    command: Command,
    reading: u64,
    out: &mut Out,
    steps: &mut Steps<L>,
)
    requires room { 128 ≤ length out.old.bytes + out.old.spare }
    requires time { HasTime command }
    ensures executes { Simulates db.old db.new
        (λ from to. Executes reading (command_of command) from out.new.bytes to) }
    ensures room { 128 ≤ length out.new.bytes + out.new.spare }
    ensures steps { IsBounded db.old reading (command_of command) steps.old steps.new }
{
    out.clear();
    match command {
        Command::Create { key, spec } => put(&create(db, key, spec), out),
        Command::Alter { key, change } => put(&alter(db, &key, change, steps), out),
        Command::Add {
            key,
            at,
            value,
            on,
            spec,
        } => put(
            &add(db, key, time_at(at, reading), value, on, spec, steps),
            out,
        ),
        Command::Madd { triples } => execute_triples(db, hints, triples, reading, out, steps),
        Command::Incr {
            key,
            change,
            at,
            spec,
        } => put(
            &incr(db, key, change, time_at(at, reading), spec, steps),
            out,
        ),
        Command::DelRange { key, from, to } => put(&delete(db, &key, from, to, steps), out),
        Command::CreateRule {
            source,
            dest,
            agg,
            grid,
        } => put(&create_rule(db, &source, &dest, agg, grid), out),
        Command::DeleteRule { source, dest } => put(&delete_rule(db, &source, &dest), out),
        Command::Range { key, latest, query } => write_range(db, &key, latest, &query, out, steps),
        Command::MRange {
            latest,
            show,
            filters,
            query,
            group,
        } => {
            let asked = MemberQuery {
                latest,
                show,
                query,
            };
            write_ranges(db, &filters, asked, group, out, steps);
        }
        Command::Get { key, latest } => write_get(db, &key, latest, out, steps),
        Command::MGet {
            latest,
            show,
            filters,
        } => write_members(
            db,
            &filters,
            &MemberContent::Last { latest, show },
            out,
            steps,
        ),
        Command::QueryIndex { filters } => write_members(
            db,
            &filters,
            &MemberContent::Key,
            out,
            steps,
        ),
        Command::InfoOf { key } => write_info(db, &key, out, steps),
        Command::Ping { word } => write_pong(word, out),
        Command::Echo { word } => write_word(word, out),
        Command::Quit => put(&ok(), out),
        Command::Drop { keys } => put(&drop_keys(db, &keys), out),
        Command::Exists { keys } => put(&count_keys(db, &keys), out),
    }
}

/// Law: if no triple of TS.MADD runs out of memory, its reply and effect are those of one step of the specification.
pub fn triples_with_memory_are_one_step()
    ensures { (reading : ℕ) (triples : List Triple) (old new : DbState) (reply : Reply)
        → (all : HasAllItems reading triples old reply new)
        → All (λ item. item ≢ memory_reply) all.items
        → IsStep (step old.limits old.state reading (Madd triples)) old reply new }
{}

// TS.ADD without options other than ON_DUPLICATE, executed straight from its arguments: the most frequent request.
ghost use Rattle.std.specs.Prelude.{◌≡◌, ◌+◌, ◌≤◌, length, None};
ghost use Rattle.ts_spec.specs.Keyed.{get};
ghost use Rattle.ts_spec.specs.Sample.{MAX_TIME};
ghost use Rattle.ts_spec.specs.Settings.{nothing};
ghost use Rattle.ts_spec.specs.SeriesOptions.{spec};
ghost use Rattle.ts_spec.specs.Step.{add};
ghost use Rattle.ts_resp.specs.Replies.{reply_of};
ghost use Rattle.ts_command.specs.SimpleAdd.{simple_add_of};
ghost use Rattle.ts_db.specs.DbState.{DbState, Represents, Simulates};
ghost use Rattle.ts_questions.specs.Answering.{IsShort};
ghost use Rattle.ts_execution.specs.Handling.{StepOrOutOfMemory, Executes};

use crate::answers::number;
use crate::changes::{add, time_at};
use std::alloc::Global;
use std::sync::ledger::Ledger;
use ts_command::SimpleAdd;
use ts_db::{Db, DbFault, Hints};
use ts_questions::refusal_reply;
use ts_resp::{Out, Reply, put};
use ts_sample::Steps;

/// Executes TS.ADD without options other than ON_DUPLICATE, and leaves its reply in `out`.
pub(crate) fn execute_addition<L: Ledger>(
    db: &mut Db,
    hints: &mut Hints,
    alloc: Global,
    addition: &SimpleAdd,
    reading: u64,
    out: &mut Out,
    steps: &mut Steps<L>,
)
    requires room { 128 ≤ length out.old.bytes + out.old.spare }
    ensures executes { Simulates db.old db.new
        (λ from to. Executes reading (simple_add_of addition.now) from out.new.bytes to) }
    ensures room { 128 ≤ length out.new.bytes + out.new.spare }
{
    out.clear();
    let time = time_at(addition.at, reading);
    put(&write(db, hints, alloc, addition, time, steps), out);
}

// Writes the sample. The key is copied only for a new series.
fn write<L: Ledger>(
    db: &mut Db,
    hints: &mut Hints,
    alloc: Global,
    addition: &SimpleAdd,
    time: u64,
    steps: &mut Steps<L>,
) -> Reply
    requires { time ≤ MAX_TIME }
    ensures answer { Simulates db.old db.new
        (λ from to. StepOrOutOfMemory (add from.limits from.state addition.now.key.now time addition.now.value
        addition.now.on (spec nothing)) from (reply_of result) to) }
    ensures short { IsShort (reply_of result) }
{
    match db.put_with_hints(
        hints,
        addition.key,
        time,
        addition.value,
        addition.on,
        steps,
    ) {
        Ok(time) => number(time),
        Err(fault) => match fault {
            DbFault::NoKey => begin(db, alloc, addition, time, steps),
            other => refusal_reply(other),
        },
    }
}

// Creates the series and writes its first sample.
#[inline(never)]
fn begin<L: Ledger>(
    db: &mut Db,
    alloc: Global,
    addition: &SimpleAdd,
    time: u64,
    steps: &mut Steps<L>,
) -> Reply
    requires time { time ≤ MAX_TIME }
    requires missing { (from : DbState) → Represents db.old from → get addition.now.key.now from.state ≡ None }
    ensures answer { Simulates db.old db.new
        (λ from to. StepOrOutOfMemory (add from.limits from.state addition.now.key.now time addition.now.value
        addition.now.on (spec nothing)) from (reply_of result) to) }
    ensures short { IsShort (reply_of result) }
{
    match addition.key.copy() {
        Ok(key) => add(
            db,
            key,
            time,
            addition.value,
            addition.on,
            SimpleAdd::spec(alloc),
            steps,
        ),
        Err(fault) => {
            if db.is_full() {
                return refusal_reply(DbFault::KeysFull);
            }
            refusal_reply(DbFault::Memory(fault))
        }
    }
}

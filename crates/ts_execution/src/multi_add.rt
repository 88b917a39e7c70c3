// TS.MADD.
ghost use Rattle.std.specs.Prelude.{◌≡◌, ◌+◌, ◌*◌, ◌≤◌, [], length};
ghost use Rattle.ts_resp.specs.Replies.{reply_of};
ghost use Rattle.ts_command.specs.Reading.{triple_of, triples_of};
ghost use Rattle.ts_db.specs.DbState.{Simulates};
ghost use Rattle.ts_questions.specs.Answering.{IsShort};
ghost use Rattle.ts_execution.specs.Handling.{HasItem, Executes, WritesAll};
ghost use Rattle.ts_spec.specs.Command.{Madd};

use crate::answers::{fault_reply, number_reply};
use crate::changes::time_at;
use std::sync::ledger::Ledger;
use ts_command::Triple;
use ts_db::{Db, Hints};
use ts_questions::write_out_of_memory;
use ts_resp::{Out, Reply, begin_array, put, reserve_items};
use ts_sample::Steps;

/// Executes TS.MADD and writes its reply. Reserves memory for the whole reply before the first write.
pub(crate) fn execute_triples<L: Ledger>(
    db: &mut Db,
    hints: &mut Hints,
    triples: Vec<Triple>,
    reading: u64,
    out: &mut Out,
    steps: &mut Steps<L>,
)
    requires empty { out.old.bytes ≡ [] }
    requires room { 128 ≤ out.old.spare }
    ensures executes { Simulates db.old db.new
        (λ from to. Executes reading (Madd (triples_of triples.items)) from out.new.bytes to) }
    ensures room { 128 ≤ length out.new.bytes + out.new.spare }
{
    match reserve_items(triples.len(), out) {
        Ok(()) => add_triples(db, hints, triples, reading, out, steps),
        Err(_) => write_out_of_memory(out),
    }
}

// Executes the triples in order, and writes their items into the reserved buffer.
fn add_triples<L: Ledger>(
    db: &mut Db,
    hints: &mut Hints,
    triples: Vec<Triple>,
    reading: u64,
    out: &mut Out,
    steps: &mut Steps<L>,
)
    requires empty { out.old.bytes ≡ [] }
    requires room { 128 ≤ out.old.spare }
    requires items { 64 * length triples.items + 64 ≤ out.old.spare }
    ensures reply { Simulates db.old db.new
        (λ from to. WritesAll reading (triples_of triples.items) from out.new.bytes to) }
    ensures room { 128 ≤ length out.new.bytes + out.new.spare }
{
    begin_array(triples.len(), out);
    for triple in triples {
        let item = add_triple(db, hints, triple, reading, steps);
        put(&item, out);
    }
}

// Executes one triple and returns its item.
fn add_triple<L: Ledger>(
    db: &mut Db,
    hints: &mut Hints,
    triple: Triple,
    reading: u64,
    steps: &mut Steps<L>,
) -> Reply
    ensures reply { Simulates db.old db.new
        (λ from to. HasItem from.limits reading (triple_of triple) from.state (reply_of result) to.state
        × (to.limits ≡ from.limits)) }
    ensures short { IsShort (reply_of result) }
{
    let at = match triple.at {
        Ok(at) => at,
        Err(fault) => return fault_reply(fault),
    };
    match triple.value {
        Ok(value) => number_reply(db.put_with_hints(
            hints,
            &triple.key,
            time_at(at, reading),
            value,
            None,
            steps,
        )),
        Err(fault) => fault_reply(fault),
    }
}

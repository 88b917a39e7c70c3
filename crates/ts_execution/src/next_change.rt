// Takes the next request of a journal: the head or a part of its checkpoint, or a change.
ghost use Rattle.std.specs.Prelude.{◌≡◌, ◌≢◌, ℕ, ◌<◌, ◌≤◌};
ghost use Rattle.ts_resp.specs.Reading.{fed};
ghost use Rattle.ts_db.specs.DbState.{Simulates};
ghost use Rattle.ts_execution.specs.declared.stage.Stage.TheVariants as stages;
ghost use Rattle.ts_execution.specs.JournalReplay.{HasNoWholeRequest};
ghost use Rattle.ts_execution.specs.Stages.{IsNextChange, IfChange, TakesRequest};

use crate::heads::parts_said;
use crate::journal_replay::{ReplayResult, replay_request};
use crate::parts::{PartResult, restore_request};
use crate::stage::Stage;
use std::sync::ledger::Ledger;
use ts_db::{Db, Hints};
use ts_resp::{Next, Reader, Word};
use ts_sample::Steps;

/// The result of taking the next request.
#[derive(Clone, Copy, Debug, PartialEq, Eq)]
pub(crate) enum NextChange {
    /// A change was replayed, or a part of the checkpoint restored. It ends at this offset.
    Change(u64),
    /// No complete request is left.
    Nothing,
    /// The journal breaks at this offset.
    Broken(u64),
    /// Out of memory.
    Memory,
}

/// Takes the next request, if it is complete. `end` is the offset after the requests before it.
pub(crate) fn next_change<L: Ledger>(
    reader: &mut Reader,
    stage: &mut Stage,
    end: u64,
    db: &mut Db,
    hints: &mut Hints,
    steps: &mut Steps<L>,
) -> NextChange
    ensures finds { Simulates db.old db.new
        (λ from to. IsNextChange result stage.old stage.new reader.old reader.new end from to) }
    ensures onward { IfChange result (reader.old.begin < reader.new.begin) }
    ensures fed { fed reader.new ≡ fed reader.old }
    ensures within { reader.new.begin ≤ fed reader.new }
    ensures all { result ≡ NextChange.Nothing → HasNoWholeRequest reader.new }
{
    match reader.next() {
        Next::Request(words) => take_request(stage, words, end, reader.begin(), db, hints, steps),
        Next::NotYet => NextChange::Nothing,
        Next::Broken(fault) => NextChange::Broken(fault.place),
        Next::Memory => NextChange::Memory,
    }
}

// Takes a request that ends at offset `after`.
fn take_request<L: Ledger>(
    stage: &mut Stage,
    words: Vec<Word>,
    end: u64,
    after: u64,
    db: &mut Db,
    hints: &mut Hints,
    steps: &mut Steps<L>,
) -> NextChange
    ensures takes { Simulates db.old db.new
        (λ from to. TakesRequest result stage.old stage.new words.items end after from to) }
    ensures some { result ≢ NextChange.Nothing }
{
    match stage {
        Stage::Changes { .. } => take_change(words, end, after, db, hints, steps),
        Stage::Start => take_first(stage, words, after, db, hints, steps),
        Stage::Parts { more, current } => {
            let left = *more;
            match restore_request(current.take(), words, db, steps) {
                PartResult::Taken(current) => stage.enter(left, current, after),
                PartResult::Refused => NextChange::Broken(end),
                PartResult::Memory => NextChange::Memory,
            }
        }
    }
}

// Takes the first request: the head of a checkpoint, or a change.
fn take_first<L: Ledger>(
    stage: &mut Stage,
    words: Vec<Word>,
    after: u64,
    db: &mut Db,
    hints: &mut Hints,
    steps: &mut Steps<L>,
) -> NextChange
    ensures takes { Simulates db.old db.new
        (λ from to. (end : ℕ) → TakesRequest result stages.Start stage.new words.items end after from to) }
    ensures some { result ≢ NextChange.Nothing }
{
    match parts_said(&words) {
        Ok(Some(left)) => stage.enter(left, None, after),
        Ok(None) => {
            *stage = Stage::Changes { checkpoint: 0 };
            take_change(words, 0, after, db, hints, steps)
        }
        Err(_) => NextChange::Memory,
    }
}

// Replays a change that ends at offset `after`. The requests before it end at `before`.
fn take_change<L: Ledger>(
    words: Vec<Word>,
    before: u64,
    after: u64,
    db: &mut Db,
    hints: &mut Hints,
    steps: &mut Steps<L>,
) -> NextChange
    ensures takes { Simulates db.old db.new
        (λ from to. (checkpoint : ℕ) → TakesRequest result (stages.Changes checkpoint) (stages.Changes checkpoint)
        words.items before after from to) }
    ensures some { result ≢ NextChange.Nothing }
{
    match replay_request(db, hints, words, steps) {
        ReplayResult::Accepted => NextChange::Change(after),
        ReplayResult::Refused => NextChange::Broken(before),
        ReplayResult::Memory => NextChange::Memory,
    }
}

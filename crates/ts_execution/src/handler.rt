// Request handlers, as a session uses them.
ghost use Rattle.std.specs.Prelude.{◌≡◌, ◌+◌, ◌≤◌, List, ℕ, length, Option, IfOk};
ghost use Rattle.ts_spec.specs.Run.{is_quit};
ghost use Rattle.ts_db.specs.DbState.{DbState, Simulates};
ghost use Rattle.ts_execution.specs.Handling.{plain};
ghost use Rattle.ts_execution.specs.Handler as kinds;

use crate::handling::handle_request;
use std::sync::ledger::Ledger;
use ts_db::{Db, Hints};
use ts_io::{Clock, Failed, Sink, write_all_counted};
use ts_resp::{Out, Word};
use ts_sample::Steps;

/// Handles requests. Says what handling does beyond the reply, and what else may fail.
pub trait Handler {
    /// The kind of handler.
    ghost kind: { kinds.Handler };

    /// The world, given the database and the clock readings left.
    ghost world: { Self → DbState → Option (List ℕ) → kind.World };

    /// Its own fault counters.
    ghost own: { Self → kind.Faults };

    /// The identity of the reference that it holds, if any. It does not change.
    ghost lent: { Self → ℕ };

    /// Handles a request, leaves its reply in `room` and writes it to `out`. Returns whether it was QUIT. Moves
    /// arguments that the command stores out of `words`. Hints change no effect and no reply.
    fn answer<C: Clock, K: Sink, L: Ledger>(
        &mut self,
        db: &mut Db,
        hints: &mut Hints,
        words: &mut Vec<Word>,
        clock: &mut C,
        room: &mut Out,
        out: &mut K,
        steps: &mut Steps<L>,
    ) -> Result<bool, Failed>
        requires { 128 ≤ length room.old.bytes + room.old.spare }
        ensures answered { Simulates db.old db.new (λ from to. kinds.Answered kind result words.old.items room.new.bytes
            (world self.old from (C.readings clock.old)) (world self.new to (C.readings clock.new)) (K.has out.old)
            (K.has out.new)) }
        ensures quits { IfOk result (λ quits. quits ≡ is_quit words.old.items) }
        ensures room { 128 ≤ length room.new.bytes + room.new.spare }
        ensures cause { kinds.HasHandlerCause kind result (K.faults out.old) (K.faults out.new) (own self.old)
            (own self.new) }
        ensures lent { lent self.new ≡ lent self.old };
}

/// Handles requests without a journal.
#[derive(Drop)]
pub struct Plain;

impl Handler for Plain {
    ghost kind = { plain };

    ghost world = { λ s held readings. record { held = held; readings = readings } };

    ghost own = { λ s. tt };

    ghost lent = { λ s. 0 };

    fn answer<C: Clock, K: Sink, L: Ledger>(
        &mut self,
        db: &mut Db,
        hints: &mut Hints,
        words: &mut Vec<Word>,
        clock: &mut C,
        room: &mut Out,
        out: &mut K,
        steps: &mut Steps<L>,
    ) -> Result<bool, Failed> {
        let quits = handle_request(db, hints, words, clock, room, steps);
        match write_all_counted(out, room.bytes()) {
            Ok(()) => Ok(quits),
            Err(failed) => Err(failed),
        }
    }
}

// Handles a request, with or without its record.
ghost use Rattle.std.specs.Prelude.{◌≡◌, ◌+◌, ◌≤◌, length};
ghost use Rattle.ts_spec.specs.Run.{is_quit};
ghost use Rattle.ts_db.specs.DbState.{Simulates};
ghost use Rattle.ts_execution.specs.Recording.{record_bytes};
ghost use Rattle.ts_host.specs.Http as spec;
ghost use Rattle.ts_host.specs.Recorder.{IsHandled};

use std::sync::ledger::Ledger;
use ts_db::{Db, Hints};
use ts_execution::{Handled, handle_recorded, handle_request};
use ts_io::{Clock, Log, NoLog};
use ts_resp::{Out, Word};
use ts_sample::Steps;

/// Says whether changes are recorded in a log.
pub trait Recording<J: Log> {
    /// Handles a request and leaves its reply in `room`. Returns its record if it is a change that the log stores.
    fn handle<C: Clock, L: Ledger>(
        db: &mut Db,
        hints: &mut Hints,
        words: &mut Vec<Word>,
        clock: &mut C,
        room: &mut Out,
        steps: &mut Steps<L>,
    ) -> Handled
        requires { 128 ≤ length room.old.bytes + room.old.spare }
        ensures handled { Simulates db.old db.new
            (λ from to. IsHandled J.content words.old.items (record { held = from; readings = C.readings clock.old })
            room.new.bytes (record_bytes result.entry room.new.bytes)
            (record { held = to; readings = C.readings clock.new })) }
        ensures quits { result.quits ≡ is_quit words.old.items }
        ensures room { 128 ≤ length room.new.bytes + room.new.spare };
}

/// Every change is recorded.
pub struct InJournal;

impl<J: Log> Recording<J> for InJournal {
    fn handle<C: Clock, L: Ledger>(
        db: &mut Db,
        hints: &mut Hints,
        words: &mut Vec<Word>,
        clock: &mut C,
        room: &mut Out,
        steps: &mut Steps<L>,
    ) -> Handled {
        handle_recorded(db, hints, words, clock, room, steps)
    }
}

/// No change is recorded, since the log stores nothing.
pub struct InMemory;

impl Recording<NoLog> for InMemory {
    fn handle<C: Clock, L: Ledger>(
        db: &mut Db,
        hints: &mut Hints,
        words: &mut Vec<Word>,
        clock: &mut C,
        room: &mut Out,
        steps: &mut Steps<L>,
    ) -> Handled {
        let quits = handle_request(db, hints, words, clock, room, steps);
        Handled { quits, entry: None }
    }
}

/// Whether a request is the first line of an HTTP request with a body, or its header that names the host. A web page
/// can make a browser send these to any address; what follows is never executed.
pub(crate) fn is_http(words: &[Word]) -> bool
    ensures { result ≡ spec.is_http words.now }
{
    match words {
        [first, ..] => {
            let first = first.bytes();
            first.eq_ignore_ascii_case(b"POST") || first.eq_ignore_ascii_case(b"Host:")
        }
        [] => false,
    }
}

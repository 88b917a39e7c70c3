// The buffer of one reply.
ghost use Rattle.std.specs.Prelude.{◌≡◌, ◌+◌, ◌≤◌, length};

use crate::handling::Recording;
use std::alloc::{AllocError, Global};
use std::sync::ledger::Ledger;
use ts_db::{Db, Hints};
use ts_execution::Handled;
use ts_io::{Clock, Log};
use ts_resp::{Out, Protocol, Reply, Word, put};
use ts_sample::Steps;

/// The buffer of one reply, which has space for each short one.
#[derive(Drop)]
pub struct ReplyBuffer {
    pub(crate) room: Out,
    ghost fits: { 128 ≤ length room.bytes + room.spare },
}

impl ReplyBuffer {
    ghost use Rattle.ts_spec.specs.Run.{is_quit};
    ghost use Rattle.ts_spec.specs.Text.{protocol_error_text};
    ghost use Rattle.ts_db.specs.DbState.{Simulates};
    ghost use Rattle.ts_execution.specs.Recording.{record_bytes};
    ghost use Rattle.ts_host.specs.Recorder.{IsHandled};

    /// An empty buffer.
    pub fn new(alloc: Global) -> Result<Self, AllocError> {
        let room = Out::new(alloc)?;
        Ok(ReplyBuffer { room })
    }

    /// The reply.
    pub(crate) fn bytes(&self) -> &[u8]
        ensures { result.now ≡ self.now.room.bytes }
    {
        self.room.bytes()
    }

    /// Handles a request, leaves its reply here, and returns its record if it is a change that the log stores.
    pub(crate) fn handle<J: Log, R: Recording<J>, C: Clock, L: Ledger>(
        &mut self,
        db: &mut Db,
        hints: &mut Hints,
        words: &mut Vec<Word>,
        clock: &mut C,
        steps: &mut Steps<L>,
    ) -> Handled
        ensures handled { Simulates db.old db.new
            (λ from to. IsHandled J.content words.old.items (record { held = from; readings = C.readings clock.old })
            self.new.room.bytes (record_bytes result.entry self.new.room.bytes)
            (record { held = to; readings = C.readings clock.new })) }
        ensures quits { result.quits ≡ is_quit words.old.items }
    {
        self.room.give_back();
        R::handle(db, hints, words, clock, &mut self.room, steps)
    }

    /// Leaves the text of a protocol error here.
    pub(crate) fn refuse(&mut self, fault: Protocol)
        ensures { self.new.room.bytes ≡ protocol_error_text fault.kind }
    {
        self.room.give_back();
        put(&Reply::Error(fault.message()), &mut self.room);
    }
}

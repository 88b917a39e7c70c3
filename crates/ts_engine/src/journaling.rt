// A run with a journal: how it ends, and the request handler that appends records.
ghost use Rattle.std.specs.Prelude.{◌≡◌};
ghost use Rattle.ts_execution.specs.Journaling.{journal_handler};
ghost use Rattle.ts_engine.specs.Journaled as journaled;

use crate::opened::{unloaded_place, unloaded_status};
use crate::piped::End;
use std::sync::ledger::Ledger;
use ts_db::{Db, Hints};
use ts_execution::{Handler, LoadFault};
use ts_io::{Clock, Failed, Log, Sink, write_all_counted};
use ts_resp::{Out, Word};
use ts_sample::Steps;
use ts_words::Status;

/// How a run with a journal ended.
#[derive(Clone, Copy, Debug, PartialEq, Eq)]
pub(crate) enum JournalEnd {
    /// The journal was loaded, and the input ended like this.
    Answered(End),
    /// The journal was loaded, but later a record could not be appended.
    AppendFault,
    /// The journal was not loaded.
    NotLoaded(LoadFault),
}

impl JournalEnd {
    /// The exit status for this end.
    pub(crate) fn status(self) -> Status
        ensures { result ≡ journaled.status_of self }
    {
        match self {
            JournalEnd::Answered(end) => end.status(),
            JournalEnd::AppendFault => Status::JournalFault,
            JournalEnd::NotLoaded(fault) => unloaded_status(fault),
        }
    }

    /// The offset in the status line; 0 if it has none.
    pub(crate) fn place(self) -> u64
        ensures { result ≡ journaled.place_of self }
    {
        match self {
            JournalEnd::Answered(end) => end.place(),
            JournalEnd::AppendFault => 0,
            JournalEnd::NotLoaded(fault) => unloaded_place(fault),
        }
    }
}

/// Handles requests with a journal: appends the record of each change before it writes the reply. If the journal fails,
/// it writes no reply and sets `failed`.
#[derive(Drop)]
pub(crate) struct Journaled<'a, J: Log> {
    pub(crate) log: &'a mut J,
    pub(crate) failed: bool,
}

impl<J: Log> Handler for Journaled<'_, J> {
    ghost kind = { journal_handler };

    ghost world = { λ s held readings.
        record { held = held; readings = readings; content = J.content s.log.now; failed = s.failed } };

    ghost own = { λ s. record { failed = s.failed; count = J.faults s.log.now } };

    ghost lent = { λ s. s.log.ghost_name };

    fn answer<C: Clock, K: Sink, L: Ledger>(
        &mut self,
        db: &mut Db,
        hints: &mut Hints,
        words: &mut Vec<Word>,
        clock: &mut C,
        room: &mut Out,
        out: &mut K,
        steps: &mut Steps<L>,
    ) -> Result<bool, Failed> {
        match self.execute_and_append(db, hints, words, clock, room, steps) {
            Ok(quits) => match write_all_counted(out, room.bytes()) {
                Ok(()) => Ok(quits),
                Err(failed) => Err(failed),
            },
            Err(failed) => Err(failed),
        }
    }
}

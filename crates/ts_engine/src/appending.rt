// Executes a request and appends its record to the journal.
ghost use Rattle.std.specs.Prelude.{◌≡◌, ◌≤◌, ◌+◌, length, IfOk, OnOk, OnErr};
ghost use Rattle.std.specs.Io.KnownBytes.{append_known};
ghost use Rattle.ts_io.specs.Causes.{HasCause};
ghost use Rattle.ts_io.specs.Logs.{AppendsPrefix};
ghost use Rattle.ts_execution.specs.Recording.{record_bytes};

use crate::journaling::Journaled;
use std::sync::ledger::Ledger;
use ts_db::{Db, Hints};
use ts_execution::handle_recorded;
use ts_io::{Clock, Failed, Log, append_all_counted};
use ts_journal::Record;
use ts_resp::{Out, Word};
use ts_sample::Steps;

impl<J: Log> Journaled<'_, J> {
    ghost use Rattle.ts_spec.specs.Run.{is_quit};
    ghost use Rattle.ts_db.specs.DbState.{Simulates};
    ghost use Rattle.ts_execution.specs.Journaling.{kept};
    ghost use Rattle.ts_engine.specs.JournalAppends.{IsAppended, HasAppendCause};

    // Executes a request, leaves its reply in `room` and appends its record to the journal. It has no output to write
    // to: if it returns `Ok`, the whole record is in the journal before any byte of the reply is written, so it is
    // still there if the process is killed from then on.
    pub(crate) fn execute_and_append<C: Clock, L: Ledger>(
        &mut self,
        db: &mut Db,
        hints: &mut Hints,
        words: &mut Vec<Word>,
        clock: &mut C,
        room: &mut Out,
        steps: &mut Steps<L>,
    ) -> Result<bool, Failed>
        requires { 128 ≤ length room.old.bytes + room.old.spare }
        ensures appended { Simulates db.old db.new (λ from to. IsAppended result words.old.items room.new.bytes
            (kept (C.readings clock.old) (J.content self.old.log.now) self.old.failed from)
            (kept (C.readings clock.new) (J.content self.new.log.now) self.new.failed to)) }
        ensures quits { IfOk result (λ quits. quits ≡ is_quit words.old.items) }
        ensures room { 128 ≤ length room.new.bytes + room.new.spare }
        ensures cause { HasAppendCause result
            (record { failed = self.old.failed; count = J.faults self.old.log.now })
            (record { failed = self.new.failed; count = J.faults self.new.log.now }) }
        ensures lent { self.new.log.ghost_name ≡ self.old.log.ghost_name }
    {
        let taken = handle_recorded(db, hints, words, clock, room, steps);
        match append_record(self.log, taken.entry, room.bytes()) {
            Ok(()) => {}
            Err(failed) => {
                self.failed = true;
                return Err(failed);
            }
        }
        Ok(taken.quits)
    }
}

// Appends a record to the journal, given the reply's text.
fn append_record<J: Log>(log: &mut J, entry: Option<Record>, reply: &[u8]) -> Result<(), Failed>
    ensures all { OnOk result (J.content log.new ≡ append_known (J.content log.old) (record_bytes entry reply.now)) }
    ensures front { OnErr result
        (AppendsPrefix (J.content log.old) (J.content log.new) (record_bytes entry reply.now)) }
    ensures place { J.place log.new ≡ J.place log.old }
    ensures cause { HasCause (J.faults log.old) (J.faults log.new) result }
{
    match entry {
        Some(entry) => {
            let mut entry = entry;
            append_all_counted(log, entry.bytes(reply))
        }
        None => append_all_counted(log, &[]),
    }
}

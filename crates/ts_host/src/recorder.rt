// Adds records to the journal.
ghost use Rattle.std.specs.Prelude.{◌≡◌, [], ◌++◌, OnOk, OnErr};
ghost use Rattle.std.specs.Io.KnownBytes.{append_known};
ghost use Rattle.ts_io.specs.Causes.{HasCause};
ghost use Rattle.ts_io.specs.Gathering.{lent_to, log_of, pending_of, whole};
ghost use Rattle.ts_io.specs.Logs.{AppendsPrefix};
ghost use Rattle.ts_execution.specs.Recording.{record_bytes};
ghost use Rattle.ts_host.specs.Recorder.{gathered_of};

use std::alloc::Global;
use ts_io::{Failed, Gathered, Log};
use ts_journal::Record;

/// Adds records to the journal: those of a wake-up in one write.
#[derive(Drop)]
pub(crate) struct Recorder<'a, J: Log> {
    log: Gathered<'a, J>,
    // whether the journal is synced after each write
    syncs: bool,
}

impl<'a, J: Log> Recorder<'a, J> {
    /// Starts with no record. Allocates nothing.
    pub(crate) fn new(alloc: Global, log: &'a mut J, syncs: bool) -> Self
        ensures log { log_of (gathered_of result) ≡ log.entry.now }
        ensures pending { pending_of (gathered_of result) ≡ [] }
        ensures same_reference { lent_to (gathered_of result) ≡ log.entry.ghost_name }
    {
        Recorder {
            log: Gathered::new(alloc, log),
            syncs,
        }
    }

    /// The log. Records that wait are not added to it.
    pub(crate) fn into_log(self) -> &'a mut J
        ensures log { result.now ≡ log_of (gathered_of self.entry) }
        ensures same_reference { result.ghost_name ≡ lent_to (gathered_of self.entry) }
    {
        let Recorder { log, .. } = self;
        log.into_log()
    }

    /// Adds the record of a change, given the reply's text, to those that wait.
    pub(crate) fn add(&mut self, entry: Option<Record>, reply: &[u8]) -> Result<(), Failed>
        ensures all { OnOk result (whole J.content (gathered_of self.new)
            ≡ append_known (whole J.content (gathered_of self.old)) (record_bytes entry reply.now)) }
        ensures prefix { AppendsPrefix (J.content (log_of (gathered_of self.old)))
            (J.content (log_of (gathered_of self.new)))
            (pending_of (gathered_of self.old) ++ record_bytes entry reply.now) }
        ensures cause { HasCause (J.faults (log_of (gathered_of self.old))) (J.faults (log_of (gathered_of self.new)))
            result }
        ensures same_reference { lent_to (gathered_of self.new) ≡ lent_to (gathered_of self.old) }
    {
        match entry {
            Some(entry) => {
                let mut entry = entry;
                self.log.add(entry.bytes(reply))
            }
            None => self.log.add(&[]),
        }
    }

    /// Writes all records that wait, and syncs the journal where that is asked for.
    pub(crate) fn settle(&mut self) -> Result<(), Failed>
        ensures whole { OnOk result (whole J.content (gathered_of self.new) ≡ whole J.content (gathered_of self.old)) }
        ensures none { OnOk result (pending_of (gathered_of self.new) ≡ []) }
        ensures prefix { AppendsPrefix (J.content (log_of (gathered_of self.old)))
            (J.content (log_of (gathered_of self.new))) (pending_of (gathered_of self.old)) }
        ensures cause { HasCause (J.faults (log_of (gathered_of self.old))) (J.faults (log_of (gathered_of self.new)))
            result }
        ensures same_reference { lent_to (gathered_of self.new) ≡ lent_to (gathered_of self.old) }
    {
        match self.log.settle() {
            Ok(()) => {}
            Err(failed) => return Err(failed),
        }
        if !self.syncs {
            return Ok(());
        }
        self.log.sync()
    }
}

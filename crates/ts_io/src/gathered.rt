// Appends to a log that leave in one write.
ghost use Rattle.std.specs.Prelude.{◌≡◌, [], ◌++◌, OnOk, OnErr};
ghost use Rattle.std.specs.Io.KnownBytes.{append_known};
ghost use Rattle.ts_io.specs.Causes.{HasCause};
ghost use Rattle.ts_io.specs.Gathering.{lent_to, log_of, pending_of, whole};
ghost use Rattle.ts_io.specs.Logs.{AppendsPrefix};

use crate::{Failed, Log, append_all_counted};
use std::alloc::Global;

/// A log with bytes that wait to be appended to it.
#[derive(Drop)]
pub struct Gathered<'a, J: Log> {
    log: &'a mut J,
    pending: Vec<u8>,
    // whether bytes were appended since the last sync
    is_unsynced: bool,
}

impl<'a, J: Log> Gathered<'a, J> {
    /// Starts with nothing that waits. Allocates nothing.
    pub fn new(alloc: Global, log: &'a mut J) -> Self
        ensures log { log_of result ≡ log.entry.now }
        ensures pending { pending_of result ≡ [] }
        ensures same_reference { lent_to result ≡ log.entry.ghost_name }
    {
        Gathered {
            log,
            pending: Vec::new(alloc),
            is_unsynced: false,
        }
    }

    /// The log. What waits is not appended to it.
    pub fn into_log(self) -> &'a mut J
        ensures log { result.now ≡ log_of self.entry }
        ensures same_reference { result.ghost_name ≡ lent_to self.entry }
    {
        let Gathered { log, .. } = self;
        log
    }

    /// Adds bytes to those that wait. If memory for them runs out, appends everything to the log at once.
    pub fn add(&mut self, bytes: &[u8]) -> Result<(), Failed>
        ensures all { OnOk result (whole J.content self.new ≡ append_known (whole J.content self.old) bytes.now) }
        ensures front { OnErr result (AppendsPrefix (J.content (log_of self.old)) (J.content (log_of self.new))
            (pending_of self.old ++ bytes.now)) }
        ensures prefix { AppendsPrefix (J.content (log_of self.old)) (J.content (log_of self.new))
            (pending_of self.old ++ bytes.now) }
        ensures same_reference { lent_to self.new ≡ lent_to self.old }
        ensures cause { HasCause (J.faults (log_of self.old)) (J.faults (log_of self.new)) result }
    {
        match self.pending.extend_from_slice(bytes) {
            Ok(()) => return Ok(()),
            Err(_) => self.settle()?,
        }
        self.is_unsynced = true;
        match append_all_counted(self.log, bytes) {
            Ok(()) => Ok(()),
            Err(failed) => Err(failed),
        }
    }

    /// Appends everything that waits to the log.
    pub fn settle(&mut self) -> Result<(), Failed>
        ensures whole { OnOk result (whole J.content self.new ≡ whole J.content self.old) }
        ensures none { OnOk result (pending_of self.new ≡ []) }
        ensures front { OnErr result (AppendsPrefix (J.content (log_of self.old)) (J.content (log_of self.new))
            (pending_of self.old)) }
        ensures prefix { AppendsPrefix (J.content (log_of self.old)) (J.content (log_of self.new))
            (pending_of self.old) }
        ensures same_reference { lent_to self.new ≡ lent_to self.old }
        ensures cause { HasCause (J.faults (log_of self.old)) (J.faults (log_of self.new)) result }
    {
        if self.pending.is_empty() {
            return Ok(());
        }
        self.is_unsynced = true;
        append_all_counted(self.log, &self.pending)?;
        self.pending.clear();
        Ok(())
    }

    /// Syncs the log, if anything was appended to it since the last sync.
    pub fn sync(&mut self) -> Result<(), Failed>
        ensures content { J.content (log_of self.new) ≡ J.content (log_of self.old) }
        ensures pending { pending_of self.new ≡ pending_of self.old }
        ensures same_reference { lent_to self.new ≡ lent_to self.old }
        ensures cause { HasCause (J.faults (log_of self.old)) (J.faults (log_of self.new)) result }
    {
        if !self.is_unsynced {
            return Ok(());
        }
        self.log.sync()?;
        self.is_unsynced = false;
        Ok(())
    }
}

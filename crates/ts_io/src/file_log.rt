// A log over a file.
ghost use Rattle.std.specs.Prelude.{◌≡◌, ◌<◌, ◌≤◌, None, length, IfOk, OnOk, OnErr};
ghost use Rattle.std.specs.Io.{ReadsAtMost, WritesAtMost};
ghost use Rattle.ts_io.specs.Adapters.{failed_log_calls_of, last_log_cause_of, log_position_of};
ghost use Rattle.ts_io.specs.Causes.{HasCause, saturating_succ};
ghost use Rattle.ts_io.specs.Logs.{ReadAdvances};

use crate::log_files::LogFiles;
use crate::system::{checked, noted};
use crate::{Cause, Failed, Log};
use std::fs::File;
use std::rt::Files;

/// A log over a file, which counts its errors. Its content is unknown to the proofs.
///
/// The file stays locked while it is open, so no other program with such a log can append to it. It is closed when
/// another file is opened or the log is dropped.
///
/// A draft is a file beside it, locked too. If the log is NAME, or a link to NAME, the draft is NAME.folding.
#[derive(Drop)]
pub struct FileLog<R> {
    rt: R,
    files: LogFiles,
    place: u64,
    faults: u64,
    last_cause: Option<Cause>,
}

impl<R: Files<File = File> + AllocGlobal> FileLog<R> {
    /// Creates a log without an open file.
    pub fn new(rt: R) -> Self
        ensures place { log_position_of result ≡ 0 }
        ensures faults { failed_log_calls_of result ≡ 0 }
        ensures content { ⟦<FileLog<R> as Log>⟧.content result ≡ None }
    {
        FileLog {
            rt,
            files: LogFiles::none(),
            place: 0,
            faults: 0,
            last_cause: None,
        }
    }
}

impl<R: Files<File = File> + AllocGlobal> Log for FileLog<R> {
    ghost content = { λ _. None };

    ghost drafted = { λ _. None };

    ghost place = { log_position_of };

    ghost faults = { failed_log_calls_of };

    ghost last_cause = { last_log_cause_of };

    /// Opens and locks the file, creating it if it does not exist. The file that was open is closed first. The folder
    /// is synced, so that a new name outlives a power failure. Fails without changing the file if another log has it
    /// open, if it is not a regular file, or if the name no longer leads to it.
    fn open(&mut self, name: &str) -> Result<(), Failed>
        ensures start { OnOk result (log_position_of self.new ≡ 0) }
        ensures failed { OnErr result (log_position_of self.new ≡ log_position_of self.old) }
        ensures cause { HasCause (failed_log_calls_of self.old) (failed_log_calls_of self.new) result }
        ensures err { OnErr result (failed_log_calls_of self.new ≡ saturating_succ (failed_log_calls_of self.old)) }
    {
        let outcome = noted(self.files.open(&self.rt, name), &mut self.last_cause);
        checked(outcome, &mut self.faults)?;
        self.place = 0;
        Ok(())
    }

    /// Fails if no file is open.
    fn read(&mut self, buf: &mut [u8]) -> Result<usize, Failed>
        ensures bound { ReadsAtMost result buf.new }
        ensures place { ReadAdvances (log_position_of self.old) (log_position_of self.new) result }
        ensures cause { HasCause (failed_log_calls_of self.old) (failed_log_calls_of self.new) result }
        ensures err { OnErr result (failed_log_calls_of self.new ≡ saturating_succ (failed_log_calls_of self.old)) }
    {
        let outcome = noted(self.files.read(buf, self.place), &mut self.last_cause);
        let count = checked(outcome, &mut self.faults)?;
        self.place = self.place.saturating_add(count as u64);
        Ok(count)
    }

    /// Returns `Ok` once the system reports that the remaining content is on disk. If the cut succeeds and that report
    /// fails, the call fails although the file is cut. Fails if no file is open.
    fn cut(&mut self, len: u64) -> Result<(), Failed>
        requires { len ≤ log_position_of self.old }
        ensures place { log_position_of self.new ≡ log_position_of self.old }
        ensures cause { HasCause (failed_log_calls_of self.old) (failed_log_calls_of self.new) result }
        ensures err { OnErr result (failed_log_calls_of self.new ≡ saturating_succ (failed_log_calls_of self.old)) }
    {
        let outcome = noted(self.files.cut(len), &mut self.last_cause);
        checked(outcome, &mut self.faults)
    }

    /// Makes one write call. Fails if no file is open.
    fn append(&mut self, bytes: &[u8]) -> Result<usize, Failed>
        ensures bound { WritesAtMost result bytes.now }
        ensures progress { 0 < length bytes.now → IfOk result (λ n. 0 < n) }
        ensures place { log_position_of self.new ≡ log_position_of self.old }
        ensures cause { HasCause (failed_log_calls_of self.old) (failed_log_calls_of self.new) result }
        ensures err { OnErr result (failed_log_calls_of self.new ≡ saturating_succ (failed_log_calls_of self.old)) }
    {
        let outcome = noted(self.files.append(bytes), &mut self.last_cause);
        checked(outcome, &mut self.faults)
    }

    /// Returns `Ok` once the system reports that the content is on disk. Fails if no file is open.
    fn sync(&mut self) -> Result<(), Failed>
        ensures place { log_position_of self.new ≡ log_position_of self.old }
        ensures cause { HasCause (failed_log_calls_of self.old) (failed_log_calls_of self.new) result }
        ensures err { OnErr result (failed_log_calls_of self.new ≡ saturating_succ (failed_log_calls_of self.old)) }
    {
        let outcome = noted(self.files.sync(), &mut self.last_cause);
        checked(outcome, &mut self.faults)
    }

    /// Fails if no file is open, if its name no longer leads to it, or if another log has the draft's file open.
    fn draft(&mut self) -> Result<(), Failed>
        ensures place { log_position_of self.new ≡ log_position_of self.old }
        ensures cause { HasCause (failed_log_calls_of self.old) (failed_log_calls_of self.new) result }
        ensures err { OnErr result (failed_log_calls_of self.new ≡ saturating_succ (failed_log_calls_of self.old)) }
    {
        let outcome = noted(self.files.begin_draft(&self.rt), &mut self.last_cause);
        checked(outcome, &mut self.faults)
    }

    /// Makes one write call. If it fails, the draft is removed.
    fn write_draft(&mut self, bytes: &[u8]) -> Result<usize, Failed>
        ensures bound { WritesAtMost result bytes.now }
        ensures progress { 0 < length bytes.now → IfOk result (λ n. 0 < n) }
        ensures place { log_position_of self.new ≡ log_position_of self.old }
        ensures cause { HasCause (failed_log_calls_of self.old) (failed_log_calls_of self.new) result }
        ensures err { OnErr result (failed_log_calls_of self.new ≡ saturating_succ (failed_log_calls_of self.old)) }
    {
        let outcome = noted(
            self.files.write_draft(&self.rt, bytes),
            &mut self.last_cause,
        );
        checked(outcome, &mut self.faults)
    }

    /// Syncs the draft, renames it to the name of the open file, and syncs the folder. If the first two succeed and the
    /// last fails, the call fails although the draft has taken the file's place. If the first two fail, the draft is
    /// removed.
    fn publish(&mut self) -> Result<(), Failed>
        ensures place { log_position_of self.new ≡ log_position_of self.old }
        ensures cause { HasCause (failed_log_calls_of self.old) (failed_log_calls_of self.new) result }
        ensures err { OnErr result (failed_log_calls_of self.new ≡ saturating_succ (failed_log_calls_of self.old)) }
    {
        let outcome = noted(self.files.publish(&self.rt), &mut self.last_cause);
        checked(outcome, &mut self.faults)
    }

    fn last_cause(&self) -> Option<Cause> {
        self.last_cause
    }
}

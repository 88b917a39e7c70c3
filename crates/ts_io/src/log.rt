// The log that holds a journal: it is read from its start, then appended to, and its content can be replaced.
ghost use Rattle.std.specs.Prelude.{◌≡◌, ◌⊎◌, ℕ, ◌<◌, ◌≤◌, List, length, Option, IfOk, OnOk, OnErr, None};
ghost use Rattle.std.specs.Io.{ReadsAtMost, WritesAtMost};
ghost use Rattle.std.specs.Io.KnownBytes.{ReadConsumes, append_known};
ghost use Rattle.ts_io.specs.Causes.{HasCause};
ghost use Rattle.ts_io.specs.Logs.{AppendsPrefix, AppendGrows, ReadAdvances, front, unread};

use crate::{Cause, Failed};

/// A named list of bytes that can be opened, read from its start, cut and appended to.
///
/// Its read position is the number of bytes read since it was last opened. It stops at `u64::MAX`.
///
/// The content can also be replaced as a whole: `draft` begins a new content beside it, `write_draft` appends to that,
/// and `publish` puts it in the place of the old one. The first two leave the content as it is, and a crash during
/// `publish` leaves the old content or the new one.
pub trait Log {
    ghost use Rattle.ts_io.specs.declared.failed.Cause.{Cause};

    /// The whole content, if the log knows it.
    ghost content: { Self → Option (List ℕ) };

    /// The draft, if there is one and the log knows it.
    ghost drafted: { Self → Option (List ℕ) };

    /// The read position.
    ghost place: { Self → ℕ };

    /// How many calls have failed. It never falls.
    ghost faults: { Self → ℕ };

    /// Why the last call that failed did so, if the system told.
    ghost last_cause: { Self → Option Cause };

    /// Opens the log with this name and moves to its start. Creates an empty one if it does not exist. There is no
    /// draft then.
    fn open(&mut self, name: &str) -> Result<(), Failed>
        ensures content { content self.new ≡ content self.old }
        ensures draft { drafted self.new ≡ None }
        ensures start { OnOk result (place self.new ≡ 0) }
        ensures failed { OnErr result (place self.new ≡ place self.old) }
        ensures cause { HasCause (faults self.old) (faults self.new) result };

    /// Reads the next bytes into the start of `buf` and returns their number. `Ok(0)` for a `buf` that is not empty is
    /// the end. A read that fails consumes nothing.
    fn read(&mut self, buf: &mut [u8]) -> Result<usize, Failed>
        // This also holds if the content is unknown.
        ensures bound { ReadsAtMost result buf.new }
        ensures bytes { ReadConsumes (unread (content self.old) (place self.old))
            (unread (content self.new) (place self.new)) result buf.new }
        ensures content { content self.new ≡ content self.old }
        ensures draft { drafted self.new ≡ drafted self.old }
        ensures place { ReadAdvances (place self.old) (place self.new) result }
        ensures cause { HasCause (faults self.old) (faults self.new) result };

    /// Keeps the first `len` bytes and drops the rest. A shorter log stays as it is.
    fn cut(&mut self, len: u64) -> Result<(), Failed>
        requires { len ≤ place self.old }
        ensures cut { OnOk result (content self.new ≡ front len (content self.old)) }
        ensures failed { OnErr result (content self.new ≡ content self.old) }
        ensures draft { drafted self.new ≡ drafted self.old }
        ensures place { place self.new ≡ place self.old }
        ensures cause { HasCause (faults self.old) (faults self.new) result };

    /// Appends a prefix of `bytes` and returns its length. A call that fails appends nothing.
    fn append(&mut self, bytes: &[u8]) -> Result<usize, Failed>
        ensures bound { WritesAtMost result bytes.now }
        ensures progress { 0 < length bytes.now → IfOk result (λ n. 0 < n) }
        ensures bytes { AppendGrows (content self.old) (content self.new) result bytes.now }
        ensures draft { drafted self.new ≡ drafted self.old }
        ensures place { place self.new ≡ place self.old }
        ensures cause { HasCause (faults self.old) (faults self.new) result };

    /// Returns `Ok` once the device reports that the content survives a crash of the system.
    fn sync(&mut self) -> Result<(), Failed>
        ensures content { content self.new ≡ content self.old }
        ensures draft { drafted self.new ≡ drafted self.old }
        ensures place { place self.new ≡ place self.old }
        ensures cause { HasCause (faults self.old) (faults self.new) result };

    /// Begins an empty draft beside the open log, in place of an earlier one.
    fn draft(&mut self) -> Result<(), Failed>
        ensures content { content self.new ≡ content self.old }

        // This says nothing of the draft of a log whose content is unknown.
        ensures empty { OnOk result (drafted self.new ≡ front 0 (content self.old)) }
        ensures place { place self.new ≡ place self.old }
        ensures cause { HasCause (faults self.old) (faults self.new) result };

    /// Appends a prefix of `bytes` to the draft and returns its length. A call that fails appends nothing. Fails if
    /// there is no draft.
    fn write_draft(&mut self, bytes: &[u8]) -> Result<usize, Failed>
        ensures bound { WritesAtMost result bytes.now }
        ensures progress { 0 < length bytes.now → IfOk result (λ n. 0 < n) }
        ensures bytes { AppendGrows (drafted self.old) (drafted self.new) result bytes.now }
        ensures content { content self.new ≡ content self.old }
        ensures place { place self.new ≡ place self.old }
        ensures cause { HasCause (faults self.old) (faults self.new) result };

    /// Puts the draft in the place of the content, as a whole: later appends go to its end. Returns `Ok` once the
    /// device reports that the new content survives a crash of the system. Fails if there is no draft. In each case
    /// there is none afterwards.
    fn publish(&mut self) -> Result<(), Failed>
        ensures done { OnOk result (content self.new ≡ drafted self.old) }

        // The new content may be in place although the device did not report that it survives a crash.
        ensures failed { OnErr result ((content self.new ≡ content self.old) ⊎ (content self.new ≡ drafted self.old)) }
        ensures none { drafted self.new ≡ None }
        ensures place { place self.new ≡ place self.old }
        ensures cause { HasCause (faults self.old) (faults self.new) result };

    /// Why the last call that failed did so, if the system told.
    fn last_cause(&self) -> Option<Cause>
        ensures { result ≡ last_cause self.now };
}

/// Appends all of `bytes`, in as many calls as needed. Stops at the first call that fails.
pub fn append_all_counted<J: Log>(log: &mut J, bytes: &[u8]) -> Result<(), Failed>
    ensures all { OnOk result (J.content log.new ≡ append_known (J.content log.old) bytes.now) }
    ensures front { OnErr result (AppendsPrefix (J.content log.old) (J.content log.new) bytes.now) }
    ensures draft { J.drafted log.new ≡ J.drafted log.old }
    ensures place { J.place log.new ≡ J.place log.old }
    ensures cause { HasCause (J.faults log.old) (J.faults log.new) result }
{
    let mut written = 0;
    while written < bytes.len() {
        written += log.append(&bytes[written..])?;
    }
    Ok(())
}

/// Appends all of `bytes` to the draft, in as many calls as needed. Stops at the first call that fails.
pub fn write_draft_all<J: Log>(log: &mut J, bytes: &[u8]) -> Result<(), Failed>
    ensures all { OnOk result (J.drafted log.new ≡ append_known (J.drafted log.old) bytes.now) }
    ensures front { OnErr result (AppendsPrefix (J.drafted log.old) (J.drafted log.new) bytes.now) }
    ensures content { J.content log.new ≡ J.content log.old }
    ensures place { J.place log.new ≡ J.place log.old }
    ensures cause { HasCause (J.faults log.old) (J.faults log.new) result }
{
    let mut written = 0;
    while written < bytes.len() {
        written += log.write_draft(&bytes[written..])?;
    }
    Ok(())
}

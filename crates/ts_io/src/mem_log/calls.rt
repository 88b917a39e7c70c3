// The calls of a log in memory.
ghost use Rattle.std.specs.Prelude.{◌≡◌, ◌⊎◌, ◌-◌, ◌<◌, ◌≤◌, ◌↔◌, [], None, Some, length, min, take, is_err};
ghost use Rattle.std.specs.Prelude.{Contains, IfOk, OnOk, OnErr, IsErr};
ghost use Rattle.std.specs.Io.{ReadsAtMost, WritesAtMost};
ghost use Rattle.std.specs.Io.KnownBytes.{ReadConsumes};
ghost use Rattle.ts_io.specs.Causes.{HasCause};
ghost use Rattle.ts_io.specs.Logs.{AppendGrows, ReadAdvances, unread};

use super::MemLog;
use crate::mem_streams::copy_prefix;
use crate::{Cause, Failed, Log};

impl Log for MemLog {
    ghost use Rattle.ts_io.specs.Calls.{next_call_number, after_call};

    ghost content = { λ s. Some s.content };

    ghost drafted = { λ s. s.draft };

    ghost place = { λ s. s.place };

    ghost faults = { λ s. s.calls.failed };

    ghost last_cause = { λ _. None };

    /// Opens the same content whatever the name.
    fn open(&mut self, _name: &str) -> Result<(), Failed>
        ensures content { self.new.content ≡ self.old.content }
        ensures draft { self.new.draft ≡ None }
        ensures start { OnOk result (self.new.place ≡ 0) }
        ensures failed { OnErr result (self.new.place ≡ self.old.place) }
        ensures cause { HasCause self.old.calls.failed self.new.calls.failed result }
        ensures calls { self.new.calls ≡ after_call self.old.calls (is_err result) }
        ensures fails { IsErr result ↔ Contains self.old.calls.to_fail (next_call_number self.old.calls) }
    {
        self.draft = None;
        self.schedule.call()?;
        self.place = 0;
        Ok(())
    }

    fn read(&mut self, buf: &mut [u8]) -> Result<usize, Failed>
        ensures bound { ReadsAtMost result buf.new }
        ensures bytes { ReadConsumes (unread (Some self.old.content) self.old.place)
            (unread (Some self.new.content) self.new.place) result buf.new }
        ensures content { self.new.content ≡ self.old.content }
        ensures draft { self.new.draft ≡ self.old.draft }
        ensures place { ReadAdvances self.old.place self.new.place result }
        ensures cause { HasCause self.old.calls.failed self.new.calls.failed result }

        // As many bytes as fit the buffer and are left.
        ensures count { IfOk result (λ n. n ≡ min (length buf.old) (length self.old.content - self.old.place)) }
        ensures calls { self.new.calls ≡ after_call self.old.calls (is_err result) }
        ensures fails { IsErr result ↔ Contains self.old.calls.to_fail (next_call_number self.old.calls) }
    {
        self.schedule.call()?;
        let start = self.content.len().min(self.place as usize);
        let count = copy_prefix(&self.content[start..], buf.len(), buf);
        self.place = self.place.saturating_add(count as u64);
        Ok(count)
    }

    fn cut(&mut self, len: u64) -> Result<(), Failed>
        requires { len ≤ self.old.place }
        ensures cut { OnOk result (self.new.content ≡ take len self.old.content) }
        ensures failed { OnErr result (self.new.content ≡ self.old.content) }
        ensures draft { self.new.draft ≡ self.old.draft }
        ensures place { self.new.place ≡ self.old.place }
        ensures cause { HasCause self.old.calls.failed self.new.calls.failed result }
        ensures calls { self.new.calls ≡ after_call self.old.calls (is_err result) }
        ensures fails { IsErr result ↔ Contains self.old.calls.to_fail (next_call_number self.old.calls) }
    {
        self.schedule.call()?;
        self.content.truncate(len as usize);
        Ok(())
    }

    fn append(&mut self, bytes: &[u8]) -> Result<usize, Failed>
        ensures bound { WritesAtMost result bytes.now }
        ensures progress { 0 < length bytes.now → IfOk result (λ n. 0 < n) }
        ensures bytes { AppendGrows (Some self.old.content) (Some self.new.content) result bytes.now }
        ensures draft { self.new.draft ≡ self.old.draft }
        ensures place { self.new.place ≡ self.old.place }
        ensures cause { HasCause self.old.calls.failed self.new.calls.failed result }

        // All of them.
        ensures count { IfOk result (λ n. n ≡ length bytes.now) }
        ensures calls { self.new.calls ≡ after_call self.old.calls (is_err result) }

        // Any other call may fail if memory runs out.
        ensures fails { Contains self.old.calls.to_fail (next_call_number self.old.calls) → IsErr result }
    {
        self.schedule.call()?;
        match self.content.extend_from_slice(bytes) {
            Ok(()) => Ok(bytes.len()),
            Err(_) => Err(self.schedule.fault()),
        }
    }

    /// Counts as a call, and changes nothing.
    fn sync(&mut self) -> Result<(), Failed>
        ensures content { self.new.content ≡ self.old.content }
        ensures draft { self.new.draft ≡ self.old.draft }
        ensures place { self.new.place ≡ self.old.place }
        ensures cause { HasCause self.old.calls.failed self.new.calls.failed result }
        ensures calls { self.new.calls ≡ after_call self.old.calls (is_err result) }
        ensures fails { IsErr result ↔ Contains self.old.calls.to_fail (next_call_number self.old.calls) }
    {
        self.schedule.call()
    }

    fn draft(&mut self) -> Result<(), Failed>
        ensures content { self.new.content ≡ self.old.content }
        ensures empty { OnOk result (self.new.draft ≡ Some []) }
        ensures none { OnErr result (self.new.draft ≡ None) }
        ensures place { self.new.place ≡ self.old.place }
        ensures cause { HasCause self.old.calls.failed self.new.calls.failed result }
        ensures calls { self.new.calls ≡ after_call self.old.calls (is_err result) }
        ensures fails { IsErr result ↔ Contains self.old.calls.to_fail (next_call_number self.old.calls) }
    {
        self.draft = None;
        self.schedule.call()?;
        self.draft = Some(Vec::new(*self.content.allocator()));
        Ok(())
    }

    fn write_draft(&mut self, bytes: &[u8]) -> Result<usize, Failed>
        ensures bound { WritesAtMost result bytes.now }
        ensures progress { 0 < length bytes.now → IfOk result (λ n. 0 < n) }
        ensures bytes { AppendGrows self.old.draft self.new.draft result bytes.now }
        ensures content { self.new.content ≡ self.old.content }
        ensures place { self.new.place ≡ self.old.place }
        ensures cause { HasCause self.old.calls.failed self.new.calls.failed result }

        // All of them.
        ensures count { IfOk result (λ n. n ≡ length bytes.now) }
        ensures calls { self.new.calls ≡ after_call self.old.calls (is_err result) }
        ensures fails { Contains self.old.calls.to_fail (next_call_number self.old.calls) → IsErr result }
        ensures none { self.old.draft ≡ None → IsErr result }
    {
        self.schedule.call()?;
        let Some(draft) = &mut self.draft else {
            return Err(self.schedule.fault())
        };
        match draft.extend_from_slice(bytes) {
            Ok(()) => Ok(bytes.len()),
            Err(_) => Err(self.schedule.fault()),
        }
    }

    /// If it fails, the content stays.
    fn publish(&mut self) -> Result<(), Failed>
        ensures done { OnOk result (Some self.new.content ≡ self.old.draft) }
        ensures failed { OnErr result (
            (Some self.new.content ≡ Some self.old.content) ⊎ (Some self.new.content ≡ self.old.draft)
            ) }
        ensures content { OnErr result (self.new.content ≡ self.old.content) }
        ensures none { self.new.draft ≡ None }
        ensures place { self.new.place ≡ self.old.place }
        ensures cause { HasCause self.old.calls.failed self.new.calls.failed result }
        ensures calls { self.new.calls ≡ after_call self.old.calls (is_err result) }
        ensures fails { Contains self.old.calls.to_fail (next_call_number self.old.calls) → IsErr result }
    {
        let draft = self.draft.take();
        self.schedule.call()?;
        match draft {
            Some(draft) => self.content = draft,
            None => return Err(self.schedule.fault()),
        }
        Ok(())
    }

    /// Always `None`: no system is behind it.
    fn last_cause(&self) -> Option<Cause> {
        None
    }
}

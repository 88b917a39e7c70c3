// Calls of the system: an interrupted one is made again, and each outcome is passed on through one function.
ghost use Rattle.std.specs.Prelude.{◌≡◌, ◌≤◌, length, take, IfOk, IfSome, OnErr};
ghost use Rattle.std.specs.Io.{ReadsAtMost, WritesAtMost};
ghost use Rattle.std.specs.Io.KnownBytes.{Appends, Keeps, ReadConsumes};
ghost use Rattle.ts_io.specs.Causes.{HasCause};
ghost use Rattle.ts_io.specs.System.{ArrivedConsumes, IsSameOutcome, CountsFailure, NotesCause};

use crate::failed::count_failure;
use crate::{Cause, Failed};
use std::io;
use std::io::{ErrorKind, Read, Write};

/// The result of a device call from that of its system call: an error exactly if that was one, else the same value.
/// Counts an error.
pub fn checked<T>(outcome: io::Result<T>, faults: &mut u64) -> Result<T, Failed>
    ensures same { IsSameOutcome outcome result }
    ensures counts { CountsFailure result faults.old faults.new }
    ensures cause { HasCause faults.old faults.new result }
{
    match outcome {
        Ok(value) => Ok(value),
        Err(_) => Err(count_failure(faults)),
    }
}

/// Passes an outcome on. Notes the cause of an error.
pub fn noted<T>(outcome: io::Result<T>, last: &mut Option<Cause>) -> io::Result<T>
    ensures same { result ≡ outcome }
    ensures cause { NotesCause outcome last.old last.new }
{
    if let Err(error) = &outcome {
        *last = Cause::of(error.kind());
    }
    outcome
}

/// Reads once. A read that a signal interrupted is made again, and so is one that ran out of time, where the reader has
/// a time limit.
pub(crate) fn read_retried<R: Read>(
    reader: &mut R,
    buf: &mut [u8],
    has_limit: bool,
) -> io::Result<usize>
    ensures bound { ReadsAtMost result buf.new }
    ensures bytes { ReadConsumes (R.remaining reader.old) (R.remaining reader.new) result buf.new }
{
    for _ in 0..u64::MAX {
        match reader.read(buf) {
            Err(error) if is_interrupted(&error) || has_limit && is_for_now(&error) => {}
            outcome => return outcome,
        }
    }
    Err(io::Error::from(ErrorKind::TimedOut))
}

/// Reads what has arrived. `None` means that nothing has.
pub(crate) fn read_arrived<R: Read>(reader: &mut R, buf: &mut [u8]) -> io::Result<Option<usize>>
    ensures bound { IfOk result (λ o. IfSome o (λ n. n ≤ length buf.new)) }
    ensures bytes { ArrivedConsumes (R.remaining reader.old) (R.remaining reader.new) result buf.new }
{
    match reader.read(buf) {
        Ok(count) => Ok(Some(count)),
        Err(error) if is_for_now(&error) => Ok(None),
        Err(error) => Err(error),
    }
}

/// Writes once. A write that a signal interrupted is made again.
pub(crate) fn write_retried<W: Write>(writer: &mut W, bytes: &[u8]) -> io::Result<usize>
    ensures bound { WritesAtMost result bytes.now }
    ensures ok { IfOk result (λ n. Appends (W.contents writer.old) (W.contents writer.new) (take n bytes.now)) }
    ensures err { OnErr result (Keeps (W.contents writer.old) (W.contents writer.new)) }
{
    for _ in 0..u64::MAX {
        match writer.write(bytes) {
            Err(error) if is_interrupted(&error) => {}
            written => return written,
        }
    }
    Err(io::Error::from(ErrorKind::TimedOut))
}

fn is_interrupted(error: &io::Error) -> bool {
    error.kind() == ErrorKind::Interrupted
}

/// Whether the call would have blocked, ran out of time or was interrupted.
pub(crate) fn is_for_now(error: &io::Error) -> bool {
    matches!(error.kind(), ErrorKind::WouldBlock | ErrorKind::Interrupted)
}

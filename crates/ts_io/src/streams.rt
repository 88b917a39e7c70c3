// Sources and sinks: the traits, and those over std's readers and writers.
ghost use Rattle.std.specs.Prelude.{◌<◌, ℕ, List, Option, length, IfOk, OnOk, OnErr, ◌≡◌, ◌≤◌, take, IfErr, IfSome};
ghost use Rattle.std.specs.Io.{ReadsAtMost, WritesAtMost};
ghost use Rattle.std.specs.Io.KnownBytes.{ReadConsumes, Appends};
ghost use Rattle.ts_io.specs.Causes.{HasCause, saturating_succ};
ghost use Rattle.ts_io.specs.Sinks.{Grows, GrowsByPrefix, WriteGrows};
ghost use Rattle.ts_io.specs.Adapters.{HoldsAcknowledged, reader_of, writer_of, failed_reads_of, failed_writes_of};
ghost use Rattle.ts_io.specs.Adapters.{unacknowledged_of};

use crate::Failed;
use crate::failed::count_failure;
use crate::system::{checked, read_retried, write_retried};
use std::io::{Read, Write};

/// A source of bytes.
pub trait Source {
    /// The bytes still to come, if the source knows them. A source that knows them once always does.
    ghost left: { Self → Option (List ℕ) };

    /// How many reads have failed. It never falls.
    ghost faults: { Self → ℕ };

    /// Reads the next bytes into the start of `buf` and returns their number. `Ok(0)` for a `buf` that is not empty is
    /// the end. A read that fails consumes nothing.
    fn read(&mut self, buf: &mut [u8]) -> Result<usize, Failed>
        // This also holds if the bytes to come are unknown.
        ensures bound { ReadsAtMost result buf.new }
        ensures bytes { ReadConsumes (left self.old) (left self.new) result buf.new }
        ensures cause { HasCause (faults self.old) (faults self.new) result };
}

/// A sink of bytes.
pub trait Sink {
    /// Whether the sink has these bytes: all that was written to it, in order. A sink that does not record them has no
    /// such list.
    ghost has: { Self → List ℕ → Type 0 };

    /// How many writes have failed. It never falls.
    ghost faults: { Self → ℕ };

    /// Writes a prefix of `bytes` and returns its length. A write that fails adds nothing to what the sink has.
    fn write(&mut self, bytes: &[u8]) -> Result<usize, Failed>
        ensures bound { WritesAtMost result bytes.now }
        ensures progress { 0 < length bytes.now → IfOk result (λ n. 0 < n) }
        ensures bytes { WriteGrows (has self.old) (has self.new) result bytes.now }
        ensures cause { HasCause (faults self.old) (faults self.new) result };
}

/// Writes all of `bytes`, in as many calls as needed. Stops at the first write that fails.
pub fn write_all_counted<K: Sink>(sink: &mut K, bytes: &[u8]) -> Result<(), Failed>
    ensures all { OnOk result (Grows (K.has sink.old) (K.has sink.new) bytes.now) }
    ensures front { OnErr result (GrowsByPrefix (K.has sink.old) (K.has sink.new) bytes.now) }
    ensures cause { HasCause (K.faults sink.old) (K.faults sink.new) result }
{
    let mut written = 0;
    while written < bytes.len() {
        written += sink.write(&bytes[written..])?;
    }
    Ok(())
}

/// A source over a std reader, which counts the reader's errors.
#[derive(Drop)]
pub struct StdSource<R> {
    inner: R,
    faults: u64,
}

impl<R: Read> StdSource<R> {
    /// Creates a source of what the reader has left.
    pub fn new(inner: R) -> Self
        ensures reader { reader_of result ≡ inner }
        ensures faults { failed_reads_of result ≡ 0 }
    {
        StdSource { inner, faults: 0 }
    }
}

impl<R: Read> Source for StdSource<R> {
    ghost left = { λ s. R.remaining (reader_of s) };

    ghost faults = { failed_reads_of };

    fn read(&mut self, buf: &mut [u8]) -> Result<usize, Failed>
        ensures bound { ReadsAtMost result buf.new }
        ensures bytes { ReadConsumes (R.remaining (reader_of self.old))
            (R.remaining (reader_of self.new)) result buf.new }
        ensures cause { HasCause (failed_reads_of self.old) (failed_reads_of self.new) result }
        ensures ok { OnOk result (failed_reads_of self.new ≡ failed_reads_of self.old) }
        ensures err { OnErr result (failed_reads_of self.new ≡ saturating_succ (failed_reads_of self.old)) }
    {
        checked(read_retried(&mut self.inner, buf, false), &mut self.faults)
    }
}

/// A sink over a std writer. It flushes after each write and counts the writer's errors.
///
/// If the writer accepts bytes and then fails to flush them, the write fails. Those bytes may or may not arrive, and
/// the sink counts them as unacknowledged.
#[derive(Drop)]
pub struct StdSink<W> {
    inner: W,
    faults: u64,
    unacknowledged: u64,
}

impl<W: Write> StdSink<W> {
    /// Creates a sink that has what the writer holds.
    pub fn new(inner: W) -> Self
        ensures writer { writer_of result ≡ inner }
        ensures has { IfSome (W.contents inner) (⟦<StdSink<W> as Sink>⟧.has result) }
        ensures faults { failed_writes_of result ≡ 0 }
        ensures unacknowledged { unacknowledged_of result ≡ 0 }
    {
        StdSink {
            inner,
            faults: 0,
            unacknowledged: 0,
        }
    }

    /// How many bytes the writer accepted and failed to flush. The count stops at `u64::MAX`.
    pub fn unacknowledged(&self) -> u64
        ensures { result ≡ unacknowledged_of self.now }
    {
        self.unacknowledged
    }
}

impl<W: Write> Sink for StdSink<W> {
    ghost has = { λ s w. HoldsAcknowledged (W.contents (writer_of s)) (unacknowledged_of s) w };

    ghost faults = { failed_writes_of };

    fn write(&mut self, bytes: &[u8]) -> Result<usize, Failed>
        ensures bound { WritesAtMost result bytes.now }
        ensures progress { 0 < length bytes.now → IfOk result (λ n. 0 < n) }
        ensures bytes { WriteGrows
            (HoldsAcknowledged (W.contents (writer_of self.old)) (unacknowledged_of self.old))
            (HoldsAcknowledged (W.contents (writer_of self.new)) (unacknowledged_of self.new))
            result bytes.now }
        ensures cause { HasCause (failed_writes_of self.old) (failed_writes_of self.new) result }
        ensures ok { OnOk result ((failed_writes_of self.new ≡ failed_writes_of self.old)
            × (unacknowledged_of self.new ≡ unacknowledged_of self.old)) }
        ensures err { OnErr result (failed_writes_of self.new ≡ saturating_succ (failed_writes_of self.old)) }
    {
        match write_and_flush(&mut self.inner, bytes) {
            Ok(count) => Ok(count),
            Err(unflushed) => {
                self.unacknowledged = self.unacknowledged.saturating_add(unflushed as u64);
                Err(count_failure(&mut self.faults))
            }
        }
    }
}

// Writes once and flushes. `Err` is the number of bytes that were written but not flushed.
fn write_and_flush<W: Write>(writer: &mut W, bytes: &[u8]) -> Result<usize, usize>
    ensures bound { IfOk result (λ n. n ≤ length bytes.now) }
    ensures progress { 0 < length bytes.now → IfOk result (λ n. 0 < n) }
    ensures flushed { IfOk result (λ n.
        Appends (W.contents writer.old) (W.contents writer.new) (take n bytes.now)) }
    ensures unflushed { IfErr result (λ n. (n ≤ length bytes.now)
        × Appends (W.contents writer.old) (W.contents writer.new) (take n bytes.now)) }
{
    match write_retried(writer, bytes) {
        Ok(0) if !bytes.is_empty() => Err(0),
        Ok(count) => match writer.flush() {
            Ok(()) => Ok(count),
            Err(_) => Err(count),
        },
        Err(_) => Err(0),
    }
}

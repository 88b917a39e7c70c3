// A source and a sink in memory, for tests and generated workloads.
ghost use Rattle.std.specs.Prelude.{◌≡◌, ◌≤◌, ◌↔◌, ◌<◌, [], length, min, take, Some, IsErr, IfOk, Contains, is_err};
ghost use Rattle.std.specs.Io.{ReadsAtMost, WritesAtMost};
ghost use Rattle.std.specs.Io.KnownBytes.{ReadConsumes};
ghost use Rattle.ts_io.specs.Causes.{HasCause};
ghost use Rattle.ts_io.specs.Sinks.{WriteGrows};

use crate::schedule::Schedule;
use crate::{Failed, Sink, Source};
use std::alloc::Global;
use std::marker::Model;

/// Copies a prefix of `from`, at most `most` bytes, to the start of `to`. Returns its length.
pub(crate) fn copy_prefix(from: &[u8], most: usize, to: &mut [u8]) -> usize
    ensures count { result ≡ min most (min (length to.old) (length from.now)) }
    ensures copied { take result to.new ≡ take result from.now }
{
    let count = most.min(to.len()).min(from.len());
    to[..count].copy_from_slice(&from[..count]);
    count
}

/// A source over bytes in memory. Each call gives at most `piece` bytes. The calls with chosen numbers fail.
#[derive(Drop)]
pub struct MemSource {
    bytes: Vec<u8>,
    place: usize,
    piece: usize,
    schedule: Schedule,
}

impl Model for MemSource {
    ghost use Rattle.std.specs.Prelude.{◌≤◌, drop, length};
    ghost use Rattle.ts_io.specs.Sources.{MemSourceState};

    ghost Value = { MemSourceState };

    ghost view = { λ s. record { left = drop s.place s.bytes.items; piece = s.piece; calls = s.schedule } };

    ghost invariant = { λ s. (s.place ≤ length s.bytes.items) × (1 ≤ s.piece) };
}

impl MemSource {
    /// Creates a source of `bytes` that gives at most `piece` of them a call, at least 1. A call fails exactly if its
    /// number, counted from 1, is in `fail`.
    pub fn new(bytes: Vec<u8>, piece: usize, fail: Vec<u64>) -> Self
        requires { 1 ≤ piece }
        ensures left { result.left ≡ bytes.items }
        ensures piece { result.piece ≡ piece }
        ensures calls { result.calls ≡ record { to_fail = fail.items; made = 0; failed = 0 } }
    {
        MemSource {
            bytes,
            place: 0,
            piece,
            schedule: Schedule::new(fail),
        }
    }
}

impl Source for MemSource {
    ghost use Rattle.ts_io.specs.Calls.{next_call_number, after_call};

    ghost left = { λ s. Some s.left };

    ghost faults = { λ s. s.calls.failed };

    fn read(&mut self, buf: &mut [u8]) -> Result<usize, Failed>
        ensures bound { ReadsAtMost result buf.new }
        ensures bytes { ReadConsumes (Some self.old.left) (Some self.new.left) result buf.new }
        ensures cause { HasCause self.old.calls.failed self.new.calls.failed result }

        // The least of the piece, the buffer and the bytes left.
        ensures count { IfOk result (λ n.
            n ≡ min self.old.piece (min (length buf.old) (length self.old.left))) }
        ensures piece { self.new.piece ≡ self.old.piece }
        ensures calls { self.new.calls ≡ after_call self.old.calls (is_err result) }
        ensures fails { IsErr result ↔ Contains self.old.calls.to_fail (next_call_number self.old.calls) }
    {
        self.schedule.call()?;
        let count = copy_prefix(&self.bytes[self.place..], self.piece, buf);
        self.place += count;
        Ok(count)
    }
}

/// A sink that keeps its bytes in memory. Each call accepts at most `most` bytes. The calls with chosen numbers fail,
/// and so does one that runs out of memory.
#[derive(Drop)]
pub struct MemSink {
    written: Vec<u8>,
    most: usize,
    schedule: Schedule,
}

impl Model for MemSink {
    ghost use Rattle.std.specs.Prelude.{◌≤◌};
    ghost use Rattle.ts_io.specs.Sinks.{MemSinkState};

    ghost Value = { MemSinkState };

    ghost view = { λ s. record { written = s.written.items; most = s.most; calls = s.schedule } };

    ghost invariant = { λ s. 1 ≤ s.most };
}

impl MemSink {
    /// Creates an empty sink that accepts at most `most` bytes a call, at least 1. A call fails if its number, counted
    /// from 1, is in `fail`.
    pub fn new(alloc: Global, most: usize, fail: Vec<u64>) -> Self
        requires { 1 ≤ most }
        ensures written { result.written ≡ [] }
        ensures most { result.most ≡ most }
        ensures calls { result.calls ≡ record { to_fail = fail.items; made = 0; failed = 0 } }
    {
        MemSink {
            written: Vec::new(alloc),
            most,
            schedule: Schedule::new(fail),
        }
    }

    /// The bytes written.
    pub fn bytes(&self) -> &[u8]
        ensures { result.now ≡ self.now.written }
    {
        &self.written
    }
}

impl Sink for MemSink {
    ghost use Rattle.ts_io.specs.Calls.{next_call_number, after_call};

    ghost has = { λ s w. s.written ≡ w };

    ghost faults = { λ s. s.calls.failed };

    fn write(&mut self, bytes: &[u8]) -> Result<usize, Failed>
        ensures bound { WritesAtMost result bytes.now }
        ensures progress { 0 < length bytes.now → IfOk result (λ n. 0 < n) }
        ensures bytes { WriteGrows (λ w. self.old.written ≡ w) (λ w. self.new.written ≡ w) result bytes.now }
        ensures cause { HasCause self.old.calls.failed self.new.calls.failed result }

        // As many bytes as the call may accept.
        ensures count { IfOk result (λ n. n ≡ min self.old.most (length bytes.now)) }
        ensures most { self.new.most ≡ self.old.most }
        ensures calls { self.new.calls ≡ after_call self.old.calls (is_err result) }

        // Any other call may fail if memory runs out.
        ensures fails { Contains self.old.calls.to_fail (next_call_number self.old.calls) → IsErr result }
    {
        self.schedule.call()?;
        let count = self.most.min(bytes.len());
        match self.written.extend_from_slice(&bytes[..count]) {
            Ok(()) => Ok(count),
            Err(_) => Err(self.schedule.fault()),
        }
    }
}

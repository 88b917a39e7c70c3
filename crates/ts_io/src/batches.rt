// A connection whose replies are sent in batches. Replies that the peer does not read yet wait in memory.
ghost use Rattle.std.specs.Prelude.{◌≡◌, ◌<◌, [], length, false, IfOk, OnOk};
ghost use Rattle.std.specs.Io.{ReadsAtMost, WritesAtMost};
ghost use Rattle.std.specs.Io.KnownBytes.{ReadConsumes};
ghost use Rattle.ts_io.specs.Batches.{Holds, NonBlockingConsumes, connection_of, waiting_of, peer_is_behind};
ghost use Rattle.ts_io.specs.Causes.{HasCause};
ghost use Rattle.ts_io.specs.Sinks.{Grows, WriteGrows};

use crate::waiting::Waiting;
use crate::{Connection, Failed, Sink, Source, Wait};
use std::alloc::Global;

/// The batch size: after 16 KiB of replies, the next write sends what is queued first.
const BATCH: usize = 16384;

/// A connection with a queue of bytes to send. As a sink it has the bytes that were sent, followed by those in the
/// queue.
///
/// The queue is sent before each read, and before a write once 16 KiB were queued since the last send. If the peer does
/// not take everything within a moment, it is behind: from then on a send does not wait, and a read waits until either
/// bytes arrive or the peer takes some. A read returns the end of the input only after the whole queue was sent. If a
/// send fails, so does the write or read that made it.
#[derive(Drop)]
pub struct Batches<C> {
    pub(crate) connection: C,
    pub(crate) waiting: Waiting,
    pub(crate) enqueued_bytes: usize,
    pub(crate) is_behind: bool,
}

impl<C: Connection> Batches<C> {
    /// Creates one with an empty queue. Allocates nothing.
    pub fn new(alloc: Global, connection: C) -> Self
        ensures connection { connection_of result ≡ connection }
        ensures waiting { waiting_of result ≡ [] }
        ensures behind { peer_is_behind result ≡ false }
    {
        Batches {
            connection,
            waiting: Waiting::new(alloc),
            enqueued_bytes: 0,
            is_behind: false,
        }
    }

    /// The number of queued bytes.
    pub fn waiting(&self) -> usize
        ensures { result ≡ length (waiting_of self.now) }
    {
        self.waiting.len()
    }

    /// Sends the whole queue, however long the peer takes.
    pub fn send_all(&mut self) -> Result<(), Failed>
        ensures all { OnOk result (waiting_of self.new ≡ []) }
        ensures has { Grows (Holds (C.has (connection_of self.old)) (waiting_of self.old))
            (Holds (C.has (connection_of self.new)) (waiting_of self.new)) [] }
        ensures left { C.left (connection_of self.new) ≡ C.left (connection_of self.old) }
        ensures cause { HasCause (C.faults (connection_of self.old)) (C.faults (connection_of self.new)) result }
    {
        while !self.waiting.is_empty() {
            self.send(Wait::Long)?;
        }
        Ok(())
    }

    /// Returns the connection and drops the queue.
    pub fn into_connection(self) -> C
        ensures { result ≡ connection_of self }
    {
        self.connection
    }

    // Waits until bytes arrive or the peer takes queued bytes, whichever comes first.
    fn read_while_behind(&mut self, buf: &mut [u8]) -> Result<usize, Failed>
        ensures bound { ReadsAtMost result buf.new }
        ensures bytes { ReadConsumes (C.left (connection_of self.old)) (C.left (connection_of self.new)) result
            buf.new }
        ensures ended { IfOk result (λ n. n ≡ 0 → 0 < length buf.old → waiting_of self.new ≡ []) }
        ensures has { Grows (Holds (C.has (connection_of self.old)) (waiting_of self.old))
            (Holds (C.has (connection_of self.new)) (waiting_of self.new)) [] }
        ensures cause { HasCause (C.faults (connection_of self.old)) (C.faults (connection_of self.new)) result }
    {
        for _ in 0..u64::MAX {
            match self.try_read(buf)? {
                Some(0) => return self.send_all_and_read(buf),
                Some(count) => return Ok(count),
                None => self.send(Wait::Briefly)?,
            }
            if self.waiting.is_empty() {
                return self.send_all_and_read(buf);
            }
        }
        self.send_all_and_read(buf)
    }

    // Reads what has arrived, without waiting.
    fn try_read(&mut self, buf: &mut [u8]) -> Result<Option<usize>, Failed>
        ensures bytes { NonBlockingConsumes (C.left (connection_of self.old)) (C.left (connection_of self.new)) result
            buf.new }
        ensures waiting { waiting_of self.new ≡ waiting_of self.old }
        ensures has { Grows (Holds (C.has (connection_of self.old)) (waiting_of self.old))
            (Holds (C.has (connection_of self.new)) (waiting_of self.new)) [] }
        ensures cause { HasCause (C.faults (connection_of self.old)) (C.faults (connection_of self.new)) result }
    {
        self.connection.try_receive(buf)
    }

    // Sends the whole queue, then waits for bytes or the end of the input.
    fn send_all_and_read(&mut self, buf: &mut [u8]) -> Result<usize, Failed>
        ensures bound { ReadsAtMost result buf.new }
        ensures bytes { ReadConsumes (C.left (connection_of self.old)) (C.left (connection_of self.new)) result
            buf.new }
        ensures all { OnOk result (waiting_of self.new ≡ []) }
        ensures has { Grows (Holds (C.has (connection_of self.old)) (waiting_of self.old))
            (Holds (C.has (connection_of self.new)) (waiting_of self.new)) [] }
        ensures cause { HasCause (C.faults (connection_of self.old)) (C.faults (connection_of self.new)) result }
    {
        self.send_all()?;
        self.connection.receive(buf)
    }
}

impl<C: Connection> Source for Batches<C> {
    ghost left = { λ b. C.left (connection_of b) };

    ghost faults = { λ b. C.faults (connection_of b) };

    fn read(&mut self, buf: &mut [u8]) -> Result<usize, Failed>
        ensures bound { ReadsAtMost result buf.new }
        ensures bytes { ReadConsumes (C.left (connection_of self.old)) (C.left (connection_of self.new)) result
            buf.new }
        ensures cause { HasCause (C.faults (connection_of self.old)) (C.faults (connection_of self.new)) result }

        // At the end of the input the queue is empty. Otherwise it is empty unless the peer is behind.
        ensures ended { IfOk result (λ n. n ≡ 0 → 0 < length buf.old → waiting_of self.new ≡ []) }
        ensures has { Grows (Holds (C.has (connection_of self.old)) (waiting_of self.old))
            (Holds (C.has (connection_of self.new)) (waiting_of self.new)) [] }
    {
        self.flush_and_check()?;
        if self.is_behind {
            return self.read_while_behind(buf);
        }
        self.send_all_and_read(buf)
    }
}

impl<C: Connection> Sink for Batches<C> {
    ghost has = { λ b. Holds (C.has (connection_of b)) (waiting_of b) };

    ghost faults = { λ b. C.faults (connection_of b) };

    fn write(&mut self, bytes: &[u8]) -> Result<usize, Failed>
        ensures bound { WritesAtMost result bytes.now }
        ensures progress { 0 < length bytes.now → IfOk result (λ n. 0 < n) }
        ensures bytes { WriteGrows (Holds (C.has (connection_of self.old)) (waiting_of self.old))
            (Holds (C.has (connection_of self.new)) (waiting_of self.new)) result bytes.now }
        ensures cause { HasCause (C.faults (connection_of self.old)) (C.faults (connection_of self.new)) result }
    {
        if bytes.len() >= BATCH {
            return self.write_large(bytes);
        }
        if self.enqueued_bytes >= BATCH {
            self.flush_and_check()?;
        }
        self.enqueue(bytes)
    }
}

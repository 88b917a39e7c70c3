// How a batched connection sends its queue, and adds to it.
ghost use Rattle.std.specs.Prelude.{◌≡◌, ◌<◌, [], length, false, IfOk, OnOk};
ghost use Rattle.std.specs.Io.{WritesAtMost};
ghost use Rattle.ts_io.specs.Batches.{Holds, connection_of, waiting_of, peer_is_behind};
ghost use Rattle.ts_io.specs.Causes.{HasCause};
ghost use Rattle.ts_io.specs.Sinks.{Grows, WriteGrows};

use crate::batches::Batches;
use crate::{Connection, Failed, Wait};

impl<C: Connection> Batches<C> {
    // Makes one send from the queue.
    pub(crate) fn send(&mut self, wait: Wait) -> Result<(), Failed>
        ensures progress { wait ≡ Wait.Long → 0 < length (waiting_of self.old)
            → OnOk result (length (waiting_of self.new) < length (waiting_of self.old)) }
        ensures has { Grows (Holds (C.has (connection_of self.old)) (waiting_of self.old))
            (Holds (C.has (connection_of self.new)) (waiting_of self.new)) [] }
        ensures left { C.left (connection_of self.new) ≡ C.left (connection_of self.old) }
        ensures cause { HasCause (C.faults (connection_of self.old)) (C.faults (connection_of self.new)) result }
    {
        let count = self.connection.send(self.waiting.as_slice(), wait)?;
        self.waiting.drop_front(count);
        Ok(())
    }

    // Sends from the queue, if it is not empty, and updates whether the peer is behind.
    pub(crate) fn flush_and_check(&mut self) -> Result<(), Failed>
        ensures behind { OnOk result (peer_is_behind self.new ≡ false → waiting_of self.new ≡ []) }
        ensures has { Grows (Holds (C.has (connection_of self.old)) (waiting_of self.old))
            (Holds (C.has (connection_of self.new)) (waiting_of self.new)) [] }
        ensures left { C.left (connection_of self.new) ≡ C.left (connection_of self.old) }
        ensures cause { HasCause (C.faults (connection_of self.old)) (C.faults (connection_of self.new)) result }
    {
        self.enqueued_bytes = 0;
        if self.waiting.is_empty() {
            self.is_behind = false;
            return Ok(());
        }
        let wait = if self.is_behind {
            Wait::Not
        } else {
            Wait::Briefly
        };
        self.send(wait)?;
        self.is_behind = !self.waiting.is_empty();
        Ok(())
    }

    // Queues these bytes. If they don't fit, sends until they do; if they don't fit an empty queue, sends them
    // directly.
    pub(crate) fn enqueue(&mut self, bytes: &[u8]) -> Result<usize, Failed>
        ensures bound { WritesAtMost result bytes.now }
        ensures progress { 0 < length bytes.now → IfOk result (λ n. 0 < n) }
        ensures bytes { WriteGrows (Holds (C.has (connection_of self.old)) (waiting_of self.old))
            (Holds (C.has (connection_of self.new)) (waiting_of self.new)) result bytes.now }
        ensures cause { HasCause (C.faults (connection_of self.old)) (C.faults (connection_of self.new)) result }
    {
        loop {
            match self.waiting.push(bytes) {
                Ok(()) => {
                    self.enqueued_bytes = self.enqueued_bytes.saturating_add(bytes.len());
                    return Ok(bytes.len());
                }
                Err(_) if self.waiting.is_empty() => return self.send_directly(bytes, Wait::Long),
                Err(_) => self.send(Wait::Long)?,
            }
        }
    }

    // Sends the queue, then these bytes, as long as the peer keeps up.
    pub(crate) fn write_large(&mut self, bytes: &[u8]) -> Result<usize, Failed>
        ensures bound { WritesAtMost result bytes.now }
        ensures progress { 0 < length bytes.now → IfOk result (λ n. 0 < n) }
        ensures bytes { WriteGrows (Holds (C.has (connection_of self.old)) (waiting_of self.old))
            (Holds (C.has (connection_of self.new)) (waiting_of self.new)) result bytes.now }
        ensures cause { HasCause (C.faults (connection_of self.old)) (C.faults (connection_of self.new)) result }
    {
        self.flush_and_check()?;
        if self.is_behind {
            return self.enqueue(bytes);
        }
        self.write_directly(bytes)
    }

    // Sends these bytes directly: the queue is empty and the peer keeps up. Queues them if the peer takes none.
    fn write_directly(&mut self, bytes: &[u8]) -> Result<usize, Failed>
        requires { waiting_of self.old ≡ [] }
        ensures bound { WritesAtMost result bytes.now }
        ensures progress { 0 < length bytes.now → IfOk result (λ n. 0 < n) }
        ensures bytes { WriteGrows (Holds (C.has (connection_of self.old)) (waiting_of self.old))
            (Holds (C.has (connection_of self.new)) (waiting_of self.new)) result bytes.now }
        ensures cause { HasCause (C.faults (connection_of self.old)) (C.faults (connection_of self.new)) result }
    {
        match self.send_directly(bytes, Wait::Briefly) {
            Ok(0) => {
                self.is_behind = true;
                self.enqueue(bytes)
            }
            Ok(count) => {
                self.is_behind = count < bytes.len();
                Ok(count)
            }
            Err(failed) => Err(failed),
        }
    }

    // Makes one send of these bytes. The queue is empty.
    fn send_directly(&mut self, bytes: &[u8], wait: Wait) -> Result<usize, Failed>
        requires { waiting_of self.old ≡ [] }
        ensures bound { WritesAtMost result bytes.now }
        ensures progress { wait ≡ Wait.Long → 0 < length bytes.now → IfOk result (λ n. 0 < n) }
        ensures bytes { WriteGrows (Holds (C.has (connection_of self.old)) (waiting_of self.old))
            (Holds (C.has (connection_of self.new)) (waiting_of self.new)) result bytes.now }
        ensures cause { HasCause (C.faults (connection_of self.old)) (C.faults (connection_of self.new)) result }
    {
        self.connection.send(bytes, wait)
    }
}

// A queue of bytes to send.
ghost use Rattle.std.specs.Prelude.{◌≡◌, ◌==◌, ◌≤◌, ◌^◌, [], ◌++◌, length, drop, OnOk, OnErr};

use std::alloc::Global;
use std::marker::Model;

/// The most bytes that may wait before others are queued: 64 MiB.
const MAX_WAITING_BYTES: usize = 67_108_864;

/// The largest buffer that an empty queue keeps, in bytes.
const MAX_IDLE_BYTES: usize = 65536;

/// The queue can't take more bytes: its limit is reached, or memory ran out.
#[derive(Clone, Copy)]
pub struct Full;

/// A queue of bytes to send. It takes more while at most 64 MiB wait.
#[derive(Drop)]
pub struct Waiting {
    bytes: Vec<u8>,
    sent: usize,
}

impl Model for Waiting {
    ghost use Rattle.std.specs.Prelude.{◌≤◌, List, ℕ, drop, length};

    ghost Value = { List ℕ };

    ghost view = { λ w. drop w.sent w.bytes.items };

    ghost invariant = { λ w. w.sent ≤ length w.bytes.items };
}

impl Waiting {
    /// Creates an empty queue. Allocates nothing.
    pub fn new(alloc: Global) -> Self
        ensures { result ≡ [] }
    {
        Waiting {
            bytes: Vec::new(alloc),
            sent: 0,
        }
    }

    /// The number of queued bytes.
    pub fn len(&self) -> usize
        ensures { result ≡ length self.now }
    {
        self.bytes.len() - self.sent
    }

    /// Whether the queue is empty.
    pub fn is_empty(&self) -> bool
        ensures { result ≡ (length self.now == 0) }
    {
        self.len() == 0
    }

    /// The queued bytes.
    pub fn as_slice(&self) -> &[u8]
        ensures { result.now ≡ self.now }
    {
        &self.bytes[self.sent..]
    }

    /// Appends these bytes. Fails without a change if more than 64 MiB wait already or memory runs out.
    pub fn push(&mut self, bytes: &[u8]) -> Result<(), Full>
        ensures all { OnOk result (self.new ≡ self.old ++ bytes.now) }
        ensures limit { OnOk result (length self.old ≤ 2 ^ 26) }
        ensures unchanged { OnErr result (self.new ≡ self.old) }
    {
        if self.len() > MAX_WAITING_BYTES {
            return Err(Full);
        }
        if self.sent >= self.len() {
            self.compact();
        }
        match self.bytes.extend_from_slice(bytes) {
            Ok(()) => Ok(()),
            Err(_) => Err(Full),
        }
    }

    /// Removes this many bytes from the front.
    pub fn drop_front(&mut self, count: usize)
        requires { count ≤ length self.old }
        ensures { self.new ≡ drop count self.old }
    {
        self.sent += count;
        if self.sent == self.bytes.len() {
            self.compact();
            self.bytes.shrink_to(MAX_IDLE_BYTES);
        }
    }

    // Moves the queued bytes to the start of the buffer.
    fn compact(&mut self)
        ensures { self.new ≡ self.old }
    {
        self.bytes.drain(..self.sent);
        self.sent = 0;
    }
}

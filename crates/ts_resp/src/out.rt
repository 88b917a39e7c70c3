// The buffer for replies.
ghost use Rattle.std.specs.Prelude.{◌≡◌, ◌+◌, ◌<◌, ◌≤◌, [], ◌++◌, length, min, take, drop, IfOk, OnOk, OnErr};
ghost use Rattle.ts_spec.specs.Text.{line_text};

use crate::parts::write_line;
use bytes::BytesMut;
use std::alloc::{AllocError, Global};
use std::marker::Model;
use std::mem;

// Initial capacity in bytes. Every error, integer and short reply fits.
const INITIAL_CAPACITY: usize = 128;

// The largest capacity in bytes that is kept between replies.
const MAX_IDLE_CAPACITY: usize = 65_536;

/// A growable buffer of reply bytes.
#[derive(Drop)]
pub struct Out {
    bytes: BytesMut,
}

impl Model for Out {
    ghost use Rattle.ts_resp.specs.Room.{Room};

    ghost Value = { Room };

    ghost view = { λ o. record { bytes = o.bytes.items; spare = o.bytes.spare } };
}

impl Out {
    /// An empty buffer with capacity for 128 bytes.
    pub fn new(alloc: Global) -> Result<Out, AllocError>
        ensures empty { IfOk result (λ o. o.bytes ≡ []) }
        ensures room { IfOk result (λ o. 128 ≤ o.spare) }
    {
        let bytes = BytesMut::with_capacity(alloc, INITIAL_CAPACITY)?;
        Ok(Out { bytes })
    }

    /// Reserves capacity for `more` more bytes. On error the buffer is unchanged.
    pub fn reserve(&mut self, more: usize) -> Result<(), AllocError>
        ensures bytes { self.new.bytes ≡ self.old.bytes }
        ensures room { OnOk result (more ≤ self.new.spare) }
        ensures kept { self.old.spare ≤ self.new.spare }
        ensures full { OnErr result (self.old.spare < more) }
    {
        self.bytes.reserve(more)?;
        Ok(())
    }

    /// Removes all bytes and keeps the capacity. Allocates nothing.
    pub fn clear(&mut self)
        ensures empty { self.new.bytes ≡ [] }
        ensures room { length self.old.bytes + self.old.spare ≤ self.new.spare }
    {
        self.bytes.clear();
    }

    /// Removes all bytes. A capacity above 65,536 bytes is replaced by a small one, if memory allows.
    pub fn give_back(&mut self)
        ensures empty { self.new.bytes ≡ [] }
        ensures room { min 128 (length self.old.bytes + self.old.spare) ≤ self.new.spare }
    {
        self.bytes.clear();
        if self.bytes.capacity() <= MAX_IDLE_CAPACITY {
            return;
        }
        let alloc = *self.bytes.allocator();
        if let Ok(bytes) = BytesMut::with_capacity(alloc, INITIAL_CAPACITY) {
            self.bytes = bytes;
        }
    }

    /// The bytes written so far. Allocates nothing.
    pub fn bytes(&self) -> &[u8]
        ensures { result.now ≡ self.now.bytes }
    {
        self.bytes.as_slice()
    }

    /// How many more bytes fit without allocating.
    pub fn spare(&self) -> usize
        ensures { result ≡ self.now.spare }
    {
        self.bytes.capacity() - self.bytes.len()
    }

    /// Moves the buffer out and leaves an empty one. Allocates nothing.
    pub fn take(&mut self) -> Out
        ensures taken { result ≡ self.old }
        ensures left { self.new.bytes ≡ [] }
    {
        let alloc = *self.bytes.allocator();
        Out {
            bytes: mem::replace(&mut self.bytes, BytesMut::new(alloc)),
        }
    }

    // Writes a line at the end of the gap at the front, and drops the bytes before it.
    pub(crate) fn end_gap(&mut self, gap: usize, first: u8, others: &[u8])
        requires line { length others.now + 3 ≤ gap }
        requires gap { gap ≤ length self.old.bytes }
        ensures bytes { self.new.bytes ≡ line_text first others.now ++ drop gap self.old.bytes }
        ensures total { length self.old.bytes + self.old.spare ≤ length self.new.bytes + self.new.spare + gap }
    {
        self.bytes.advance(gap - (others.len() + 3));
        write_line(first, others, self.bytes.as_mut_slice());
    }

    // Appends bytes that fit in the reserved capacity.
    pub(crate) fn add(&mut self, bytes: &[u8])
        requires { length bytes.now ≤ self.old.spare }
        ensures bytes { self.new.bytes ≡ self.old.bytes ++ bytes.now }
        ensures room { self.new.spare + length bytes.now ≡ self.old.spare }
    {
        self.bytes.extend_reserved(bytes);
    }

    // Appends the first `len` of `bytes`. All of `bytes` must fit in the reserved capacity.
    #[inline]
    pub(crate) fn add_front(&mut self, bytes: &[u8], len: usize)
        requires room { length bytes.now ≤ self.old.spare }
        requires front { len ≤ length bytes.now }
        ensures bytes { self.new.bytes ≡ self.old.bytes ++ take len bytes.now }
        ensures room { self.new.spare + len ≡ self.old.spare }
        ensures total { length self.new.bytes + self.new.spare ≡ length self.old.bytes + self.old.spare }
    {
        let end = self.bytes.len() + len;
        self.bytes.extend_reserved(bytes);
        self.bytes.truncate(end);
    }
}

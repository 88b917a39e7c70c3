// The links of a hub, and which of them have something to be read or sent.
ghost use Rattle.std.specs.Prelude.{◌≡◌, ◌≤◌, length, take};

use crate::link::{Got, Link};
use crate::sending::Drains;
use crate::sockets::Acceptor;
use slab::Slab;
use std::alloc::Global;
use std::collections::VecDeque;
use std::io;
use std::io::ErrorKind;
use std::net::Net;
use ts_io::{Next, Way};

/// The most bytes that one read takes: 16 KiB.
const BUFFER_BYTES: usize = 16384;

/// The most bytes that are read between two waits: 1 MiB.
const MAX_ROUND_BYTES: usize = 1_048_576;

/// The links, by keys of their own.
#[derive(Drop)]
pub(crate) struct Links<R> {
    pub(crate) rt: R,
    pub(crate) alloc: Global,
    pub(crate) acceptor: Option<Acceptor>,
    // the number of the newest link
    pub(crate) newest: u64,
    pub(crate) links: Slab<Link>,
    // the links that may have something to be read, how many of them are left in this round, and how many bytes it has
    // read
    pub(crate) ready: VecDeque<usize>,
    pub(crate) left_in_round: usize,
    pub(crate) round_bytes: usize,
    // the links that were given something since everything was let out
    pub(crate) given: Vec<usize>,
    pub(crate) draining: Drains,
    // the bytes at hand are the first `count` of the buffer, and came on the link with this key
    pub(crate) current: usize,
    pub(crate) buffer: Vec<u8>,
    pub(crate) count: usize,
    pub(crate) has_paused: bool,
    // whether an accept has failed and is to be tried again
    pub(crate) must_retry: bool,
    ghost within: { count ≤ length buffer.items },
}

impl<R: Net> Links<R> {
    /// Starts with no link, and listens nowhere. Allocates nothing.
    pub(crate) fn new(rt: R, alloc: Global) -> Self {
        Links {
            rt,
            alloc,
            acceptor: None,
            newest: 0,
            links: Slab::new(alloc),
            ready: VecDeque::new(alloc),
            left_in_round: 0,
            round_bytes: 0,
            given: Vec::new(alloc),
            draining: Drains::new(alloc),
            current: 0,
            buffer: Vec::new(alloc),
            count: 0,
            has_paused: true,
            must_retry: false,
        }
    }

    /// Starts to listen on this address. Fails if it does so already.
    pub(crate) fn listen(&mut self, address: &str) -> io::Result<()> {
        if self.acceptor.is_some() {
            return Err(io::Error::from(ErrorKind::AlreadyExists));
        }
        self.count = 0;
        self.buffer = Vec::from_elem(self.alloc, 0, BUFFER_BYTES)?;
        self.acceptor = Some(Acceptor::bind(&self.rt, self.alloc, address)?);
        Ok(())
    }

    /// The bytes at hand.
    pub(crate) fn bytes(&self) -> &[u8]
        ensures { result.now ≡ take self.now.count self.now.buffer.items }
    {
        &self.buffer[..self.count]
    }

    /// Returns what was received next. After a pause it waits until something arrives.
    pub(crate) fn find(&mut self) -> io::Result<Next> {
        for _ in 0..u64::MAX {
            if self.left_in_round > 0 && self.round_bytes < MAX_ROUND_BYTES {
                self.left_in_round -= 1;
                if let Some(next) = self.read_next() {
                    return Ok(next);
                }
            } else if !self.has_paused {
                self.has_paused = true;
                return Ok(Next::Pause);
            } else {
                self.wait()?;
                self.left_in_round = self.ready.len();
                self.round_bytes = 0;
                self.has_paused = false;
            }
        }
        Ok(Next::End)
    }

    // Reads once, of the first link that may have something.
    fn read_next(&mut self) -> Option<Next> {
        let key = self.ready.pop_front()?;
        let link = self.links.get_mut(key)?;
        link.is_ready = false;
        let number = link.number;
        self.count = 0;
        match link.read(&mut self.buffer) {
            Got::Nothing => None,
            Got::Again => {
                self.list(key);
                None
            }
            Got::Bytes(count) => {
                // A read that does not fill the buffer was the last one, unless the client has closed its side.
                if count == self.buffer.len() || link.has_ended {
                    self.list(key);
                }
                self.current = key;
                self.count = count.min(self.buffer.len());
                self.round_bytes = self.round_bytes.saturating_add(count);
                Some(Next::Bytes(number))
            }
            Got::Dropped(count) => {
                self.list(key);
                self.round_bytes = self.round_bytes.saturating_add(count);
                None
            }
            Got::End => {
                self.close_key(key);
                Some(Next::Closed(number, Way::Closed))
            }
            Got::Gone(way) => self.remove(key, way),
        }
    }

    // Removes a link. Returns the report of its close, if there was none yet.
    fn remove(&mut self, key: usize, way: Way) -> Option<Next> {
        self.draining.remove(key);
        let link = self.links.try_remove(key)?;
        if link.is_reported {
            return None;
        }
        Some(Next::Closed(link.number, way))
    }

    /// Appends a link to the list of those to read, unless it is in it.
    pub(crate) fn list(&mut self, key: usize) {
        let Some(link) = self.links.get_mut(key) else {
            return
        };
        if !link.is_ready {
            link.is_ready = self.ready.push_back(key).is_ok();
        }
    }
}

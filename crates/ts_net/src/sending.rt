// How a hub sends what it is given, and closes links.
use crate::link::State;
use crate::links::Links;
use std::alloc::Global;
use std::collections::VecDeque;
use std::net::Net;

/// The most links that are draining at once.
const MAX_DRAINING: usize = 64;

/// The keys of the draining links, the oldest first.
#[derive(Drop)]
pub(crate) struct Drains {
    keys: VecDeque<usize>,
}

impl Drains {
    /// Starts with none. Allocates nothing.
    pub(crate) fn new(alloc: Global) -> Self {
        Drains {
            keys: VecDeque::new(alloc),
        }
    }

    /// Adds a key. Returns the one that has to leave for it: the oldest if there are too many, or the same one if
    /// memory runs out.
    pub(crate) fn add(&mut self, key: usize) -> Option<usize> {
        let oldest = if self.keys.len() < MAX_DRAINING {
            None
        } else {
            self.keys.pop_front()
        };
        match self.keys.push_back(key) {
            Ok(()) => oldest,
            Err(_) => Some(key),
        }
    }

    /// Removes a key.
    pub(crate) fn remove(&mut self, key: usize) {
        self.keys.retain(|&other| other != key);
    }
}

impl<R: Net> Links<R> {
    // The key of the link with this number. Mostly it is that of the bytes at hand.
    fn key_of(&self, number: u64) -> Option<usize> {
        if let Some(link) = self.links.get(self.current)
            && link.number == number
        {
            return Some(self.current);
        }
        for (key, link) in &self.links {
            if link.number == number {
                return Some(key);
            }
        }
        None
    }

    /// Queues bytes for a link, if it is open.
    pub(crate) fn give(&mut self, number: u64, bytes: &[u8]) {
        let Some(key) = self.key_of(number) else {
            return
        };
        let Some(link) = self.links.get_mut(key) else {
            return
        };
        link.give(bytes);
        self.note_given(key);
    }

    /// Has a link close once everything that waits was sent, without a report.
    pub(crate) fn close(&mut self, number: u64) {
        if let Some(key) = self.key_of(number) {
            self.close_key(key);
        }
    }

    pub(crate) fn close_key(&mut self, key: usize) {
        if let Some(link) = self.links.get_mut(key) {
            link.close();
            self.note_given(key);
        }
    }

    // Notes that a link was given something, or is to close.
    fn note_given(&mut self, key: usize) {
        let Some(link) = self.links.get_mut(key) else {
            return
        };
        if !link.is_given {
            link.is_given = self.given.push(key).is_ok();
        }
    }

    /// Sends what was given.
    pub(crate) fn send_given(&mut self) {
        for _ in 0..usize::MAX {
            let Some(key) = self.given.pop() else { return };
            if let Some(link) = self.links.get_mut(key) {
                link.is_given = false;
            }
            self.send(key);
        }
    }

    /// Sends what waits for a link, and lists it if it is not open then.
    pub(crate) fn send(&mut self, key: usize) {
        let Some(link) = self.links.get_mut(key) else {
            return
        };
        link.send();
        match link.state {
            State::Open | State::Closing => {}
            State::Gone(_) => self.list(key),
            State::Draining(_) => {
                self.note_draining(key);
                self.list(key);
            }
        }
    }

    // Notes that a link is draining, and abandons the oldest of those that are if there are too many.
    fn note_draining(&mut self, key: usize) {
        let Some(link) = self.links.get_mut(key) else {
            return
        };
        if link.is_draining {
            return;
        }
        link.is_draining = true;
        let Some(oldest) = self.draining.add(key) else {
            return
        };
        if let Some(link) = self.links.get_mut(oldest) {
            link.abandon();
        }
        self.list(oldest);
    }
}

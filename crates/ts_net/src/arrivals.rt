// How a hub waits, and accepts connections.
use crate::link::Link;
use crate::links::Links;
use crate::sockets::{Acceptor, LISTENER};
use mio::event::Event;
use std::io;
use std::io::ErrorKind;
use std::net::Net;
use std::time::Duration;

/// How long a wait takes at most while a failed accept is to be tried again, in milliseconds.
const RETRY_MILLIS: u64 = 100;

impl<R: Net> Links<R> {
    /// Waits until something arrives, and lists the links that it is for. No further event comes for a connection whose
    /// accept failed, so such an accept is tried again before each wait.
    pub(crate) fn wait(&mut self) -> io::Result<()> {
        let Some(mut acceptor) = self.acceptor.take() else {
            return Err(io::Error::from(ErrorKind::NotConnected));
        };
        if self.must_retry {
            self.accept_all(&acceptor);
        }
        let longest = self.longest_wait();
        let waited = acceptor.poll.poll(&mut acceptor.events, longest);
        for event in &acceptor.events {
            if event.token() == LISTENER {
                self.accept_all(&acceptor);
            } else {
                self.note(event);
            }
        }
        self.acceptor = Some(acceptor);
        waited
    }

    fn longest_wait(&self) -> Option<Duration> {
        if !self.ready.is_empty() {
            Some(Duration::ZERO)
        } else if self.must_retry {
            Some(Duration::from_millis(RETRY_MILLIS))
        } else {
            None
        }
    }

    // Accepts all connections that have arrived.
    fn accept_all(&mut self, acceptor: &Acceptor) {
        for _ in 0..u64::MAX {
            if let Err(error) = self.accept(acceptor) {
                self.must_retry = error.kind() != ErrorKind::WouldBlock;
                return;
            }
        }
    }

    // Accepts a connection. Takes all memory that listing it needs before that.
    fn accept(&mut self, acceptor: &Acceptor) -> io::Result<()> {
        let count = self.links.len().saturating_add(1);
        self.links.reserve(1)?;
        self.ready.reserve(count)?;
        self.given.reserve(count)?;
        let stream = acceptor.accept(self.links.vacant_key())?;
        self.newest = self.newest.saturating_add(1);
        self.links
            .insert_reserved(Link::new(self.alloc, self.newest, stream));
        Ok(())
    }

    // Notes what an event says of its link.
    fn note(&mut self, event: &Event) {
        let key = event.token().0;
        if event.is_writable() {
            self.send(key);
        }
        let Some(link) = self.links.get_mut(key) else {
            return
        };
        link.has_ended = link.has_ended || event.is_read_closed() || event.is_error();
        if event.is_readable() || link.has_ended {
            self.list(key);
        }
    }
}

// A hub over TCP.
ghost use Rattle.std.specs.Prelude.{◌≡◌, None, take};

use crate::links::Links;
use std::alloc::Global;
use std::net::Net;
use ts_io::{Cause, Failed, Hub, Next, checked, noted};

/// A hub over the system's network, which counts its errors. The proofs assume nothing about what it sends and
/// receives.
///
/// Between two pauses it reads at most 16 KiB of each link and 1 MiB in all. A link that fails or is cut does not
/// affect the others. Once everything was sent on a link that is to close, its sending side is shut, and what its
/// client still sends is dropped until the client closes; at most 64 links are kept so.
#[derive(Drop)]
pub struct TcpHub<R> {
    links: Links<R>,
    faults: u64,
    last_cause: Option<Cause>,
}

impl<R: Net> TcpHub<R> {
    /// Creates a hub without an address. Allocates nothing.
    pub fn new(rt: R, alloc: Global) -> Self {
        TcpHub {
            links: Links::new(rt, alloc),
            faults: 0,
            last_cause: None,
        }
    }
}

impl<R: Net> Hub for TcpHub<R> {
    ghost coming = { λ _. None };

    ghost hand = { λ s. take s.links.count s.links.buffer.items };

    ghost out = { λ _ _ _. ⊥ };

    ghost faults = { λ s. s.faults };

    ghost last_cause = { λ s. s.last_cause };

    /// The address is a host and a port, such as `localhost:7379`. Fails if the hub listens already.
    fn open(&mut self, address: &str) -> Result<(), Failed> {
        let opened = noted(self.links.listen(address), &mut self.last_cause);
        checked(opened, &mut self.faults)
    }

    /// Never returns `End`. Fails only if it is not listening, or if waiting fails.
    fn next(&mut self) -> Result<Next, Failed> {
        let found = noted(self.links.find(), &mut self.last_cause);
        checked(found, &mut self.faults)
    }

    fn bytes(&self) -> &[u8] {
        self.links.bytes()
    }

    /// Never fails. Cuts the link if too many bytes wait already or memory runs out: then its close is reported next.
    fn give(&mut self, link: u64, bytes: &[u8]) -> Result<(), Failed> {
        self.links.give(link, bytes);
        Ok(())
    }

    fn let_out(&mut self) {
        self.links.send_given();
    }

    fn close(&mut self, link: u64) {
        self.links.close(link);
    }

    fn last_cause(&self) -> Option<Cause> {
        self.last_cause
    }
}

// One link of a hub.
ghost use Rattle.std.specs.Prelude.{◌≡◌, ℕ, []};
ghost use Rattle.ts_net.specs.declared.link.State.{State};
ghost use Rattle.ts_net.specs.declared.link.State.TheVariants.{Draining};

use crate::sockets::{Answer, answer_of};
use mio::net::TcpStream;
use std::alloc::Global;
use std::io::{Read, Write};
use std::net::Shutdown;
use ts_io::{Waiting, Way};

/// How many bytes of its client a shut link reads and drops: 256 MiB.
const LINGER_BYTES: usize = 268_435_456;

/// How far a link has come.
#[derive(Clone, Copy, PartialEq, Eq)]
pub(crate) enum State {
    /// Its client may send.
    Open,
    /// Nothing more is read. It is shut once everything that waits was sent.
    Closing,
    /// Its sending side is shut. This many bytes of its client may still be dropped until its client closes.
    Draining(usize),
    /// It has closed in this way, and is to be removed.
    Gone(Way),
}

/// What a read of a link came to.
#[derive(Clone, Copy, PartialEq, Eq)]
pub(crate) enum Got {
    /// This many bytes. More may have arrived.
    Bytes(usize),
    /// This many bytes, which are dropped. More may have arrived.
    Dropped(usize),
    /// Nothing has arrived.
    Nothing,
    /// The read is to be made again.
    Again,
    /// The client has closed its side.
    End,
    /// The link has closed in this way, and is to be removed.
    Gone(Way),
}

/// A connection, and the bytes that wait to be sent on it.
#[derive(Drop)]
pub(crate) struct Link {
    pub(crate) number: u64,
    pub(crate) state: State,
    // whether it is in the list of links to read, in that of links to send on, and in that of draining links
    pub(crate) is_ready: bool,
    pub(crate) is_given: bool,
    pub(crate) is_draining: bool,
    // whether `next` does not report its close: it did so, or the caller closed it
    pub(crate) is_reported: bool,
    // whether the system has reported that its client closed its side
    pub(crate) has_ended: bool,
    stream: TcpStream,
    waiting: Waiting,
    // a link is shut only once nothing waits
    ghost drained: { (left : ℕ) → state ≡ Draining left → waiting ≡ [] },
}

impl Link {
    pub(crate) fn new(alloc: Global, number: u64, stream: TcpStream) -> Self {
        Link {
            number,
            state: State::Open,
            is_ready: false,
            is_given: false,
            is_draining: false,
            is_reported: false,
            has_ended: false,
            stream,
            waiting: Waiting::new(alloc),
        }
    }

    /// Reads once.
    pub(crate) fn read(&mut self, buffer: &mut [u8]) -> Got {
        match self.state {
            State::Open => self.receive(buffer),
            State::Closing => Got::Nothing,
            State::Draining(left) => self.drop_once(buffer, left),
            State::Gone(way) => Got::Gone(way),
        }
    }

    fn receive(&mut self, buffer: &mut [u8]) -> Got {
        match answer_of(self.stream.read(buffer)) {
            Answer::Count(0) => Got::End,
            Answer::Count(count) => Got::Bytes(count),
            Answer::WouldWait => Got::Nothing,
            Answer::Interrupted => Got::Again,
            Answer::Failed => Got::Gone(Way::Broken),
        }
    }

    // Reads once, and drops the bytes.
    fn drop_once(&mut self, buffer: &mut [u8], left: usize) -> Got
        requires { self.old.state ≡ Draining left }
    {
        match answer_of(self.stream.read(buffer)) {
            Answer::Count(count) if 0 < count && count < left => {
                self.state = State::Draining(left - count);
                Got::Dropped(count)
            }
            Answer::WouldWait => Got::Nothing,
            Answer::Interrupted => Got::Again,
            Answer::Count(_) | Answer::Failed => Got::Gone(Way::Closed),
        }
    }

    /// Queues these bytes. Cuts the link if its queue is full.
    pub(crate) fn give(&mut self, bytes: &[u8]) {
        if self.state == State::Open && self.waiting.push(bytes).is_err() {
            self.state = State::Gone(Way::Cut);
        }
    }

    /// Has the link close once everything that waits was sent.
    pub(crate) fn close(&mut self) {
        self.is_reported = true;
        if self.state == State::Open {
            self.state = State::Closing;
        }
    }

    /// Removes the link at its next turn, without a report.
    pub(crate) fn abandon(&mut self) {
        self.is_reported = true;
        self.state = State::Gone(Way::Closed);
    }

    /// Sends what waits, as far as the client takes it. Shuts a closing link once everything was sent.
    pub(crate) fn send(&mut self) {
        for _ in 0..u64::MAX {
            if self.waiting.is_empty() {
                return self.shut_if_closing();
            }
            if !self.send_once() {
                return;
            }
        }
    }

    // Sends once. Returns whether to go on.
    fn send_once(&mut self) -> bool {
        if let State::Draining(_) | State::Gone(_) = self.state {
            return false;
        }
        match answer_of(self.stream.write(self.waiting.as_slice())) {
            Answer::Count(count) => {
                let count = count.min(self.waiting.len());
                self.waiting.drop_front(count);
                self.waiting.is_empty()
            }
            Answer::WouldWait => false,
            Answer::Interrupted => true,
            Answer::Failed => {
                self.state = State::Gone(Way::Broken);
                false
            }
        }
    }

    // Shuts the sending side of a closing link. Nothing waits.
    fn shut_if_closing(&mut self)
        requires { self.old.waiting ≡ [] }
    {
        if self.state != State::Closing {
            return;
        }
        self.state = match self.stream.shutdown(Shutdown::Write) {
            Ok(()) => State::Draining(LINGER_BYTES),
            Err(_) => State::Gone(Way::Broken),
        };
    }
}

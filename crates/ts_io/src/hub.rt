// The trait of a hub: many links at once.
ghost use Rattle.std.specs.Prelude.{◌≡◌, IfOk, ℕ, List, Option};
ghost use Rattle.ts_io.specs.Causes.{HasCause};
ghost use Rattle.ts_io.specs.Pieces.{Piece};
ghost use Rattle.ts_io.specs.Hubs.{Outgoing, NextBrings, Gives, LetsOut, Same};

use crate::{Cause, Failed};
use std::alloc::{AllocError, Global};
use std::marker::Model;

/// The number of a link, and bytes that it received or is to send.
#[derive(Drop)]
pub struct Packet {
    pub link: u64,
    pub bytes: Vec<u8>,
}

impl Model for Packet {
    ghost use Rattle.ts_io.specs.Pieces.{Piece};

    ghost Value = { Piece };

    ghost view = { λ p. record { link = p.link; bytes = p.bytes.items } };
}

impl Packet {
    /// Copies these bytes.
    pub fn new(alloc: Global, link: u64, bytes: &[u8]) -> Result<Self, AllocError>
        ensures { IfOk result (λ p. p ≡ record { link = link; bytes = bytes.now }) }
    {
        Ok(Packet {
            link,
            bytes: Vec::from_slice(alloc, bytes)?,
        })
    }
}

/// One step of what a hub receives, if the hub knows it beforehand.
#[derive(Drop)]
pub enum Step {
    /// Bytes of a link. No bytes mean that the link has closed.
    Comes(Packet),
    /// Nothing more has arrived so far.
    Pauses,
}

/// How a link has closed.
#[derive(Clone, Copy, Debug, PartialEq, Eq)]
pub enum Way {
    /// Its client closed its side.
    Closed,
    /// Its client does not read its replies: more than 64 MiB of them wait, or there is no memory for the next one.
    Cut,
    /// A call on the link failed, or its client reset it.
    Broken,
}

/// What a hub received next.
#[derive(Clone, Copy, Debug, PartialEq, Eq)]
pub enum Next {
    /// Bytes of the link with this number. They are at hand until the next call of `next`.
    Bytes(u64),
    /// The link with this number has closed. Nothing more comes of it.
    Closed(u64, Way),
    /// Nothing more has arrived so far.
    Pause,
    /// Nothing more comes.
    End,
}

/// Many links at once. Each has a number, and no number is used twice. Bytes that are given to a link are kept back
/// until they are let out.
pub trait Hub {
    ghost use Rattle.ts_io.specs.declared.failed.Cause.{Cause};
    ghost use Rattle.ts_io.specs.declared.hub.Step.{Step};

    /// The steps to come, if the hub knows them.
    ghost coming: { Self → Option (List Step) };

    /// The bytes at hand.
    ghost hand: { Self → List ℕ };

    /// Whether it let out these pieces, in order, and was given those since then. A hub that does not record them has
    /// no such lists.
    ghost out: { Self → Outgoing };

    /// How many calls have failed. It never falls.
    ghost faults: { Self → ℕ };

    /// Why the last call that failed did so, if the system told.
    ghost last_cause: { Self → Option Cause };

    /// Starts to listen on this address.
    fn open(&mut self, address: &str) -> Result<(), Failed>
        ensures coming { coming self.new ≡ coming self.old }
        ensures out { Same (out self.old) (out self.new) }
        ensures cause { HasCause (faults self.old) (faults self.new) result };

    /// Returns what was received next. After a pause it waits until something arrives.
    fn next(&mut self) -> Result<Next, Failed>
        ensures brings { NextBrings result (coming self.old) (coming self.new) (hand self.new) }
        ensures out { Same (out self.old) (out self.new) }
        ensures cause { HasCause (faults self.old) (faults self.new) result };

    /// The bytes at hand.
    fn bytes(&self) -> &[u8]
        ensures { result.now ≡ hand self.now };

    /// Gives bytes to a link. They are kept back.
    fn give(&mut self, link: u64, bytes: &[u8]) -> Result<(), Failed>
        ensures coming { coming self.new ≡ coming self.old }
        ensures gives { Gives result (out self.old) (out self.new) (record { link = link; bytes = bytes.now }) }
        ensures cause { HasCause (faults self.old) (faults self.new) result };

    /// Lets out everything that was given.
    fn let_out(&mut self)
        ensures coming { coming self.new ≡ coming self.old }
        ensures out { LetsOut (out self.old) (out self.new) }
        ensures faults { faults self.new ≡ faults self.old };

    /// Closes a link once its client has received everything that was given to it. `next` does not report it then.
    fn close(&mut self, link: u64)
        ensures coming { coming self.new ≡ coming self.old }
        ensures out { Same (out self.old) (out self.new) }
        ensures faults { faults self.new ≡ faults self.old };

    /// Why the last call that failed did so, if the system told.
    fn last_cause(&self) -> Option<Cause>
        ensures { result ≡ last_cause self.now };
}

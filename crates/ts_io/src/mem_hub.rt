// A hub for tests, with links in memory.
ghost use Rattle.std.specs.Prelude.{◌≡◌, [], ◌∷◌, ◌++◌, None, Some, IsErr, OnOk, OnErr, Contains, is_err, ◌↔◌};
ghost use Rattle.ts_io.specs.Causes.{HasCause};
ghost use Rattle.ts_io.specs.Hubs.{NextBrings};

use crate::schedule::Schedule;
use crate::{Cause, Failed, Hub, Next, Packet, Step, Way};
use std::alloc::Global;
use std::collections::VecDeque;
use std::marker::Model;

/// A hub that receives steps chosen beforehand and keeps what it is given. The calls of `open`, `next` and `give` with
/// chosen numbers fail. A `give` also fails if it runs out of memory.
#[derive(Drop)]
pub struct MemHub {
    alloc: Global,
    coming: VecDeque<Step>,
    hand: Vec<u8>,
    sent: Vec<Packet>,
    // how many of these were let out
    out: usize,
    schedule: Schedule,
}

impl Model for MemHub {
    ghost use Rattle.std.specs.Prelude.{◌≤◌, take, drop, length};
    ghost use Rattle.ts_io.specs.Hubs.{MemHubState};

    ghost Value = { MemHubState };

    ghost view = { λ s. record {
      coming = s.coming.items;
      hand = s.hand.items;
      sent = take s.out s.sent.items;
      given = drop s.out s.sent.items;
      calls = s.schedule;
    } };

    ghost invariant = { λ s. s.out ≤ length s.sent.items };
}

impl MemHub {
    /// Creates a hub that receives these steps. A call of `open`, `next` or `give` fails if its number, counted from 1,
    /// is in `fail`.
    pub fn new(alloc: Global, coming: Vec<Step>, fail: Vec<u64>) -> Self
        ensures coming { result.coming ≡ coming.items }
        ensures hand { result.hand ≡ [] }
        ensures sent { result.sent ≡ [] }
        ensures given { result.given ≡ [] }
        ensures calls { result.calls ≡ record { to_fail = fail.items; made = 0; failed = 0 } }
    {
        MemHub {
            alloc,
            coming: VecDeque::from_vec(coming),
            hand: Vec::new(alloc),
            sent: Vec::new(alloc),
            out: 0,
            schedule: Schedule::new(fail),
        }
    }

    /// The packets that were let out, in order.
    pub fn sent(&self) -> &[Packet]
        ensures { result.now ≡ self.now.sent }
    {
        &self.sent[..self.out]
    }
}

impl Hub for MemHub {
    ghost use Rattle.ts_io.specs.Calls.{next_call_number, after_call};

    ghost coming = { λ s. Some s.coming };

    ghost hand = { λ s. s.hand };

    ghost out = { λ s sent given. (s.sent ≡ sent) × (s.given ≡ given) };

    ghost faults = { λ s. s.calls.failed };

    ghost last_cause = { λ _. None };

    /// Listens on no address.
    fn open(&mut self, _address: &str) -> Result<(), Failed>
        ensures same { self.new ≡ record self.old { calls = self.new.calls } }
        ensures cause { HasCause self.old.calls.failed self.new.calls.failed result }
        ensures calls { self.new.calls ≡ after_call self.old.calls (is_err result) }
        ensures fails { IsErr result ↔ Contains self.old.calls.to_fail (next_call_number self.old.calls) }
    {
        self.schedule.call()
    }

    fn next(&mut self) -> Result<Next, Failed>
        ensures brings { NextBrings result (Some self.old.coming) (Some self.new.coming) self.new.hand }
        ensures sent { self.new.sent ≡ self.old.sent }
        ensures given { self.new.given ≡ self.old.given }
        ensures cause { HasCause self.old.calls.failed self.new.calls.failed result }
        ensures calls { self.new.calls ≡ after_call self.old.calls (is_err result) }
        ensures fails { IsErr result ↔ Contains self.old.calls.to_fail (next_call_number self.old.calls) }
    {
        self.schedule.call()?;
        match self.coming.pop_front() {
            None => Ok(Next::End),
            Some(Step::Pauses) => Ok(Next::Pause),
            Some(Step::Comes(packet)) => {
                let link = packet.link;
                self.hand = packet.bytes;
                if self.hand.is_empty() {
                    Ok(Next::Closed(link, Way::Closed))
                } else {
                    Ok(Next::Bytes(link))
                }
            }
        }
    }

    fn bytes(&self) -> &[u8] {
        &self.hand
    }

    fn give(&mut self, link: u64, bytes: &[u8]) -> Result<(), Failed>
        ensures coming { self.new.coming ≡ self.old.coming }
        ensures hand { self.new.hand ≡ self.old.hand }
        ensures sent { self.new.sent ≡ self.old.sent }
        ensures given { OnOk result
            (self.new.given ≡ self.old.given ++ record { link = link; bytes = bytes.now } ∷ []) }
        ensures failed { OnErr result (self.new.given ≡ self.old.given) }
        ensures cause { HasCause self.old.calls.failed self.new.calls.failed result }
        ensures calls { self.new.calls ≡ after_call self.old.calls (is_err result) }

        // Any other call may fail if memory runs out.
        ensures fails { Contains self.old.calls.to_fail (next_call_number self.old.calls) → IsErr result }
    {
        self.schedule.call()?;
        let Ok(packet) = Packet::new(self.alloc, link, bytes) else {
            return Err(self.schedule.fault());
        };
        match self.sent.push(packet) {
            Ok(()) => Ok(()),
            Err(_) => Err(self.schedule.fault()),
        }
    }

    fn let_out(&mut self)
        ensures coming { self.new.coming ≡ self.old.coming }
        ensures hand { self.new.hand ≡ self.old.hand }
        ensures sent { self.new.sent ≡ self.old.sent ++ self.old.given }
        ensures given { self.new.given ≡ [] }
        ensures calls { self.new.calls ≡ self.old.calls }
    {
        self.out = self.sent.len();
    }

    /// Does nothing: its steps come as they were chosen.
    fn close(&mut self, _link: u64)
        ensures { self.new ≡ self.old }
    {}

    /// Always `None`: no system is behind it.
    fn last_cause(&self) -> Option<Cause> {
        None
    }
}

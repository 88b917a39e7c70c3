// A listener for tests, with connections in memory.
ghost use Rattle.std.specs.Prelude.{◌≡◌, ◌≤◌, ◌⊎◌, [], ◌∷◌, ◌++◌, Some, true, false, IfOk, OnErr, IsErr, Contains};
ghost use Rattle.std.specs.Prelude.{is_ok, is_err, ◌↔◌};
ghost use Rattle.ts_io.specs.Causes.{HasCause};

use crate::schedule::Schedule;
use crate::{Ends, Failed, Listener, MemSink, MemSource};
use std::alloc::{AllocError, Global};
use std::collections::VecDeque;
use std::marker::Model;

/// A listener with its connections in memory. The calls of `open` and `accept` with chosen numbers fail.
#[derive(Drop)]
pub struct MemListener {
    coming: VecDeque<Ends<MemSource, MemSink>>,
    closed: Vec<Ends<MemSource, MemSink>>,
    has_open_link: bool,
    schedule: Schedule,
}

impl Model for MemListener {
    ghost use Rattle.std.specs.Prelude.{◌+◌, ◌≤◌, if◌then◌else◌, vec_len, vec_capacity};
    ghost use Rattle.std.specs.VecDeque.{deque_len};
    ghost use Rattle.ts_io.specs.Links.{MemListenerState};

    ghost Value = { MemListenerState };

    ghost view = { λ s. record {
      coming = s.coming.items;
      closed = s.closed.items;
      has_open_link = s.has_open_link;
      calls = s.schedule;
    } };

    // The list of closed connections has capacity for all others.
    ghost invariant = { λ s. vec_len s.closed + deque_len s.coming + (if s.has_open_link then 1 else 0)
        ≤ vec_capacity s.closed };
}

impl MemListener {
    /// Creates a listener that accepts these connections in order. Calls of `open` and `accept` are counted together,
    /// from 1; those whose numbers are in `fail` fail. Allocates here what closing the connections needs.
    pub fn new(
        alloc: Global,
        links: Vec<Ends<MemSource, MemSink>>,
        fail: Vec<u64>,
    ) -> Result<Self, AllocError>
        ensures coming { IfOk result (λ s. s.coming ≡ links.items) }
        ensures closed { IfOk result (λ s. s.closed ≡ []) }
        ensures out { IfOk result (λ s. s.has_open_link ≡ false) }
        ensures calls { IfOk result (λ s.
            s.calls ≡ record { to_fail = fail.items; made = 0; failed = 0 }) }
    {
        Ok(MemListener {
            closed: Vec::with_capacity(alloc, links.len())?,
            coming: VecDeque::from_vec(links),
            has_open_link: false,
            schedule: Schedule::new(fail),
        })
    }

    /// The closed connections, in the order in which they were closed.
    pub fn done(&self) -> &[Ends<MemSource, MemSink>]
        ensures { result.now ≡ self.now.closed }
    {
        &self.closed
    }
}

impl Listener for MemListener {
    type In = MemSource;

    type Out = MemSink;

    ghost use Rattle.ts_io.specs.Calls.{next_call_number, after_call};

    ghost faults = { λ s. s.calls.failed };

    ghost coming = { λ s. Some s.coming };

    ghost closed = { λ s. Some s.closed };

    ghost has_open_link = { λ s. s.has_open_link };

    /// Listens on no address.
    fn open(&mut self, _address: &str) -> Result<(), Failed>
        ensures coming { self.new.coming ≡ self.old.coming }
        ensures closed { self.new.closed ≡ self.old.closed }
        ensures out { self.new.has_open_link ≡ self.old.has_open_link }
        ensures cause { HasCause self.old.calls.failed self.new.calls.failed result }
        ensures calls { self.new.calls ≡ after_call self.old.calls (is_err result) }
        ensures fails { IsErr result ↔ Contains self.old.calls.to_fail (next_call_number self.old.calls) }
    {
        self.schedule.call()
    }

    /// Fails, and counts the failure, if no connection is left.
    fn accept(&mut self) -> Result<Ends<MemSource, MemSink>, Failed>
        requires { self.old.has_open_link ≡ false }
        ensures link { IfOk result (λ ends. self.old.coming ≡ ends ∷ self.new.coming) }
        ensures failed { OnErr result (self.new.coming ≡ self.old.coming) }
        ensures closed { self.new.closed ≡ self.old.closed }
        ensures out { self.new.has_open_link ≡ is_ok result }
        ensures cause { HasCause self.old.calls.failed self.new.calls.failed result }
        ensures calls { self.new.calls ≡ after_call self.old.calls (is_err result) }

        // It fails at the chosen numbers and if no connection is left, and otherwise never.
        ensures chosen { Contains self.old.calls.to_fail (next_call_number self.old.calls) → IsErr result }
        ensures empty { self.old.coming ≡ [] → IsErr result }
        ensures fails { IsErr result →
            Contains self.old.calls.to_fail (next_call_number self.old.calls) ⊎ (self.old.coming ≡ []) }
    {
        self.schedule.call()?;
        match self.coming.pop_front() {
            Some(ends) => {
                self.has_open_link = true;
                Ok(ends)
            }
            None => Err(self.schedule.fault()),
        }
    }

    fn close(&mut self, ends: Ends<MemSource, MemSink>)
        requires { self.old.has_open_link ≡ true }
        ensures coming { self.new.coming ≡ self.old.coming }
        ensures closed { self.new.closed ≡ self.old.closed ++ ends ∷ [] }
        ensures out { self.new.has_open_link ≡ false }
        ensures calls { self.new.calls ≡ self.old.calls }
    {
        self.has_open_link = false;
        self.closed.push_reserved(ends);
    }
}

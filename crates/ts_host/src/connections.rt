// The open connections: their unread requests, and the counts of executed ones.
ghost use Rattle.std.specs.Prelude.{◌≡◌, ◌≤◌, ◌≢◌, ℕ};
ghost use Rattle.ts_mux.specs.Muxing.{delivered_to};

use crate::request_counts::RequestCounts;
use std::alloc::{AllocError, Global};
use ts_mux::{Mux, Turn};
use ts_resp::{WireLimits, Word};

/// Memory is taken for the numbers of this many connections ahead, so that it seldom runs out for a number.
const REACH_AHEAD: u64 = 1024;

/// The result of delivering bytes to a connection.
#[derive(Clone, Copy, Debug, PartialEq, Eq)]
pub(crate) enum Delivery {
    /// The connection has the bytes.
    Delivered,
    /// Out of memory for the bytes, which are lost. The connection is to be closed.
    Lost,
    /// Out of memory for the connection's number.
    NoMemory,
}

/// The open connections.
#[derive(Drop)]
pub(crate) struct Connections {
    pub(crate) mux: Mux,
    pub(crate) counts: RequestCounts,
    // what was taken so far: one for each step of the hub, and its bytes; stops at the greatest `u64`
    pub(crate) taken: u64,
    ghost within: { delivered_to mux ≤ taken },
}

impl Connections {
    ghost use Rattle.std.specs.Prelude.{◌+◌, ◌-◌, ◌<◌, ◌^◌, suc, List, [], ◌∷◌, length, OnOk};
    ghost use Rattle.ts_mux.specs.declared.frame.Frame.{Frame};
    ghost use Rattle.ts_mux.specs.Muxing.{pending_items, reach_of, is_inside_request};
    ghost use Rattle.ts_mux.specs.Order.{order_without_quits, without};
    ghost use Rattle.ts_mux.specs.Turns.{IfItem, IfFault, IfLink, UnlessItem, OnNotYet};
    ghost use Rattle.ts_execution.specs.Limits.{CanRead};
    ghost use Rattle.ts_host.specs.Answers.{forgotten};
    ghost use Rattle.ts_host.specs.RequestCounts.{counted_at, executed_by};

    /// No connection. Allocates nothing.
    pub(crate) fn new(alloc: Global, limits: WireLimits) -> Self
        requires limits { CanRead limits }
        ensures order { (frames : List Frame) → pending_items result.mux frames ≡ order_without_quits limits frames }
        ensures counts { (link : ℕ) → executed_by result.counts link ≡ 0 }
        ensures taken { result.taken ≡ 0 }
    {
        Connections {
            mux: Mux::new(alloc, limits),
            counts: RequestCounts::new(alloc),
            taken: 0,
        }
    }

    /// Counts a step of the hub.
    pub(crate) fn take(&mut self, bytes: usize)
        ensures onward { self.old.taken < 2 ^ 64 - 1 → self.old.taken < self.new.taken }
        ensures bound { self.new.taken ≤ self.old.taken + suc bytes }
        ensures room { self.new.taken < 2 ^ 64 - 1 → self.new.taken ≡ self.old.taken + suc bytes }
        ensures mux { self.new.mux ≡ self.old.mux }
        ensures counts { self.new.counts ≡ self.old.counts }
    {
        self.taken = self.taken.saturating_add(1).saturating_add(bytes as u64);
    }

    /// Delivers bytes; none if the connection has closed. Bytes of a closed connection are passed over.
    pub(crate) fn deliver(&mut self, link: u64, bytes: &[u8]) -> Delivery
        requires asked { pending_items self.old.mux [] ≡ [] }
        ensures delivered { result ≡ Delivery.Delivered → (frames : List Frame) → pending_items self.new.mux frames
            ≡ pending_items self.old.mux (record { link = link; bytes = bytes.now } ∷ frames) }
        ensures lost { result ≢ Delivery.NoMemory → (frames : List Frame)
            → without link (pending_items self.new.mux frames)
            ≡ without link (pending_items self.old.mux (record { link = link; bytes = bytes.now } ∷ frames)) }
        ensures own { without link (pending_items self.new.mux []) ≡ [] }
        ensures reached { result ≢ Delivery.NoMemory → link < reach_of self.new.mux }
        ensures counts { (at : ℕ) → executed_by self.new.counts at ≡ executed_by self.old.counts at }
        ensures onward { self.old.taken < 2 ^ 64 - 1 → self.old.taken < self.new.taken }
        ensures bound { self.new.taken ≤ self.old.taken + suc (length bytes.now) }
    {
        self.take(bytes.len());
        match self.reach(link) {
            Ok(()) => {}
            Err(_) => return Delivery::NoMemory,
        }
        match self.feed(link, bytes) {
            Ok(()) => Delivery::Delivered,
            Err(_) => Delivery::Lost,
        }
    }

    // Takes memory for closing this connection, and for closing those that come soon.
    fn reach(&mut self, link: u64) -> Result<(), AllocError>
        ensures reached { OnOk result (link < reach_of self.new.mux) }
        ensures same { (frames : List Frame) → pending_items self.new.mux frames ≡ pending_items self.old.mux frames }
        ensures delivered { delivered_to self.new.mux ≡ delivered_to self.old.mux }
        ensures counts { self.new.counts ≡ self.old.counts }
        ensures taken { self.new.taken ≡ self.old.taken }
    {
        let ahead = link.saturating_add(REACH_AHEAD);
        match self.mux.reach(ahead) {
            Ok(()) => Ok(()),
            Err(_) => self.mux.reach(link),
        }
    }

    // Delivers bytes to a connection that can be closed without memory.
    fn feed(&mut self, link: u64, bytes: &[u8]) -> Result<(), AllocError>
        requires asked { pending_items self.old.mux [] ≡ [] }
        requires room { self.old.taken < 2 ^ 64 - 1
            → delivered_to self.old.mux + length bytes.now ≤ self.old.taken }
        ensures delivered { OnOk result ((frames : List Frame) → pending_items self.new.mux frames
            ≡ pending_items self.old.mux (record { link = link; bytes = bytes.now } ∷ frames)) }
        ensures lost { (frames : List Frame) → without link (pending_items self.new.mux frames)
            ≡ without link (pending_items self.old.mux (record { link = link; bytes = bytes.now } ∷ frames)) }
        ensures own { without link (pending_items self.new.mux []) ≡ [] }
        ensures reach { reach_of self.old.mux ≤ reach_of self.new.mux }
        ensures counts { (at : ℕ) → executed_by self.new.counts at ≡ executed_by self.old.counts at }
        ensures taken { self.new.taken ≡ self.old.taken }
    {
        if self.taken == u64::MAX {
            return Err(AllocError);
        }
        match self.counts.begin(link) {
            Ok(()) => {}
            Err(failed) => return Err(failed),
        }
        match self.mux.deliver_bytes(link, bytes) {
            Ok(()) => Ok(()),
            Err(failed) => Err(failed),
        }
    }

    /// Returns the next request or protocol error. An error closes its connection.
    pub(crate) fn next(&mut self) -> Turn
        ensures item { IfItem result (λ item. (frames : List Frame)
            → pending_items self.old.mux frames ≡ item ∷ pending_items self.new.mux frames) }
        ensures same { UnlessItem result ((frames : List Frame)
            → pending_items self.new.mux frames ≡ pending_items self.old.mux frames) }
        ensures closed { IfFault result (λ link. (frames : List Frame)
            → without link (pending_items self.new.mux frames) ≡ pending_items self.new.mux frames) }
        ensures progress { IfItem result (λ _. length (pending_items self.new.mux [])
            < length (pending_items self.old.mux [])) }
        ensures not_yet { OnNotYet result (pending_items self.new.mux [] ≡ []) }
        ensures reached { IfLink result (λ link. link < reach_of self.new.mux) }
        ensures reach { reach_of self.new.mux ≡ reach_of self.old.mux }
        ensures counts { self.new.counts ≡ self.old.counts }
        ensures taken { self.new.taken ≡ self.old.taken }
    {
        self.mux.next()
    }

    /// Counts a request that was executed, and takes back the vector of its words.
    pub(crate) fn count(&mut self, link: u64, words: Vec<Word>) -> Result<(), AllocError>
        ensures ok { OnOk result ((at : ℕ)
            → executed_by self.new.counts at ≡ counted_at link (executed_by self.old.counts) at) }
        ensures same { (frames : List Frame) → pending_items self.new.mux frames ≡ pending_items self.old.mux frames }
        ensures reach { reach_of self.new.mux ≡ reach_of self.old.mux }
        ensures taken { self.new.taken ≡ self.old.taken }
    {
        self.mux.give_back(words);
        self.counts.count(link)
    }

    /// Whether a connection has sent part of a request that is not complete.
    pub(crate) fn is_inside_request(&self, link: u64) -> bool
        ensures { result ≡ is_inside_request self.now.mux link }
    {
        self.mux.is_inside_request(link)
    }

    /// Closes a connection. Returns how many of its requests were executed. Allocates nothing.
    pub(crate) fn close(&mut self, link: u64) -> u64
        requires { link < reach_of self.old.mux }
        ensures executed { result ≡ executed_by self.old.counts link }
        ensures others { (frames : List Frame)
            → pending_items self.new.mux frames ≡ without link (pending_items self.old.mux frames) }
        ensures counts { (at : ℕ)
            → executed_by self.new.counts at ≡ forgotten link (executed_by self.old.counts) at }
        ensures reach { reach_of self.new.mux ≡ reach_of self.old.mux }
        ensures taken { self.new.taken ≡ self.old.taken }
    {
        let executed = self.counts.executed(link);
        self.counts.remove(link);
        self.mux.close(link);
        executed
    }
}

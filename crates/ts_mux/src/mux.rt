// Yields the requests of interleaved connections in order.
ghost use Rattle.std.specs.Prelude.{◌≡◌, ◌≢◌, ℕ, ◌+◌, ◌^◌, ◌<◌, ◌≤◌, List, [], ◌∷◌, length};
ghost use Rattle.std.specs.Prelude.{OnOk, OnErr};
ghost use Rattle.ts_mux.specs.declared.frame.Frame.{Frame};
ghost use Rattle.ts_mux.specs.ClosedLinks.{index_of, stream_of_link, fed_to_link};
ghost use Rattle.ts_mux.specs.Links.{AreDrained, AreFedAtMost, HasIndex, current_without};

use crate::current_connection::CurrentConnection;
use crate::open_connections::OpenConnections;
use crate::{Frame, Turn};
use std::alloc::{AllocError, Global};
use ts_resp::Word;
use ts_spec::WireLimits;

mod delivery;

/// Yields the requests of interleaved connections in the order in which they are completed. No connection number is
/// used twice: a closed connection stays closed.
#[derive(Drop)]
pub struct Mux {
    alloc: Global,
    limits: WireLimits,
    open_connections: OpenConnections,
    // the connection whose frame was delivered last, if it is open
    current_connection: Option<CurrentConnection>,
    // how many bytes were delivered
    delivered: u64,
    ghost words: { 1 ≤ limits.words },
    ghost word_bytes: { 1 ≤ limits.word_bytes },
    ghost request_bytes: { 1 ≤ limits.request_bytes },
    ghost line_bytes: { 1 ≤ limits.line_bytes },
    ghost drained: { AreDrained current_connection (stream_of_link limits open_connections) },
    ghost within: { AreFedAtMost delivered (fed_to_link open_connections) },
    ghost index: { HasIndex (index_of open_connections) current_connection },
}

impl Mux {
    ghost use Rattle.ts_mux.specs.Order.{order_without_quits, without};
    ghost use Rattle.ts_mux.specs.Muxing.{pending_items, delivered_to, reach_of};
    ghost use Rattle.ts_mux.specs.Turns.{IfItem, IfLink, IfRequest, IfFault, UnlessItem, OnNotYet, IsNextTurn};

    /// A `Mux` without frames. Allocates nothing.
    pub fn new(alloc: Global, limits: WireLimits) -> Mux
        requires words { 1 ≤ limits.words }
        requires word_bytes { 1 ≤ limits.word_bytes }
        requires request_bytes { 1 ≤ limits.request_bytes }
        requires line_bytes { 1 ≤ limits.line_bytes }
        ensures order { (frames : List Frame) → pending_items result frames ≡ order_without_quits limits frames }
        ensures delivered { delivered_to result ≡ 0 }
    {
        Mux {
            alloc,
            limits,
            open_connections: OpenConnections::new(alloc),
            current_connection: None,
            delivered: 0,
        }
    }

    /// Delivers a frame. An empty frame closes its connection; a frame of a closed connection is ignored.
    pub fn deliver(&mut self, frame: Frame) -> Result<(), AllocError>
        requires asked { pending_items self.old [] ≡ [] }
        requires bound { delivered_to self.old + length frame.bytes < 2 ^ 64 }
        ensures ok { OnOk result ((frames : List Frame)
            → pending_items self.new frames ≡ pending_items self.old (frame ∷ frames)) }
        ensures delivered { OnOk result (delivered_to self.new ≡ delivered_to self.old + length frame.bytes) }
        ensures err { OnErr result ((frames : List Frame)
            → pending_items self.new frames ≡ pending_items self.old frames) }
        ensures err_delivered { OnErr result (delivered_to self.new ≡ delivered_to self.old) }
    {
        self.deliver_bytes(frame.link as u64, frame.bytes.bytes())
    }

    /// Returns the next request or protocol error of the frames delivered so far. An error closes its connection; a
    /// request never does.
    pub fn next(&mut self) -> Turn
        ensures item { IfItem result
            (λ item. (frames : List Frame) → pending_items self.old frames ≡ item ∷ pending_items self.new frames) }
        ensures words { IfRequest result (λ words. words ≢ []) }
        ensures closed { IfFault result
            (λ link. (frames : List Frame)
            → without link (pending_items self.new frames) ≡ pending_items self.new frames) }
        ensures progress { IfItem result (λ _. length (pending_items self.new [])
            < length (pending_items self.old [])) }
        ensures same { UnlessItem result ((frames : List Frame)
            → pending_items self.new frames ≡ pending_items self.old frames) }
        ensures not_yet { OnNotYet result (pending_items self.new [] ≡ []) }
        ensures reached { IfLink result (λ link. link < reach_of self.new) }
        ensures reach { reach_of self.new ≡ reach_of self.old }
        ensures delivered { delivered_to self.new ≡ delivered_to self.old }
    {
        match self.ask() {
            Turn::Request(link, words) => Turn::Request(link, words),
            Turn::Fault(link, protocol) => {
                self.close(link);
                Turn::Fault(link, protocol)
            }
            Turn::NotYet => Turn::NotYet,
            Turn::Memory => Turn::Memory,
        }
    }

    /// Takes back the vector of a handled request, so that the next request of the current connection can use its
    /// capacity again. Frees the memory of unusually large requests.
    pub fn give_back(&mut self, words: Vec<Word>)
        ensures same { (frames : List Frame) → pending_items self.new frames ≡ pending_items self.old frames }
        ensures reach { reach_of self.new ≡ reach_of self.old }
        ensures delivered { delivered_to self.new ≡ delivered_to self.old }
    {
        if let Some(at) = self.current_connection {
            self.open_connections.give_back(at, words);
        }
    }

    // The same, but an error closes nothing.
    fn ask(&mut self) -> Turn
        ensures words { IfRequest result (λ words. words ≢ []) }
        ensures gives { IsNextTurn result (pending_items self.old) (pending_items self.new) }
        ensures reached { IfLink result (λ link. link < reach_of self.new) }
        ensures reach { reach_of self.new ≡ reach_of self.old }
        ensures delivered { delivered_to self.new ≡ delivered_to self.old }
    {
        match self.current_connection {
            None => Turn::NotYet,
            Some(at) => self.open_connections.next(at),
        }
    }

    /// Closes a connection that was reached, and drops its unread bytes. Allocates nothing.
    pub fn close(&mut self, link: u64)
        requires { link < reach_of self.old }
        ensures others { (frames : List Frame)
            → pending_items self.new frames ≡ without link (pending_items self.old frames) }
        ensures reach { reach_of self.new ≡ reach_of self.old }
        ensures delivered { delivered_to self.new ≡ delivered_to self.old }
    {
        self.open_connections.close(link);
        drop_current(&mut self.current_connection, link);
    }
}

// Drops the current connection if it is `link`.
fn drop_current(current_connection: &mut Option<CurrentConnection>, link: u64)
    ensures { current_connection.new ≡ current_without link current_connection.old }
{
    if let Some(at) = current_connection
        && at.link == link
    {
        *current_connection = None;
    }
}

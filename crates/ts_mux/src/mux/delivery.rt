// Delivers bytes to an open connection, which becomes the current one.
ghost use Rattle.std.specs.Prelude.{◌≡◌, ◌+◌, ◌^◌, ◌<◌, ◌≤◌, false, List, [], ◌∷◌, length, Some};
ghost use Rattle.std.specs.Prelude.{OnOk, OnErr, IfOk, IfSome};
ghost use Rattle.ts_mux.specs.declared.frame.Frame.{Frame};
ghost use Rattle.ts_mux.specs.ClosedLinks.{is_closed, GoesTo};
ghost use Rattle.ts_mux.specs.Order.{without};
ghost use Rattle.ts_mux.specs.Muxing.{pending_items, delivered_to, reach_of, is_inside_request};

use super::Mux;
use crate::current_connection::CurrentConnection;
use std::alloc::AllocError;

impl Mux {
    /// Delivers a frame whose bytes stand elsewhere. On an error nothing was delivered; if the connection is closed
    /// then, the others yield what they would have yielded.
    pub fn deliver_bytes(&mut self, link: u64, bytes: &[u8]) -> Result<(), AllocError>
        requires asked { pending_items self.old [] ≡ [] }
        requires bound { delivered_to self.old + length bytes.now < 2 ^ 64 }
        ensures ok { OnOk result ((frames : List Frame) → pending_items self.new frames
            ≡ pending_items self.old (record { link = link; bytes = bytes.now } ∷ frames)) }
        ensures delivered { OnOk result (delivered_to self.new ≡ delivered_to self.old + length bytes.now) }
        ensures err { OnErr result ((frames : List Frame)
            → pending_items self.new frames ≡ pending_items self.old frames) }
        ensures err_delivered { OnErr result (delivered_to self.new ≡ delivered_to self.old) }
        ensures lost { OnErr result ((frames : List Frame) → without link (pending_items self.new frames)
            ≡ without link (pending_items self.old (record { link = link; bytes = bytes.now } ∷ frames))) }
        ensures own { OnOk result (without link (pending_items self.new []) ≡ []) }
        ensures longer { reach_of self.old ≤ reach_of self.new }
    {
        self.reach(link)?;
        if bytes.is_empty() {
            self.close(link);
            return Ok(());
        }
        match self.go_to(link)? {
            None => {
                self.delivered += bytes.len() as u64;
                Ok(())
            }
            Some(at) => {
                self.feed(at, bytes)?;
                Ok(())
            }
        }
    }

    /// Allocates what it takes to close this connection and all with lower numbers. Meant for numbers that are given
    /// out in order.
    pub fn reach(&mut self, link: u64) -> Result<(), AllocError>
        ensures reached { OnOk result (link < reach_of self.new) }
        ensures longer { reach_of self.old ≤ reach_of self.new }
        ensures same { (frames : List Frame) → pending_items self.new frames ≡ pending_items self.old frames }
        ensures delivered { delivered_to self.new ≡ delivered_to self.old }
    {
        self.open_connections.reach(link)
    }

    /// Whether a connection has sent part of a request that is not complete. Allocates nothing.
    pub fn is_inside_request(&self, link: u64) -> bool
        ensures { result ≡ is_inside_request self.now link }
    {
        self.open_connections.is_inside_request(link)
    }

    // Makes an open connection the current one. Returns None if it is closed.
    fn go_to(&mut self, link: u64) -> Result<Option<CurrentConnection>, AllocError>
        requires asked { pending_items self.old [] ≡ [] }
        requires reached { link < reach_of self.old }
        ensures same { (frames : List Frame) → pending_items self.new frames ≡ pending_items self.old frames }
        ensures goes { IfOk result (λ at. GoesTo link self.new.open_connections self.new.current_connection at) }
        ensures delivered { delivered_to self.new ≡ delivered_to self.old }
        ensures reach { reach_of self.new ≡ reach_of self.old }
    {
        if let Some(at) = current_if(self.current_connection, link) {
            return Ok(Some(at));
        }
        self.switch_to(link)
    }

    // The same for a connection that has to be found.
    fn switch_to(&mut self, link: u64) -> Result<Option<CurrentConnection>, AllocError>
        requires asked { pending_items self.old [] ≡ [] }
        requires reached { link < reach_of self.old }
        ensures same { (frames : List Frame) → pending_items self.new frames ≡ pending_items self.old frames }
        ensures goes { IfOk result (λ at. GoesTo link self.new.open_connections self.new.current_connection at) }
        ensures delivered { delivered_to self.new ≡ delivered_to self.old }
        ensures reach { reach_of self.new ≡ reach_of self.old }
    {
        match self.open_connections.find(link, self.alloc, self.limits) {
            Ok(None) => Ok(None),
            Ok(Some(index)) => {
                let at = CurrentConnection { link, index };
                self.current_connection = Some(at);
                Ok(Some(at))
            }
            Err(failed) => Err(failed),
        }
    }

    // Feeds bytes to the current connection.
    fn feed(&mut self, at: CurrentConnection, bytes: &[u8]) -> Result<(), AllocError>
        requires asked { pending_items self.old [] ≡ [] }
        requires some { 0 < length bytes.now }
        requires current_connection { self.old.current_connection ≡ Some at }
        requires open { is_closed self.old.open_connections at.link ≡ false }
        requires bound { delivered_to self.old + length bytes.now < 2 ^ 64 }
        ensures ok { OnOk result ((frames : List Frame)
            → pending_items self.new frames
            ≡ pending_items self.old (record { link = at.link; bytes = bytes.now } ∷ frames)) }
        ensures delivered { OnOk result (delivered_to self.new ≡ delivered_to self.old + length bytes.now) }
        ensures err { OnErr result ((frames : List Frame)
            → pending_items self.new frames ≡ pending_items self.old frames) }
        ensures err_delivered { OnErr result (delivered_to self.new ≡ delivered_to self.old) }
        ensures reach { reach_of self.new ≡ reach_of self.old }
    {
        match self.open_connections.feed(at, bytes) {
            Ok(()) => {
                self.delivered += bytes.len() as u64;
                Ok(())
            }
            Err(failed) => Err(failed),
        }
    }
}

// Returns the current connection if it is `link`.
fn current_if(current_connection: Option<CurrentConnection>, link: u64) -> Option<CurrentConnection>
    ensures { IfSome result (λ at. (at.link ≡ link) × (current_connection ≡ Some at)) }
{
    match current_connection {
        Some(at) => {
            if at.link == link {
                return Some(at);
            }
            None
        }
        None => None,
    }
}

// The current connection, and the events that connections yield.
ghost use Rattle.std.specs.Prelude.{◌≡◌, ◌≢◌, []};
ghost use Rattle.ts_resp.specs.Reading.{fed};
ghost use Rattle.ts_mux.specs.Turns.{IfRequest, IsNextOfReader};

use ts_resp::{Next, Protocol, Reader, Word};

/// The result of `Mux::next`.
#[derive(Debug, Drop)]
pub enum Turn {
    /// The number of a connection, and the arguments of its next request (at least one).
    Request(u64, Vec<Word>),
    /// The number of a connection, and the protocol error that closes it.
    Fault(u64, Protocol),
    /// The frames delivered so far contain no further request or error of an open connection.
    NotYet,
    /// Out of memory for an argument. A later call may succeed.
    Memory,
}

// The connection whose frame was delivered last.
#[derive(Clone, Copy)]
pub(crate) struct CurrentConnection {
    pub(crate) link: u64,
    // the index of its reader
    pub(crate) index: usize,
}

// Returns the next request or error of a connection, whose reader this is.
pub(crate) fn next_turn(link: u64, reader: &mut Reader) -> Turn
    ensures says { IsNextOfReader result link reader.old reader.new }
    ensures words { IfRequest result (λ words. words ≢ []) }
    ensures fed { fed reader.new ≡ fed reader.old }
{
    if !reader.has_unread() {
        return Turn::NotYet;
    }
    match reader.next() {
        Next::Request(words) => Turn::Request(link, words),
        Next::NotYet => Turn::NotYet,
        Next::Broken(protocol) => Turn::Fault(link, protocol),
        Next::Memory => Turn::Memory,
    }
}

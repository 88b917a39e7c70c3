// The traits of a listener, which accepts connections, and of a connection that can be used without blocking.
ghost use Rattle.std.specs.Prelude.{◌≡◌, ℕ, List, Option, Bool, true, false, is_ok, IfOk, OnErr, ◌<◌, [], length};
ghost use Rattle.ts_io.specs.Causes.{HasCause};
ghost use Rattle.ts_io.specs.Links.{PopsFront, PushesBack};
ghost use Rattle.ts_io.specs.declared.listener.Ends.{Ends};
ghost use Rattle.std.specs.Io.{ReadsAtMost, WritesAtMost};
ghost use Rattle.std.specs.Io.KnownBytes.{ReadConsumes};
ghost use Rattle.ts_io.specs.Batches.{NonBlockingConsumes};
ghost use Rattle.ts_io.specs.Sinks.{Grows, WriteGrows};

use crate::{Failed, Sink, Source};

/// Both ends of a connection: the input to read and the output to write.
#[derive(Drop)]
pub struct Ends<I, O> {
    pub input: I,
    pub out: O,
}

/// A listener that hands out one connection at a time.
pub trait Listener {
    type In: Source;

    type Out: Sink;

    /// How many calls have failed. It never falls.
    ghost faults: { Self → ℕ };

    /// The connections to come, if the listener knows them.
    ghost coming: { Self → Option (List (Ends Self.In Self.Out)) };

    /// The closed connections, in the order in which they were closed, if the listener records them.
    ghost closed: { Self → Option (List (Ends Self.In Self.Out)) };

    /// Whether a connection is open.
    ghost has_open_link: { Self → Bool };

    /// Starts to listen on this address.
    fn open(&mut self, address: &str) -> Result<(), Failed>
        ensures coming { coming self.new ≡ coming self.old }
        ensures closed { closed self.new ≡ closed self.old }
        ensures out { has_open_link self.new ≡ has_open_link self.old }
        ensures cause { HasCause (faults self.old) (faults self.new) result };

    /// Accepts the next connection.
    fn accept(&mut self) -> Result<Ends<Self::In, Self::Out>, Failed>
        requires { has_open_link self.old ≡ false }
        ensures link { IfOk result (PopsFront (coming self.old) (coming self.new)) }
        ensures failed { OnErr result (coming self.new ≡ coming self.old) }
        ensures closed { closed self.new ≡ closed self.old }
        ensures out { has_open_link self.new ≡ is_ok result }
        ensures cause { HasCause (faults self.old) (faults self.new) result };

    /// Closes the connection. It can't fail.
    fn close(&mut self, ends: Ends<Self::In, Self::Out>)
        requires { has_open_link self.old ≡ true }
        ensures coming { coming self.new ≡ coming self.old }
        ensures closed { PushesBack (closed self.old) (closed self.new) ends }
        ensures out { has_open_link self.new ≡ false }
        ensures faults { faults self.new ≡ faults self.old };
}

/// How long a send waits for the peer to take bytes.
#[derive(Clone, Copy, PartialEq, Eq)]
pub enum Wait {
    /// Does not wait.
    Not,
    /// Waits for a moment.
    Briefly,
    /// Waits until the peer takes at least one byte.
    Long,
}

/// A two-way connection to a peer, with calls that don't block.
pub trait Connection {
    /// The bytes still to come, if the connection knows them.
    ghost left: { Self → Option (List ℕ) };

    /// Whether these are the bytes sent to the peer, in order. A connection that does not record them has no such list.
    ghost has: { Self → List ℕ → Type 0 };

    /// How many calls have failed. It never falls.
    ghost faults: { Self → ℕ };

    /// Sends a prefix of `bytes` and returns its length, 0 if the peer took nothing in time. A call that fails sends
    /// nothing.
    fn send(&mut self, bytes: &[u8], wait: Wait) -> Result<usize, Failed>
        ensures bound { WritesAtMost result bytes.now }
        ensures progress { wait ≡ Wait.Long → 0 < length bytes.now → IfOk result (λ n. 0 < n) }
        ensures bytes { WriteGrows (has self.old) (has self.new) result bytes.now }
        ensures left { left self.new ≡ left self.old }
        ensures cause { HasCause (faults self.old) (faults self.new) result };

    /// Waits for bytes and reads them, as `Source::read` does.
    fn receive(&mut self, buf: &mut [u8]) -> Result<usize, Failed>
        ensures bound { ReadsAtMost result buf.new }
        ensures bytes { ReadConsumes (left self.old) (left self.new) result buf.new }
        ensures has { Grows (has self.old) (has self.new) [] }
        ensures cause { HasCause (faults self.old) (faults self.new) result };

    /// Reads without waiting. `None` means that no byte has arrived. `Some(0)` for a `buf` that is not empty is the end
    /// of the input.
    fn try_receive(&mut self, buf: &mut [u8]) -> Result<Option<usize>, Failed>
        ensures bytes { NonBlockingConsumes (left self.old) (left self.new) result buf.new }
        ensures has { Grows (has self.old) (has self.new) [] }
        ensures cause { HasCause (faults self.old) (faults self.new) result };
}

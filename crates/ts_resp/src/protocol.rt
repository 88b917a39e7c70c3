// Protocol errors.
ghost use Rattle.std.specs.Prelude.{◌≡◌, ◌++◌, Some, codes};
ghost use Rattle.std.specs.Fmt.{decimal};
ghost use Rattle.ts_spec.specs.Text.{protocol_message};

use std::fmt;
use ts_spec::Kind;

/// A protocol error in a request stream.
#[derive(Clone, Copy, PartialEq, Eq)]
pub struct Protocol {
    pub kind: Kind,
    /// The offset in the stream of the first invalid byte, counted from 0.
    pub place: u64,
}

impl Protocol {
    /// The text of the error reply.
    pub fn message(&self) -> &'static str
        ensures { result.now ≡ protocol_message self.now.kind }
    {
        match self.kind {
            Kind::Multibulk => "ERR Protocol error: invalid multibulk length",
            Kind::Bulk => "ERR Protocol error: invalid bulk length",
            Kind::Dollar => "ERR Protocol error: expected '$'",
            Kind::Crlf => "ERR Protocol error: expected CRLF",
            Kind::TooLarge => "ERR Protocol error: request too large",
        }
    }
}

impl fmt::Debug for Protocol {
    ghost debug_output = { λ p. Some (protocol_message p.kind ++ codes " at byte " ++ decimal p.place) };

    fn fmt<W: fmt::Write>(&self, f: &mut fmt::Formatter<W>) -> fmt::Result {
        write!(f, "{} at byte {}", self.message(), self.place)
    }
}

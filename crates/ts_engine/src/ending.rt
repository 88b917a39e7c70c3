// How a stream ends: where its input ends, or by its session's result.
ghost use Rattle.std.specs.Prelude.{◌≡◌};
ghost use Rattle.ts_resp.specs.Reading.{unfinished};
ghost use Rattle.ts_engine.specs.SessionView.{reader_of};
ghost use Rattle.ts_engine.specs.Ending.{end_at, end_by};

use crate::piped::End;
use crate::replying::Go;
use crate::session::Session;

// The end of the stream, if the input has ended.
pub(crate) fn end_of_input(session: &Session) -> End
    ensures { result ≡ end_at (unfinished (reader_of session.now)) }
{
    match session.place() {
        None => End::Ended,
        Some(place) => End::Truncated(place),
    }
}

// The end that a session's result means, if it is one.
pub(crate) fn end_of_piece(go: Go) -> Option<End>
    ensures { result ≡ end_by go }
{
    match go {
        Go::More => None,
        Go::Quit => Some(End::Ended),
        Go::Broken(fault) => Some(End::Protocol(fault)),
        Go::WriteFault => Some(End::WriteFault),
        Go::Memory => Some(End::Memory),
    }
}

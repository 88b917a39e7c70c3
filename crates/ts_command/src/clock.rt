// Whether a command needs the clock.
ghost use Rattle.std.specs.Prelude.{◌≡◌};
ghost use Rattle.ts_spec.specs.Grammar.{is_clock, is_clock_at, any_clock, needs_clock};
ghost use Rattle.ts_command.specs.Reading.{triple_of, triples_of, command_of};

use crate::command::{Command, Triple};
use ts_spec::At;

impl Command {
    /// Whether the command needs a clock reading: its time is `*`, or is optional and missing.
    pub fn needs_clock(&self) -> bool
        ensures { result ≡ needs_clock (command_of self.now) }
    {
        match self {
            Command::Add { at, .. } | Command::Incr { at, .. } => is_clock(*at),
            Command::Madd { triples } => any_clock(triples),
            _ => false,
        }
    }
}

fn is_clock(at: At) -> bool
    ensures { result ≡ is_clock at }
{
    match at {
        At::Clock => true,
        At::Time(_) => false,
    }
}

fn has_clock(triple: &Triple) -> bool
    ensures { result ≡ is_clock_at (triple_of triple.now).at }
{
    match &triple.at {
        Ok(at) => is_clock(*at),
        Err(_) => false,
    }
}

fn any_clock(triples: &[Triple]) -> bool
    ensures { result ≡ any_clock (triples_of triples.now) }
{
    for triple in triples {
        if has_clock(triple) {
            return true;
        }
    }
    false
}

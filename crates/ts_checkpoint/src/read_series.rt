// Reads the record of a series, and the command in it.
ghost use Rattle.std.specs.Prelude.{◌≡◌, ◌≤◌, drop, length, option_map, Ok, IfOk, IfErr};
ghost use Rattle.ts_spec.specs.Grammar.{command};
ghost use Rattle.ts_command.specs.Reading.{command_of};
ghost use Rattle.ts_checkpoint.specs.Parts.{value_of};
ghost use Rattle.ts_checkpoint.specs.PartOf.{series_part, created_series};
ghost use Rattle.ts_checkpoint.specs.Reading.{Reads, IsCommandFault};

use crate::numbers::{small_number_in, time_or_none};
use crate::part::{Part, PartFault, SeriesHead};
use ts_command::{Command, CommandFault, read};
use ts_resp::Word;

#[tactic(auto, unfolding(crate::specs::PartOf::series_part))]
pub(crate) fn read_series(words: Vec<Word>) -> Result<Part, PartFault>
    ensures { Reads (series_part (drop 1 words.items)) result }
{
    let [_, high, born, pieces, ..] = words.as_slice() else {
        return Err(PartFault::Refused);
    };
    let high = time_or_none(high.bytes()).ok_or(PartFault::Refused)?;
    let born = small_number_in(0, u32::MAX, born.bytes()).ok_or(PartFault::Refused)?;
    let pieces = small_number_in(0, u32::MAX, pieces.bytes()).ok_or(PartFault::Refused)?;
    let command = read_command(words, 4)?;
    created_series(high, born, pieces, command).ok_or(PartFault::Refused)
}

// The series that a command creates.
fn created_series(high: Option<u64>, born: u32, pieces: u32, command: Command) -> Option<Part>
    ensures { created_series high born pieces (Ok (command_of command)) ≡ option_map value_of result }
{
    match command {
        Command::Create { key, spec } => Some(Part::Series(SeriesHead {
            key,
            spec,
            high,
            born,
            pieces,
        })),
        _ => None,
    }
}

// Parses the command after this many words.
pub(crate) fn read_command(words: Vec<Word>, at: usize) -> Result<Command, PartFault>
    requires { at ≤ length words.items }
    ensures ok { IfOk result (λ c. command (drop at words.items) ≡ Ok (command_of c)) }
    ensures fault { IfErr result (IsCommandFault (command (drop at words.items))) }
{
    let mut words = words;
    let words = words.split_off(at).map_err(PartFault::Memory)?;
    parse_command(words)
}

// Parses a command.
pub(crate) fn parse_command(words: Vec<Word>) -> Result<Command, PartFault>
    ensures ok { IfOk result (λ c. command words.items ≡ Ok (command_of c)) }
    ensures fault { IfErr result (IsCommandFault (command words.items)) }
{
    match read(words) {
        Ok(command) => Ok(command),
        Err(CommandFault::Memory(error)) => Err(PartFault::Memory(error)),
        Err(_) => Err(PartFault::Refused),
    }
}

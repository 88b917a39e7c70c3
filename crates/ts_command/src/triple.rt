// Parses TS.MADD.
ghost use Rattle.std.specs.Prelude.{◌≡◌, ◌<◌, ⊤, ◌∷◌, [], drop, length, IfOk, OnSome, MatchOption};
ghost use Rattle.std.specs.Vec.Iter.{into_iter_items};
ghost use Rattle.std.specs.Result.{ForErr, ForOk};
ghost use Rattle.ts_spec.specs.Grammar.{madd, triples};
ghost use Rattle.ts_spec.specs.Settings.{IsTime, at_word, value_word};
ghost use Rattle.ts_command.specs.Answers.{HasTime};
ghost use Rattle.ts_command.specs.Faults.{MatchesOrMemory, IsNoMemory, result_with_fault};
ghost use Rattle.ts_command.specs.Reading.{command_of, triple_of, triples_of};

use crate::command::{Command, Triple};
use crate::fault::{CommandFault, ReadFault};
use crate::words::{at_word, value_word};
use std::alloc::{AllocError, Global};
use std::vec::IntoIter;
use ts_resp::Word;
use ts_sample::Units;
use ts_spec::At;

// The next three words.
fn next_triple(words: &mut IntoIter<Word>) -> Option<Triple>
    ensures triple { MatchOption result (triples (into_iter_items words.old) ≡ [])
        (λ t. triples (into_iter_items words.old) ≡ triple_of t ∷ triples (into_iter_items words.new)) }
    ensures fewer { OnSome result (length (into_iter_items words.new) < length (into_iter_items words.old)) }
{
    let key = words.next()?;
    let time = words.next()?;
    let value = words.next()?;
    Some(Triple {
        key,
        at: time_of(time.bytes()),
        value: value_of(value.bytes()),
    })
}

// The time of a sample, or its error.
fn time_of(word: &[u8]) -> Result<At, CommandFault>
    ensures answer { result_with_fault result ≡ at_word word.now }
    ensures time { ForOk result IsTime }
    ensures no_memory { ForErr result IsNoMemory }
{
    match at_word(word) {
        Ok(at) => Ok(at),
        Err(fault) => Err(fault.of_command()),
    }
}

// The value of a sample, or its error.
fn value_of(word: &[u8]) -> Result<Units, CommandFault>
    ensures answer { result_with_fault result ≡ value_word word.now }
    ensures no_memory { ForErr result IsNoMemory }
{
    match value_word(word) {
        Ok(value) => Ok(value),
        Err(fault) => Err(fault.of_command()),
    }
}

// Parses groups of three words.
fn read_triples(alloc: Global, mut words: IntoIter<Word>) -> Result<Vec<Triple>, AllocError>
    ensures { IfOk result (λ ts. triples_of ts.items ≡ triples (into_iter_items words)) }
{
    let mut triples = Vec::with_capacity(alloc, words.len() / 3)?;
    while let Some(triple) = next_triple(&mut words) {
        triples.push(triple)?;
    }
    Ok(triples)
}

// Parses the whole request, its name included.
pub(crate) fn read_madd(words: Vec<Word>) -> Result<Command, ReadFault>
    ensures command { MatchesOrMemory ⊤ command_of result (madd (drop 1 words.items)) }
    ensures time { IfOk result HasTime }
{
    let alloc = *words.allocator();
    let mut words = words.into_iter();
    let _name = words.next();
    let triples = read_triples(alloc, words)?;
    Ok(Command::Madd { triples })
}

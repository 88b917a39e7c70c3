// Commands without options. Each function gets the whole request, its name included.
ghost use Rattle.std.specs.Prelude.{◌≡◌, drop, IfOk, ◌∷◌, [], IfErr};
ghost use Rattle.std.specs.Vec.Iter.{into_iter_items};
ghost use Rattle.ts_spec.specs.Command as spec;
ghost use Rattle.ts_spec.specs.Grammar.{get_last, info, ping, echo, create_rule, delete_rule, rule_buckets};
ghost use Rattle.ts_command.specs.Answers.{HasTime};
ghost use Rattle.ts_command.specs.Faults.{Matches};
ghost use Rattle.ts_command.specs.Reading.{command_of};
ghost use Rattle.ts_command.specs.declared.fault.WordFault.TheVariants.{Arity};

use crate::command::Command;
use crate::fault::WordFault;
use crate::words::{aggregator_word, duration_word, time_word};
use std::vec::IntoIter;
use ts_agg::is_name;
use ts_bucket::Grid;
use ts_resp::Word;

pub(crate) fn read_get(mut words: Vec<Word>) -> Result<Command, WordFault>
    ensures command { Matches command_of result (get_last (drop 1 words.items)) }
    ensures time { IfOk result HasTime }
{
    let latest = match words.as_slice() {
        [] | [_] => return Err(WordFault::Arity),
        [_, _] => false,
        [_, _, word, ..] => {
            if !is_name(b"LATEST", word.bytes()) {
                return Err(WordFault::BadOption);
            }
            true
        }
    };
    Ok(Command::Get {
        key: words.swap_remove(1),
        latest,
    })
}

pub(crate) fn read_info(mut words: Vec<Word>) -> Result<Command, WordFault>
    ensures command { Matches command_of result (info (drop 1 words.items)) }
    ensures time { IfOk result HasTime }
{
    if words.len() < 2 {
        return Err(WordFault::Arity);
    }
    Ok(Command::InfoOf {
        key: words.swap_remove(1),
    })
}

pub(crate) fn read_ping(mut words: Vec<Word>) -> Result<Command, WordFault>
    ensures command { Matches command_of result (ping (drop 1 words.items)) }
    ensures time { IfOk result HasTime }
{
    if words.len() < 2 {
        return Ok(Command::Ping { word: None });
    }
    Ok(Command::Ping {
        word: Some(words.swap_remove(1)),
    })
}

pub(crate) fn read_echo(mut words: Vec<Word>) -> Result<Command, WordFault>
    ensures command { Matches command_of result (echo (drop 1 words.items)) }
    ensures time { IfOk result HasTime }
{
    if words.len() < 2 {
        return Err(WordFault::Arity);
    }
    Ok(Command::Echo {
        word: words.swap_remove(1),
    })
}

// The words after the name, without copying them.
fn keys(mut words: Vec<Word>) -> Vec<Word>
    ensures { result.items ≡ drop 1 words.items }
{
    if !words.is_empty() {
        let _name = words.remove(0);
    }
    words
}

pub(crate) fn read_drop(words: Vec<Word>) -> Result<Command, WordFault>
    ensures command { Matches command_of result (Ok (spec.Drop (drop 1 words.items))) }
    ensures time { IfOk result HasTime }
{
    Ok(Command::Drop { keys: keys(words) })
}

pub(crate) fn read_exists(words: Vec<Word>) -> Result<Command, WordFault>
    ensures command { Matches command_of result (Ok (spec.Exists (drop 1 words.items))) }
    ensures time { IfOk result HasTime }
{
    Ok(Command::Exists { keys: keys(words) })
}

// The next word, which must exist.
fn next_word(words: &mut IntoIter<Word>) -> Result<Word, WordFault>
    ensures ok { IfOk result (λ word. into_iter_items words.old ≡ word ∷ into_iter_items words.new) }
    ensures fault { IfErr result (λ fault. (fault ≡ Arity) × (into_iter_items words.old ≡ [])) }
{
    words.next().ok_or(WordFault::Arity)
}

// Parses the aggregator, the bucket duration and the optional alignment of a compaction rule.
fn read_buckets(source: Word, dest: Word, mut words: IntoIter<Word>) -> Result<Command, WordFault>
    ensures command { Matches command_of result (rule_buckets source dest (into_iter_items words)) }
    ensures time { IfOk result HasTime }
{
    let name = next_word(&mut words)?;
    let length = next_word(&mut words)?;
    let agg = aggregator_word(name.bytes())?;
    let duration = duration_word(length.bytes())?;
    let align = match words.next() {
        None => 0,
        Some(word) => time_word(word.bytes())?,
    };
    let grid = Grid::new(align, duration).ok_or(WordFault::BadDuration)?;
    Ok(Command::CreateRule {
        source,
        dest,
        agg,
        grid,
    })
}

pub(crate) fn read_create_rule(words: Vec<Word>) -> Result<Command, WordFault>
    ensures command { Matches command_of result (create_rule (drop 1 words.items)) }
    ensures time { IfOk result HasTime }
{
    let mut words = words.into_iter();
    let _name = words.next();
    let source = next_word(&mut words)?;
    let dest = next_word(&mut words)?;
    let option = next_word(&mut words)?;
    if !is_name(b"AGGREGATION", option.bytes()) {
        return Err(WordFault::BadOption);
    }
    read_buckets(source, dest, words)
}

pub(crate) fn read_delete_rule(words: Vec<Word>) -> Result<Command, WordFault>
    ensures command { Matches command_of result (delete_rule (drop 1 words.items)) }
    ensures time { IfOk result HasTime }
{
    let mut words = words.into_iter();
    let _name = words.next();
    let source = next_word(&mut words)?;
    let dest = next_word(&mut words)?;
    Ok(Command::DeleteRule { source, dest })
}

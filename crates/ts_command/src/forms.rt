// Commands on one series. Each function gets the whole request, its name included, and parses it in place; the key is
// moved out at the end. Requests without options take a short path that collects no option values.
ghost use Rattle.std.specs.Prelude.{◌≡◌, drop, IfOk, IsTrue};
ghost use Rattle.ts_spec.specs.Grammar.{create, alter, add, incr, del_range};
ghost use Rattle.ts_spec.specs.SeriesOptions.{has_labels};
ghost use Rattle.ts_command.specs.Answers.{HasTime};
ghost use Rattle.ts_command.specs.Faults.{Matches, MatchesOrMemory};
ghost use Rattle.ts_command.specs.Forms.{signed_by};
ghost use Rattle.ts_command.specs.Reading.{command_of};

use crate::command::Command;
use crate::fault::{ReadFault, WordFault};
use crate::given::Given;
use crate::option_word::OptionSet;
use crate::options::read_given;
use crate::words::{at_word, end_word, value_word};
use ts_resp::Word;
use ts_sample::Units;
use ts_spec::At;

// Whether a command adds to the last value or subtracts from it.
#[derive(Clone, Copy)]
pub(crate) enum Sign {
    Plus,
    Minus,
}

impl Sign {
    pub(crate) fn of(self, value: Units) -> Units
        ensures { result ≡ signed_by self value }
    {
        match self {
            Sign::Plus => value,
            Sign::Minus => value.negated(),
        }
    }
}

pub(crate) fn read_create(mut words: Vec<Word>) -> Result<Command, ReadFault>
    ensures command { MatchesOrMemory (IsTrue (has_labels (drop 1 (drop 1 words.items)))) command_of result
        (create (drop 1 words.items)) }
    ensures time { IfOk result HasTime }
{
    if words.len() != 2 {
        return create_with_options(words);
    }
    let alloc = *words.allocator();
    Ok(Command::Create {
        key: words.swap_remove(1),
        spec: Given::default_spec(alloc),
    })
}

pub(crate) fn read_add(mut words: Vec<Word>) -> Result<Command, ReadFault>
    ensures command { MatchesOrMemory (IsTrue (has_labels (drop 3 (drop 1 words.items)))) command_of result
        (add (drop 1 words.items)) }
    ensures time { IfOk result HasTime }
{
    if words.len() != 4 {
        return add_with_options(words);
    }
    let alloc = *words.allocator();
    let at = at_word(words[2].bytes())?;
    let value = value_word(words[3].bytes())?;
    Ok(Command::Add {
        key: words.swap_remove(1),
        at,
        value,
        on: None,
        spec: Given::default_spec(alloc),
    })
}

pub(crate) fn read_incr(sign: Sign, mut words: Vec<Word>) -> Result<Command, ReadFault>
    ensures command { MatchesOrMemory (IsTrue (has_labels (drop 2 (drop 1 words.items)))) command_of result
        (incr (signed_by sign) (drop 1 words.items)) }
    ensures time { IfOk result HasTime }
{
    if words.len() != 3 {
        return incr_with_options(sign, words);
    }
    let alloc = *words.allocator();
    let value = value_word(words[2].bytes())?;
    Ok(Command::Incr {
        key: words.swap_remove(1),
        change: sign.of(value),
        at: At::Clock,
        spec: Given::default_spec(alloc),
    })
}

pub(crate) fn read_del_range(mut words: Vec<Word>) -> Result<Command, WordFault>
    ensures command { Matches command_of result (del_range (drop 1 words.items)) }
    ensures time { IfOk result HasTime }
{
    let [_, _, from, to, ..] = words.as_slice() else {
        return Err(WordFault::Arity);
    };
    let from = end_word(from.bytes())?;
    let to = end_word(to.bytes())?;
    Ok(Command::DelRange {
        key: words.swap_remove(1),
        from,
        to,
    })
}

#[inline(never)]
pub(crate) fn create_with_options(mut words: Vec<Word>) -> Result<Command, ReadFault>
    ensures command { MatchesOrMemory (IsTrue (has_labels (drop 1 (drop 1 words.items)))) command_of result
        (create (drop 1 words.items)) }
    ensures time { IfOk result HasTime }
{
    let alloc = *words.allocator();
    let [_, _, options @ ..] = words.as_slice() else {
        return Err(ReadFault::Word(WordFault::Arity));
    };
    let given = read_given(alloc, OptionSet::Create, options)?;
    Ok(Command::Create {
        key: words.swap_remove(1),
        spec: given.spec(alloc),
    })
}

pub(crate) fn read_alter(mut words: Vec<Word>) -> Result<Command, ReadFault>
    ensures command { MatchesOrMemory (IsTrue (has_labels (drop 1 (drop 1 words.items)))) command_of result
        (alter (drop 1 words.items)) }
    ensures time { IfOk result HasTime }
{
    let alloc = *words.allocator();
    let [_, _, options @ ..] = words.as_slice() else {
        return Err(ReadFault::Word(WordFault::Arity));
    };
    let given = read_given(alloc, OptionSet::Alter, options)?;
    Ok(Command::Alter {
        key: words.swap_remove(1),
        change: given.change(),
    })
}

#[inline(never)]
pub(crate) fn add_with_options(mut words: Vec<Word>) -> Result<Command, ReadFault>
    ensures command { MatchesOrMemory (IsTrue (has_labels (drop 3 (drop 1 words.items)))) command_of result
        (add (drop 1 words.items)) }
    ensures time { IfOk result HasTime }
{
    let alloc = *words.allocator();
    let [_, _, time, value, options @ ..] = words.as_slice() else {
        return Err(ReadFault::Word(WordFault::Arity));
    };
    let at = at_word(time.bytes())?;
    let value = value_word(value.bytes())?;
    let given = read_given(alloc, OptionSet::Add, options)?;
    Ok(Command::Add {
        key: words.swap_remove(1),
        at,
        value,
        on: given.on,
        spec: given.spec(alloc),
    })
}

#[inline(never)]
pub(crate) fn incr_with_options(sign: Sign, mut words: Vec<Word>) -> Result<Command, ReadFault>
    ensures command { MatchesOrMemory (IsTrue (has_labels (drop 2 (drop 1 words.items)))) command_of result
        (incr (signed_by sign) (drop 1 words.items)) }
    ensures time { IfOk result HasTime }
{
    let alloc = *words.allocator();
    let [_, _, value, options @ ..] = words.as_slice() else {
        return Err(ReadFault::Word(WordFault::Arity));
    };
    let value = value_word(value.bytes())?;
    let given = read_given(alloc, OptionSet::Incr, options)?;
    Ok(Command::Incr {
        key: words.swap_remove(1),
        change: sign.of(value),
        at: given.at.unwrap_or(At::Clock),
        spec: given.spec(alloc),
    })
}

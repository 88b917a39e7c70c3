// Queries: commands that read series. Each function gets the whole request, its name included, and parses it in place.
ghost use Rattle.std.specs.Prelude.{⊤, ◌∷◌, drop, IfOk, IsTrue};
ghost use Rattle.ts_spec.specs.Grammar.{range, many_ranges, last_of_many, query_index};
ghost use Rattle.ts_spec.specs.Ranges.{has_list};
ghost use Rattle.ts_spec.specs.ManySeries.{selecting};
ghost use Rattle.ts_command.specs.Answers.{HasTime};
ghost use Rattle.ts_command.specs.Faults.{Matches, MatchesOrMemory};
ghost use Rattle.ts_command.specs.Reading.{command_of};

use crate::command::Command;
use crate::fault::{ReadFault, WordFault};
use crate::list_arguments::{read_filters, split_arguments};
use crate::option_word::OptionSet;
use crate::options::read_given;
use crate::words::end_word;
use std::alloc::Global;
use ts_labels::{Filter, Show, has_positive};
use ts_resp::Word;

// The filters, if at least one of them requires a value.
fn selection(filters: Vec<Filter>) -> Result<Vec<Filter>, WordFault>
    ensures { Matches (λ filters. filters.items) result (selecting filters.items) }
{
    if has_positive(&filters) {
        Ok(filters)
    } else {
        Err(WordFault::NoPositiveFilter)
    }
}

pub(crate) fn read_range(reverse: bool, mut words: Vec<Word>) -> Result<Command, ReadFault>
    ensures command { MatchesOrMemory (IsTrue (has_list (drop 3 (drop 1 words.items)))) command_of result
        (range reverse (drop 1 words.items)) }
    ensures time { IfOk result HasTime }
{
    let alloc = *words.allocator();
    let [_, _, from, to, options @ ..] = words.as_slice() else {
        return Err(ReadFault::Word(WordFault::Arity));
    };
    let first = end_word(from.bytes())?;
    let last = end_word(to.bytes())?;
    let given = read_given(alloc, OptionSet::Range, options)?;
    let latest = given.latest;
    let query = given
        .range
        .query(reverse, from.bytes(), to.bytes(), first, last)?;
    Ok(Command::Range {
        key: words.swap_remove(1),
        latest,
        query,
    })
}

// Parses the interval and the options after it.
fn read_multi_options(
    alloc: Global,
    reverse: bool,
    from: &[u8],
    to: &[u8],
    options: &[Word],
) -> Result<Command, ReadFault>
    ensures command { MatchesOrMemory ⊤ command_of result (many_ranges reverse (from.now ∷ to.now ∷ options.now)) }
    ensures time { IfOk result HasTime }
{
    let first = end_word(from)?;
    let last = end_word(to)?;
    let mut given = read_given(alloc, OptionSet::ManyRanges, options)?;
    let filters = given.filters.take().ok_or(WordFault::BadOption)?;
    let query = given.range.query(reverse, from, to, first, last)?;
    let filters = selection(filters)?;
    Ok(Command::MRange {
        latest: given.latest,
        show: given.show.take().unwrap_or(Show::Nothing),
        filters,
        query,
        group: given.group.take(),
    })
}

// Parses the whole request, its name included.
pub(crate) fn read_many_ranges(reverse: bool, words: &Vec<Word>) -> Result<Command, ReadFault>
    ensures command { MatchesOrMemory ⊤ command_of result (many_ranges reverse (drop 1 words.now.items)) }
    ensures time { IfOk result HasTime }
{
    let alloc = *words.allocator();
    let [_, from, to, options @ ..] = words.as_slice() else {
        return Err(ReadFault::Word(WordFault::Arity));
    };
    read_multi_options(alloc, reverse, from.bytes(), to.bytes(), options)
}

pub(crate) fn read_last_of_many(words: &Vec<Word>) -> Result<Command, ReadFault>
    ensures command { MatchesOrMemory ⊤ command_of result (last_of_many (drop 1 words.now.items)) }
    ensures time { IfOk result HasTime }
{
    let alloc = *words.allocator();
    let (_name, options) = split_arguments(1, words);
    let mut given = read_given(alloc, OptionSet::ManyLast, options)?;
    let filters = selection(given.filters.take().ok_or(WordFault::BadOption)?)?;
    Ok(Command::MGet {
        latest: given.latest,
        show: given.show.take().unwrap_or(Show::Nothing),
        filters,
    })
}

pub(crate) fn read_query_index(words: &Vec<Word>) -> Result<Command, ReadFault>
    ensures command { MatchesOrMemory ⊤ command_of result (query_index (drop 1 words.now.items)) }
    ensures time { IfOk result HasTime }
{
    let alloc = *words.allocator();
    let (_name, texts) = split_arguments(1, words);
    let filters = read_filters(alloc, texts)?;
    Ok(Command::QueryIndex {
        filters: selection(filters)?,
    })
}

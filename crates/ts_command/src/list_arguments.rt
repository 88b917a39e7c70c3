// The arguments of one option: splitting them off, and parsing lists of times, labels and filters.
ghost use Rattle.std.specs.Prelude.{◌≡◌, ◌≢◌, [], ◌∷◌, take, drop, IfOk, IfErr, ◌≤◌, ⊤, All};
ghost use Rattle.ts_spec.specs.Sample.{MAX_TIME};
ghost use Rattle.ts_spec.specs.Ranges.{times_of};
ghost use Rattle.ts_spec.specs.ManySeries.{filter_word, filters_of, names_of};
ghost use Rattle.ts_command.specs.declared.fault.WordFault.TheVariants.{BadOption};
ghost use Rattle.ts_command.specs.Faults.{MatchesOrMemory};

use crate::fault::{ReadFault, WordFault};
use crate::words::time_word;
use std::alloc::{AllocError, Global};
use ts_labels::{Filter, FilterFault};
use ts_resp::Word;

// Splits off the arguments of an option from the words after it. There may be fewer words than arguments.
pub(crate) fn split_arguments(size: usize, words: &[Word]) -> (&[Word], &[Word])
    ensures own { result.0.now ≡ take size words.now }
    ensures rest { result.1.now ≡ drop size words.now }
{
    if size > words.len() {
        return (words, &[]);
    }
    (&words[..size], &words[size..])
}

// The only argument of an option.
pub(crate) fn single_argument(own: &[Word]) -> Result<&[u8], WordFault>
    ensures ok { IfOk result (λ word. own.now ≡ word.now ∷ drop 1 own.now) }
    ensures fault { IfErr result (λ fault. (fault ≡ BadOption) × (own.now ≡ [])) }
{
    let [word, ..] = own else {
        return Err(WordFault::BadOption);
    };
    Ok(word.bytes())
}

// The arguments of an option with a list, which must not be empty.
pub(crate) fn list_arguments(own: &[Word]) -> Result<&[Word], WordFault>
    ensures ok { IfOk result (λ words. (words.now ≡ own.now) × (own.now ≢ [])) }
    ensures fault { IfErr result (λ fault. (fault ≡ BadOption) × (own.now ≡ [])) }
{
    if own.is_empty() {
        Err(WordFault::BadOption)
    } else {
        Ok(own)
    }
}

// Parses times.
pub(crate) fn read_times(alloc: Global, words: &[Word]) -> Result<Vec<u64>, ReadFault>
    ensures times { MatchesOrMemory ⊤ (λ times. times.items) result (times_of words.now) }
    ensures bound { IfOk result (λ times. All (λ t. t ≤ MAX_TIME) times.items) }
{
    let mut times = Vec::with_capacity(alloc, words.len())?;
    for word in words {
        times.push_reserved(time_word(word.bytes())?);
    }
    Ok(times)
}

// Parses names of labels.
pub(crate) fn read_names(alloc: Global, words: &[Word]) -> Result<Vec<Word>, ReadFault>
    ensures { MatchesOrMemory ⊤ (λ names. names.items) result (names_of words.now) }
{
    let mut names = Vec::with_capacity(alloc, words.len())?;
    for word in words {
        if word.bytes().is_empty() {
            return Err(ReadFault::Word(WordFault::BadLabels));
        }
        names.push_reserved(word.copy()?);
    }
    Ok(names)
}

// Parses a filter.
#[tactic(auto, unfolding(ts_spec::specs::ManySeries::filter_word))]
fn filter_word(alloc: Global, word: &Word) -> Result<Filter, ReadFault>
    ensures { MatchesOrMemory ⊤ (λ filter. filter) result (filter_word word.now) }
{
    match Filter::read(alloc, word) {
        Ok(filter) => Ok(filter),
        Err(FilterFault::Memory(error)) => Err(ReadFault::Memory(error)),
        Err(_) => Err(ReadFault::Word(WordFault::BadFilter)),
    }
}

// Parses filters.
pub(crate) fn read_filters(alloc: Global, words: &[Word]) -> Result<Vec<Filter>, ReadFault>
    ensures { MatchesOrMemory ⊤ (λ filters. filters.items) result (filters_of words.now) }
{
    let mut filters = Vec::with_capacity(alloc, words.len())?;
    for word in words {
        filters.push_reserved(filter_word(alloc, word)?);
    }
    Ok(filters)
}

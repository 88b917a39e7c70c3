// Parses the options of a series: LABELS, pairs of a label and its value, and IGNORE.
ghost use Rattle.std.specs.Prelude.{◌≡◌, ⊤, [], ◌∷◌, OnOk, ◌≤◌, IfOk};
ghost use Rattle.ts_spec.specs.Labels.{with_label};
ghost use Rattle.ts_spec.specs.Settings.{is_known};
ghost use Rattle.ts_spec.specs.SeriesOptions.{labels_after, count_pairs, ignore, ignore_time_word, ignore_value_word};
ghost use Rattle.ts_spec.specs.SeriesOptions.{from_zero};
ghost use Rattle.ts_spec.specs.Sample.{MAX_TIME};
ghost use Rattle.ts_labels.specs.Labels.{labelled};
ghost use Rattle.ts_command.specs.Faults.{MatchesOrMemory, Matches, MatchesSame};
ghost use Rattle.ts_command.specs.Options.{table_of};
ghost use Rattle.ts_command.specs.Given.{given_of};

use crate::fault::{ReadFault, WordFault};
use crate::given::Given;
use crate::list_arguments::split_arguments;
use crate::option_word::OptionSet;
use crate::words::{parse_number, value_word};
use std::alloc::{AllocError, Global};
use ts_labels::Labels;
use ts_resp::Word;
use ts_sample::Units;
use ts_spec::Ignore;

// The number of words before the next option. Only words in the position of a label can end the list.
pub(crate) fn count_pairs(set: OptionSet, words: &[Word]) -> usize
    ensures { result ≡ count_pairs (is_known (table_of set)) words.now }
{
    let mut rest = words;
    while let Some((name, after)) = rest.split_first() {
        if set.named(name.bytes()).is_some() {
            return words.len() - rest.len();
        }
        let (_value, next) = split_arguments(1, after);
        rest = next;
    }
    words.len()
}

// Parses pairs of a label and its value.
pub(crate) fn read_labels(alloc: Global, words: &[Word]) -> Result<Labels, ReadFault>
    ensures { MatchesOrMemory ⊤ (λ labels. labels) result (labels_after [] words.now) }
{
    let mut labels = Labels::with_capacity(alloc, words.len() / 2)?;
    let mut rest = words;
    while let Some((name, after)) = rest.split_first() {
        let Some((value, next)) = after.split_first() else {
            return Err(ReadFault::Word(WordFault::BadLabels));
        };
        add_label(&mut labels, name, value)?;
        rest = next;
    }
    Ok(labels)
}

// Sets a label. Fails if the label or its value is empty.
fn add_label(labels: &mut Labels, name: &Word, value: &Word) -> Result<(), ReadFault>
    ensures { MatchesOrMemory ⊤ (λ done. labels.new) result (labels_after labels.old (name.now ∷ value.now ∷ [])) }
{
    if name.bytes().is_empty() || value.bytes().is_empty() {
        return Err(ReadFault::Word(WordFault::BadLabels));
    }
    Ok(set_copies(labels, name, value)?)
}

// Sets a label to copies of these words.
fn set_copies(labels: &mut Labels, name: &Word, value: &Word) -> Result<(), AllocError>
    ensures { OnOk result (labels.new ≡ with_label (labelled name.now value.now) labels.old) }
{
    labels.set(name.copy()?, value.copy()?)
}

// Parses the greatest time difference, in milliseconds, and the greatest value difference at which a series ignores a
// sample.
pub(crate) fn add_ignore(own: &[Word], given: &mut Given) -> Result<(), WordFault>
    ensures { Matches (λ done. given_of given.new) result (ignore.says own.now (given_of given.old)) }
{
    let [time, value, ..] = own else {
        return Err(WordFault::BadOption);
    };
    let time = ignore_time_word(time.bytes())?;
    let value = ignore_value_word(value.bytes())?;
    given.ignore = Some(Ignore { time, value });
    Ok(())
}

#[tactic(auto, unfolding(ts_spec::specs::SeriesOptions::ignore_time_word))]
fn ignore_time_word(word: &[u8]) -> Result<u64, WordFault>
    ensures answer { MatchesSame result (ignore_time_word word.now) }
    ensures bound { IfOk result (λ n. n ≤ MAX_TIME) }
{
    parse_number(word).ok_or(WordFault::BadOption)
}

#[tactic(auto, unfolding(ts_spec::specs::SeriesOptions::ignore_value_word))]
fn ignore_value_word(word: &[u8]) -> Result<Units, WordFault>
    ensures { MatchesSame result (ignore_value_word word.now) }
{
    from_zero(value_word(word)?)
}

// The value, unless it is below 0.
fn from_zero(value: Units) -> Result<Units, WordFault>
    ensures { MatchesSame result (from_zero value) }
{
    if value < Units::ZERO {
        return Err(WordFault::BadOption);
    }
    Ok(value)
}

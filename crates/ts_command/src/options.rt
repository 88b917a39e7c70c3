// Parses the options of a command, in any order.
ghost use Rattle.std.specs.Prelude.{◌≡◌, IfOk, IsTrue};
ghost use Rattle.ts_spec.specs.Names.{named};
ghost use Rattle.ts_spec.specs.Settings.{nothing, new_setting, options, count_own, is_known};
ghost use Rattle.ts_command.specs.Faults.{Matches, MatchesOrMemory};
ghost use Rattle.ts_command.specs.Given.{given_of};
ghost use Rattle.ts_command.specs.Options.{setting_of, table_of, is_list, list_option, is_list_option, may_have_list};

use crate::fault::{ReadFault, WordFault};
use crate::given::Given;
use crate::list_arguments::{
    list_arguments, read_filters, read_names, read_times, single_argument, split_arguments,
};
use crate::option_word::{OptionSet, OptionWord};
use crate::range_options::{add_aggregation, add_align, add_group, add_stamp, add_values};
use crate::series_options::{add_ignore, count_pairs, read_labels};
use crate::words::{
    at_word, chunk_size_word, count_word, encoding_word, policy_word, retention_word,
};
use std::alloc::Global;
use ts_labels::Show;
use ts_resp::Word;

impl OptionWord {
    // Whether the option already has a value.
    fn is_given(self, given: &Given) -> bool
        ensures { result ≡ (setting_of self).stood (given_of given.now) }
    {
        match self {
            OptionWord::Retention => given.retention.is_some(),
            OptionWord::Encoding => given.encoding.is_some(),
            OptionWord::ChunkSize => given.chunk_size.is_some(),
            OptionWord::DuplicatePolicy => given.policy.is_some(),
            OptionWord::Ignore => given.ignore.is_some(),
            OptionWord::OnDuplicate => given.on.is_some(),
            OptionWord::Timestamp => given.at.is_some(),
            OptionWord::Labels => given.labels.is_some(),
            OptionWord::Latest => given.latest,
            OptionWord::FilterByTs => given.range.times.is_some(),
            OptionWord::FilterByValue => given.range.values.is_some(),
            OptionWord::Count => given.range.count.is_some(),
            OptionWord::Aggregation => given.range.aggregation.is_some(),
            OptionWord::Align => given.range.align.is_some(),
            OptionWord::BucketTimestamp => given.range.stamp.is_some(),
            OptionWord::Empty => given.range.empty,
            OptionWord::WithLabels | OptionWord::SelectedLabels => given.show.is_some(),
            OptionWord::Filter => given.filters.is_some(),
            OptionWord::GroupBy => given.group.is_some(),
        }
    }

    // The number of arguments of the option among the words after it.
    fn size(self, set: OptionSet, words: &[Word]) -> usize
        ensures { result ≡ (setting_of self).size (is_known (table_of set)) words.now }
    {
        match self {
            OptionWord::Labels => count_pairs(set, words),
            OptionWord::FilterByTs | OptionWord::SelectedLabels | OptionWord::Filter => {
                count_own(set, words)
            }
            OptionWord::Ignore | OptionWord::FilterByValue | OptionWord::Aggregation => 2,
            OptionWord::Latest | OptionWord::Empty | OptionWord::WithLabels => 0,
            OptionWord::GroupBy => 3,
            _ => 1,
        }
    }
}

// The number of words before the next option.
fn count_own(set: OptionSet, words: &[Word]) -> usize
    ensures { result ≡ count_own (is_known (table_of set)) words.now }
{
    for (index, word) in words.iter().enumerate() {
        if set.named(word.bytes()).is_some() {
            return index;
        }
    }
    words.len()
}

// The option that a word names. Fails if it already has a value.
fn new_option(set: OptionSet, word: &[u8], given: &Given) -> Result<OptionWord, WordFault>
    ensures option { Matches setting_of result (new_setting (given_of given.now) (named (table_of set) word.now)) }
    ensures list { IfOk result (λ option. IsTrue (is_list option)
        → IsTrue (is_list_option (list_option set) word.now)) }
{
    match set.named(word) {
        None => Err(WordFault::BadOption),
        Some(option) if option.is_given(given) => Err(WordFault::RepeatedOption),
        Some(option) => Ok(option),
    }
}

// Parses the arguments of an option.
fn add_own(
    alloc: Global,
    option: OptionWord,
    own: &[Word],
    given: &mut Given,
) -> Result<(), ReadFault>
    ensures { MatchesOrMemory (IsTrue (is_list option)) (λ done. given_of given.new) result
        ((setting_of option).says own.now (given_of given.old)) }
{
    match option {
        OptionWord::Retention => given.retention = Some(retention_word(single_argument(own)?)?),
        OptionWord::Encoding => given.encoding = Some(encoding_word(single_argument(own)?)?),
        OptionWord::ChunkSize => given.chunk_size = Some(chunk_size_word(single_argument(own)?)?),
        OptionWord::DuplicatePolicy => given.policy = Some(policy_word(single_argument(own)?)?),
        OptionWord::Ignore => add_ignore(own, given)?,
        OptionWord::OnDuplicate => given.on = Some(policy_word(single_argument(own)?)?),
        OptionWord::Timestamp => given.at = Some(at_word(single_argument(own)?)?),
        OptionWord::Labels => given.labels = Some(read_labels(alloc, own)?),
        OptionWord::Latest => given.latest = true,
        OptionWord::FilterByTs => given.range.times = Some(read_times(
            alloc,
            list_arguments(own)?,
        )?),
        OptionWord::FilterByValue => add_values(own, given)?,
        OptionWord::Count => given.range.count = Some(count_word(single_argument(own)?)?),
        OptionWord::Aggregation => add_aggregation(own, given)?,
        OptionWord::Align => add_align(own, given)?,
        OptionWord::BucketTimestamp => add_stamp(own, given)?,
        OptionWord::Empty => given.range.empty = true,
        OptionWord::WithLabels => given.show = Some(Show::All),
        OptionWord::SelectedLabels => {
            given.show = Some(Show::Selected(read_names(alloc, list_arguments(own)?)?));
        }
        OptionWord::Filter => given.filters = Some(read_filters(alloc, list_arguments(own)?)?),
        OptionWord::GroupBy => add_group(own, given)?,
    }
    Ok(())
}

// Parses all words as options with their arguments.
fn read_options(
    alloc: Global,
    set: OptionSet,
    words: &[Word],
    given: &mut Given,
) -> Result<(), ReadFault>
    ensures { MatchesOrMemory (IsTrue (may_have_list (list_option set) words.now)) (λ done. given_of given.new) result
        (options (table_of set) (given_of given.old) 0 words.now) }
{
    let mut rest = words;
    while let Some((name, after)) = rest.split_first() {
        let option = new_option(set, name.bytes(), given)?;
        let (own, next) = split_arguments(option.size(set, after), after);
        add_own(alloc, option, own, given)?;
        rest = next;
    }
    Ok(())
}

// The values of options that these words give.
pub(crate) fn read_given(alloc: Global, set: OptionSet, words: &[Word]) -> Result<Given, ReadFault>
    ensures { MatchesOrMemory (IsTrue (may_have_list (list_option set) words.now)) given_of result
        (options (table_of set) nothing 0 words.now) }
{
    let mut given = Given::nothing();
    match read_options(alloc, set, words, &mut given) {
        Ok(()) => Ok(given),
        Err(fault) => Err(fault),
    }
}

// Parses the options of a range query, GROUPBY included.
ghost use Rattle.std.specs.Prelude.{⊤};
ghost use Rattle.ts_spec.specs.Ranges.{filter_by_value, aggregation, align, bucket_timestamp};
ghost use Rattle.ts_spec.specs.ManySeries.{label_word, reducer_word, group_by};
ghost use Rattle.ts_command.specs.Faults.{Matches, MatchesOrMemory, MatchesSame};
ghost use Rattle.ts_command.specs.Given.{given_of};

use crate::fault::{ReadFault, WordFault};
use crate::given::Given;
use crate::list_arguments::single_argument;
use crate::words::{aggregator_word, align_word, duration_word, stamp_word, value_word};
use ts_agg::{AggFault, is_name, read_reducer};
use ts_resp::Word;
use ts_spec::{Aggregation, Reducer};

pub(crate) fn add_values(own: &[Word], given: &mut Given) -> Result<(), WordFault>
    ensures { Matches (λ done. given_of given.new) result (filter_by_value.says own.now (given_of given.old)) }
{
    let [least, greatest, ..] = own else {
        return Err(WordFault::BadOption);
    };
    let least = value_word(least.bytes())?;
    let greatest = value_word(greatest.bytes())?;
    given.range.values = Some((least, greatest));
    Ok(())
}

pub(crate) fn add_aggregation(own: &[Word], given: &mut Given) -> Result<(), WordFault>
    ensures { Matches (λ done. given_of given.new) result (aggregation.says own.now (given_of given.old)) }
{
    let [name, duration, ..] = own else {
        return Err(WordFault::BadOption);
    };
    let agg = aggregator_word(name.bytes())?;
    let duration = duration_word(duration.bytes())?;
    given.range.aggregation = Some(Aggregation { agg, duration });
    Ok(())
}

pub(crate) fn add_align(own: &[Word], given: &mut Given) -> Result<(), WordFault>
    ensures { Matches (λ done. given_of given.new) result (align.says own.now (given_of given.old)) }
{
    given.range.align = Some(align_word(single_argument(own)?)?);
    Ok(())
}

pub(crate) fn add_stamp(own: &[Word], given: &mut Given) -> Result<(), WordFault>
    ensures { Matches (λ done. given_of given.new) result (bucket_timestamp.says own.now (given_of given.old)) }
{
    given.range.stamp = Some(stamp_word(single_argument(own)?)?);
    Ok(())
}

/// GROUPBY: one group for each value of a label, over the series that have the label.
#[derive(Debug, Drop)]
pub struct GroupBy {
    /// Not empty.
    pub label: Word,
    /// How the values of the series at one time are reduced to one.
    pub reducer: Reducer,
}

// Parses `label REDUCE reducer`.
pub(crate) fn add_group(own: &[Word], given: &mut Given) -> Result<(), ReadFault>
    ensures { MatchesOrMemory ⊤ (λ done. given_of given.new) result (group_by.says own.now (given_of given.old)) }
{
    let [label, reduce, reducer, ..] = own else {
        return Err(ReadFault::Word(WordFault::BadOption));
    };
    let label = label_word(label)?;
    if !is_name(b"REDUCE", reduce.bytes()) {
        return Err(ReadFault::Word(WordFault::BadOption));
    }
    let reducer = reducer_word(reducer.bytes())?;
    given.group = Some(GroupBy {
        label: label.copy()?,
        reducer,
    });
    Ok(())
}

#[tactic(auto, unfolding(ts_spec::specs::ManySeries::label_word))]
fn label_word(word: &Word) -> Result<&Word, WordFault>
    ensures { Matches (λ label. label.now) result (label_word word.now) }
{
    if word.bytes().is_empty() {
        return Err(WordFault::BadLabels);
    }
    Ok(word)
}

#[tactic(auto, unfolding(ts_spec::specs::ManySeries::reducer_word))]
fn reducer_word(word: &[u8]) -> Result<Reducer, WordFault>
    ensures { MatchesSame result (reducer_word word.now) }
{
    match read_reducer(word) {
        Ok(reducer) => Ok(reducer),
        Err(AggFault::Unknown) => Err(WordFault::UnknownAggregator),
        Err(AggFault::NotInProfile) => Err(WordFault::AggregatorNotInProfile),
    }
}

// Parses filters: `label=value`, `label!=value`, `label=(a,b)` and the like.
ghost use Rattle.std.specs.Prelude.{◌≡◌, ⊤, [], ◌∷◌, ◌++◌, Some, Ok, option_map, IfOk, IfErr, OnOk};
ghost use Rattle.std.specs.Option.{option_copied};
ghost use Rattle.ts_spec.specs.FilterText.{filter_of, of_label, values_of, cut_at, before_last, comma, pieces};
ghost use Rattle.ts_spec.specs.FilterText.{has_empty};
ghost use Rattle.ts_labels.specs.FaultNames.{name_of};
ghost use Rattle.ts_labels.specs.Faults.{IsFaultOf, IsMemory, list_values};

use crate::filter::Filter;
use crate::values::Values;
use std::alloc::{AllocError, Global};
use std::fmt;
use thiserror::Error;
use ts_resp::Word;

/// Why a text is not a valid filter.
#[derive(Clone, Copy, PartialEq, Eq, Error)]
pub enum FilterFault {
    /// The text contains no `=`.
    #[error("a filter without `=`")]
    NoOperator,
    /// There is no label before `=` or `!=`.
    #[error("a filter without a label")]
    EmptyLabel,
    /// The list contains an empty value.
    #[error("an empty value in the list of a filter")]
    EmptyList,
    /// Out of memory.
    #[error(transparent)]
    Memory(AllocError),
}

impl fmt::Debug for FilterFault {
    ghost debug_output = { λ fault. Some (name_of fault) };

    fn fmt<W: fmt::Write>(&self, f: &mut fmt::Formatter<W>) -> fmt::Result {
        f.write_str(match self {
            FilterFault::NoOperator => "NoOperator",
            FilterFault::EmptyLabel => "EmptyLabel",
            FilterFault::EmptyList => "EmptyList",
            FilterFault::Memory(_) => "Memory(AllocError)",
        })
    }
}

impl Filter {
    /// Parses a filter.
    #[tactic(auto, unfolding(ts_spec::specs::FilterText::filter_of))]
    pub fn read(alloc: Global, text: &Word) -> Result<Filter, FilterFault>
        ensures ok { IfOk result (λ filter. filter_of text.now ≡ Ok filter) }
        ensures fault { IfErr result (λ fault. IsFaultOf fault (filter_of text.now)) }
    {
        let Some((front, value)) = cut_at(b'=', text.bytes()) else {
            return Err(FilterFault::NoOperator);
        };
        match before_last(b'!', front) {
            None => of_label(alloc, true, front, value),
            Some(label) => of_label(alloc, false, label, value),
        }
    }
}

// Builds the filter, unless the label is empty.
fn of_label(
    alloc: Global,
    positive: bool,
    label: &[u8],
    value: &[u8],
) -> Result<Filter, FilterFault>
    ensures ok { IfOk result (λ filter. of_label positive label.now value.now ≡ Ok filter) }
    ensures fault { IfErr result (λ fault. IsFaultOf fault (of_label positive label.now value.now)) }
{
    if label.is_empty() {
        return Err(FilterFault::EmptyLabel);
    }
    let values = sorted(alloc, values_of(alloc, value)?)?;
    Ok(Filter::by(positive, word(alloc, label)?, values))
}

// The values, to be searched.
fn sorted(alloc: Global, values: Vec<Word>) -> Result<Values, FilterFault>
    ensures ok { IfOk result (λ sorted. sorted ≡ values.items) }
    ensures fault { IfErr result IsMemory }
{
    match Values::new(alloc, values) {
        Ok(sorted) => Ok(sorted),
        Err(error) => Err(FilterFault::Memory(error)),
    }
}

// The values after the operator: none, one, or a list in parentheses.
fn values_of(alloc: Global, text: &[u8]) -> Result<Vec<Word>, FilterFault>
    ensures ok { IfOk result (λ values. values_of text.now ≡ Ok values.items) }
    ensures fault { IfErr result (λ fault. IsFaultOf fault (values_of text.now)) }
{
    let Some((first, rest)) = text.split_first() else {
        return Ok(Vec::new(alloc));
    };
    if *first == b'(' {
        if let Some(inner) = before_last(b')', rest) {
            return list_values(alloc, inner);
        }
    }
    one_value(alloc, text)
}

// The whole text as one value.
fn one_value(alloc: Global, text: &[u8]) -> Result<Vec<Word>, FilterFault>
    ensures ok { IfOk result (λ values. values.items ≡ text.now ∷ []) }
    ensures fault { IfErr result IsMemory }
{
    let mut values = Vec::new(alloc);
    add(&mut values, word(alloc, text)?)?;
    Ok(values)
}

// The values of a list, split at commas. An empty value is an error.
fn list_values(alloc: Global, list: &[u8]) -> Result<Vec<Word>, FilterFault>
    ensures ok { IfOk result (λ values. list_values list.now ≡ Ok values.items) }
    ensures fault { IfErr result (λ fault. IsFaultOf fault (list_values list.now)) }
{
    if has_empty_piece(list) {
        return Err(FilterFault::EmptyList);
    }
    pieces_of(alloc, list)
}

// Whether a piece between commas is empty.
fn has_empty_piece(list: &[u8]) -> bool
    ensures { result ≡ has_empty (pieces comma list.now) }
{
    let mut rest = list;
    while let Some((piece, after)) = cut_at(b',', rest) {
        if piece.is_empty() {
            return true;
        }
        rest = after;
    }
    rest.is_empty()
}

// The pieces between commas.
fn pieces_of(alloc: Global, list: &[u8]) -> Result<Vec<Word>, FilterFault>
    ensures ok { IfOk result (λ values. values.items ≡ pieces comma list.now) }
    ensures fault { IfErr result IsMemory }
{
    let mut values = Vec::new(alloc);
    let mut rest = list;
    while let Some((piece, after)) = cut_at(b',', rest) {
        add(&mut values, word(alloc, piece)?)?;
        rest = after;
    }
    add(&mut values, word(alloc, rest)?)?;
    Ok(values)
}

fn add(values: &mut Vec<Word>, value: Word) -> Result<(), FilterFault>
    ensures ok { OnOk result (values.new.items ≡ values.old.items ++ value ∷ []) }
    ensures fault { IfErr result IsMemory }
{
    match values.push(value) {
        Ok(()) => Ok(()),
        Err(_) => Err(FilterFault::Memory(AllocError)),
    }
}

fn word(alloc: Global, bytes: &[u8]) -> Result<Word, FilterFault>
    ensures ok { IfOk result (λ word. word ≡ bytes.now) }
    ensures fault { IfErr result IsMemory }
{
    match Word::from_slice(alloc, bytes) {
        Ok(word) => Ok(word),
        Err(error) => Err(FilterFault::Memory(error)),
    }
}

// The bytes before and after the first occurrence of `byte`.
fn cut_at(byte: u8, bytes: &[u8]) -> Option<(&[u8], &[u8])>
    ensures { option_map (λ parts. (parts.0.now, parts.1.now)) result ≡ cut_at byte bytes.now }
{
    for (index, b) in bytes.iter().enumerate() {
        if *b == byte {
            return Some((&bytes[..index], &bytes[index + 1..]));
        }
    }
    None
}

// The bytes before the last one, if the last one is `byte`.
fn before_last(byte: u8, bytes: &[u8]) -> Option<&[u8]>
    ensures { option_copied result ≡ before_last byte bytes.now }
{
    let (last, front) = bytes.split_last()?;
    if *last == byte { Some(front) } else { None }
}

// Parses single words of a command.
ghost use Rattle.std.specs.Prelude.{◌≡◌, ◌≤◌, IfSome, IfOk};
ghost use Rattle.ts_spec.specs.Number.{number};
ghost use Rattle.ts_spec.specs.Sample.{MAX_TIME};
ghost use Rattle.ts_spec.specs.Settings.{IsTime, time_word, end_word, at_word, value_word};
ghost use Rattle.ts_spec.specs.SeriesOptions.{IsChunkSize, retention_word, chunk_size_word, policy_word, encoding_word};
ghost use Rattle.ts_spec.specs.Ranges.{count_word, IsDuration, IsAlign, aggregator_word, duration_word, align_word};
ghost use Rattle.ts_spec.specs.Ranges.{stamp_word};
ghost use Rattle.ts_command.specs.Faults.{MatchesSame};

use crate::fault::WordFault;
use crate::names::{align_named, encoding_named, policy_named, stamp_named};
use ts_agg::{AggFault, Aggregator, read_aggregator};
use ts_bucket::{LONGEST, Stamp};
use ts_decimal::parse;
use ts_sample::{MAX_TIME, Units};
use ts_spec::{Align, At, Encoding, Policy};

// Parses a number of 1 to 19 digits, at most `MAX_TIME`.
pub(crate) fn parse_number(word: &[u8]) -> Option<u64>
    ensures value { result ≡ number word.now }
    ensures bound { IfSome result (λ n. n ≤ MAX_TIME) }
{
    if word.is_empty() || word.len() > 19 {
        return None;
    }
    let mut total: u64 = 0;
    for byte in word {
        if !byte.is_ascii_digit() {
            return None;
        }
        total = total * 10 + u64::from(*byte - b'0');
    }
    if total <= MAX_TIME { Some(total) } else { None }
}

// The least and the greatest chunk size, in bytes. A chunk size is a multiple of `CHUNK_STEP`.
const MIN_CHUNK_SIZE: u64 = 48;

const MAX_CHUNK_SIZE: u64 = 1_048_576;

const CHUNK_STEP: u64 = 8;

#[tactic(auto, unfolding(ts_spec::specs::Settings::time_word))]
pub(crate) fn time_word(word: &[u8]) -> Result<u64, WordFault>
    ensures answer { MatchesSame result (time_word word.now) }
    ensures bound { IfOk result (λ n. n ≤ MAX_TIME) }
{
    parse_number(word).ok_or(WordFault::BadTimestamp)
}

#[tactic(auto, unfolding(ts_spec::specs::Settings::end_word))]
pub(crate) fn end_word(word: &[u8]) -> Result<u64, WordFault>
    ensures answer { MatchesSame result (end_word word.now) }
    ensures bound { IfOk result (λ n. n ≤ MAX_TIME) }
{
    if word == b"-".as_slice() {
        return Ok(0);
    }
    if word == b"+".as_slice() {
        return Ok(MAX_TIME);
    }
    time_word(word)
}

#[tactic(auto, unfolding(ts_spec::specs::Settings::at_word))]
pub(crate) fn at_word(word: &[u8]) -> Result<At, WordFault>
    ensures answer { MatchesSame result (at_word word.now) }
    ensures bound { IfOk result IsTime }
{
    if word == b"*".as_slice() {
        return Ok(At::Clock);
    }
    Ok(At::Time(time_word(word)?))
}

#[tactic(auto, unfolding(ts_spec::specs::Settings::value_word))]
pub(crate) fn value_word(word: &[u8]) -> Result<Units, WordFault>
    ensures answer { MatchesSame result (value_word word.now) }
{
    match parse(word) {
        Ok(value) => Ok(value),
        Err(fault) => Err(WordFault::BadValue(fault)),
    }
}

#[tactic(auto, unfolding(ts_spec::specs::SeriesOptions::retention_word))]
pub(crate) fn retention_word(word: &[u8]) -> Result<u64, WordFault>
    ensures answer { MatchesSame result (retention_word word.now) }
    ensures bound { IfOk result (λ n. n ≤ MAX_TIME) }
{
    parse_number(word).ok_or(WordFault::BadOption)
}

#[tactic(auto, unfolding(ts_spec::specs::SeriesOptions::chunk_size_word))]
pub(crate) fn chunk_size_word(word: &[u8]) -> Result<u32, WordFault>
    ensures answer { MatchesSame result (chunk_size_word word.now) }
    ensures bound { IfOk result IsChunkSize }
{
    match parse_number(word) {
        Some(n) if n >= MIN_CHUNK_SIZE && n <= MAX_CHUNK_SIZE && n % CHUNK_STEP == 0 => Ok(
            n as u32,
        ),
        _ => Err(WordFault::BadChunkSize),
    }
}

#[tactic(auto, unfolding(ts_spec::specs::Ranges::count_word))]
pub(crate) fn count_word(word: &[u8]) -> Result<u64, WordFault>
    ensures { MatchesSame result (count_word word.now) }
{
    parse_number(word).ok_or(WordFault::BadOption)
}

#[tactic(auto, unfolding(ts_spec::specs::SeriesOptions::policy_word))]
pub(crate) fn policy_word(word: &[u8]) -> Result<Policy, WordFault>
    ensures { MatchesSame result (policy_word word.now) }
{
    policy_named(word).ok_or(WordFault::BadPolicy)
}

#[tactic(auto, unfolding(ts_spec::specs::SeriesOptions::encoding_word))]
pub(crate) fn encoding_word(word: &[u8]) -> Result<Encoding, WordFault>
    ensures { MatchesSame result (encoding_word word.now) }
{
    encoding_named(word).ok_or(WordFault::BadEncoding)
}

#[tactic(auto, unfolding(ts_spec::specs::Ranges::aggregator_word))]
pub(crate) fn aggregator_word(word: &[u8]) -> Result<Aggregator, WordFault>
    ensures { MatchesSame result (aggregator_word word.now) }
{
    match read_aggregator(word) {
        Ok(agg) => Ok(agg),
        Err(AggFault::Unknown) => Err(WordFault::UnknownAggregator),
        Err(AggFault::NotInProfile) => Err(WordFault::AggregatorNotInProfile),
    }
}

#[tactic(auto, unfolding(ts_spec::specs::Ranges::duration_word))]
pub(crate) fn duration_word(word: &[u8]) -> Result<u64, WordFault>
    ensures answer { MatchesSame result (duration_word word.now) }
    ensures bound { IfOk result IsDuration }
{
    match parse_number(word) {
        Some(n) if n >= 1 && n <= LONGEST => Ok(n),
        _ => Err(WordFault::BadDuration),
    }
}

#[tactic(auto, unfolding(ts_spec::specs::Ranges::align_word))]
pub(crate) fn align_word(word: &[u8]) -> Result<Align, WordFault>
    ensures answer { MatchesSame result (align_word word.now) }
    ensures bound { IfOk result IsAlign }
{
    if let Some(end) = align_named(word) {
        return Ok(end);
    }
    match parse_number(word) {
        Some(time) => Ok(Align::Time(time)),
        None => Err(WordFault::BadOption),
    }
}

#[tactic(auto, unfolding(ts_spec::specs::Ranges::stamp_word))]
pub(crate) fn stamp_word(word: &[u8]) -> Result<Stamp, WordFault>
    ensures { MatchesSame result (stamp_word word.now) }
{
    stamp_named(word).ok_or(WordFault::BadOption)
}

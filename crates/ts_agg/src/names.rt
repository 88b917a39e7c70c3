// The names of aggregators and reducers, lookup in a table of names, and why a name is not an aggregator.
ghost use Rattle.std.specs.Prelude.{◌≡◌, map, Ok, Some};
ghost use Rattle.std.specs.Str.{str_eq_ignore_ascii_case};
ghost use Rattle.ts_spec.specs.Aggregate.{aggregator_of};
ghost use Rattle.ts_spec.specs.Names.{named};
ghost use Rattle.ts_spec.specs.Replies.{aggregator_name};
ghost use Rattle.ts_agg.specs.Names.{aggregator_read, reducer_read};
ghost use Rattle.ts_agg.specs.FaultNames.{name_of};

use std::fmt;
use thiserror::Error;
use ts_spec::{Aggregator, Reducer};

// `None` marks aggregators of RedisTimeSeries that this server does not support.
const NAMES: [(&[u8], Option<Aggregator>); 13] = [
    (b"avg", Some(Aggregator::Avg)),
    (b"sum", Some(Aggregator::Sum)),
    (b"min", Some(Aggregator::Min)),
    (b"max", Some(Aggregator::Max)),
    (b"range", Some(Aggregator::Range)),
    (b"count", Some(Aggregator::Count)),
    (b"first", Some(Aggregator::First)),
    (b"last", Some(Aggregator::Last)),
    (b"twa", None),
    (b"std.p", None),
    (b"std.s", None),
    (b"var.p", None),
    (b"var.s", None),
];

const REDUCERS: [(&[u8], Option<Reducer>); 11] = [
    (b"avg", Some(Reducer::Avg)),
    (b"sum", Some(Reducer::Sum)),
    (b"min", Some(Reducer::Min)),
    (b"max", Some(Reducer::Max)),
    (b"range", Some(Reducer::Range)),
    (b"count", Some(Reducer::Count)),
    (b"twa", None),
    (b"std.p", None),
    (b"std.s", None),
    (b"var.p", None),
    (b"var.s", None),
];

/// Whether a word is this name, in any case.
#[inline]
pub fn is_name(name: &[u8], word: &[u8]) -> bool
    ensures { result ≡ str_eq_ignore_ascii_case name.now word.now }
{
    name.eq_ignore_ascii_case(word)
}

/// Returns the entry of a table for a word, in any case. The first match counts.
pub fn named<T: Copy>(mut table: &[(&[u8], T)], word: &[u8]) -> Option<T>
    ensures { result ≡ named (map (λ row. (row.0.now, row.1)) table.entry.now) word.now }
{
    while let [row, rest @ ..] = table {
        if is_name(row.0, word) {
            return Some(row.1);
        }
        table = rest;
    }
    None
}

/// Returns the aggregator of a name, in any case.
#[tactic(auto, unfolding(ts_spec::specs::Names::aggregators))]
pub fn read_aggregator(name: &[u8]) -> Result<Aggregator, AggFault>
    ensures { result ≡ aggregator_read name.now }
{
    match named(&NAMES, name) {
        None => Err(AggFault::Unknown),
        Some(None) => Err(AggFault::NotInProfile),
        Some(Some(agg)) => Ok(agg),
    }
}

/// Returns the reducer of a name, in any case.
#[tactic(auto, unfolding(ts_spec::specs::Names::reducers))]
pub fn read_reducer(name: &[u8]) -> Result<Reducer, AggFault>
    ensures { result ≡ reducer_read name.now }
{
    match named(&REDUCERS, name) {
        None => Err(AggFault::Unknown),
        Some(None) => Err(AggFault::NotInProfile),
        Some(Some(reducer)) => Ok(reducer),
    }
}

/// Returns the aggregator with the same result as a reducer.
pub fn aggregator_of(reducer: Reducer) -> Aggregator
    ensures { result ≡ aggregator_of reducer }
{
    match reducer {
        Reducer::Avg => Aggregator::Avg,
        Reducer::Sum => Aggregator::Sum,
        Reducer::Min => Aggregator::Min,
        Reducer::Max => Aggregator::Max,
        Reducer::Range => Aggregator::Range,
        Reducer::Count => Aggregator::Count,
    }
}

/// Returns the name of an aggregator, in lower case.
#[tactic(auto, unfolding(ts_spec::specs::Names::aggregators))]
pub fn name(agg: Aggregator) -> &'static str
    ensures value { result.now ≡ aggregator_name agg }
    ensures reads_back { aggregator_read (aggregator_name agg) ≡ Ok agg }
{
    match agg {
        Aggregator::Avg => "avg",
        Aggregator::Sum => "sum",
        Aggregator::Min => "min",
        Aggregator::Max => "max",
        Aggregator::Range => "range",
        Aggregator::Count => "count",
        Aggregator::First => "first",
        Aggregator::Last => "last",
    }
}

/// Why a name is not an aggregator of this server.
#[derive(Clone, Copy, PartialEq, Eq, Error)]
pub enum AggFault {
    /// An aggregator of RedisTimeSeries that this server does not support: twa, std.p, std.s, var.p or var.s.
    #[error("aggregator not supported")]
    NotInProfile,
    /// An unknown name.
    #[error("unknown aggregator")]
    Unknown,
}

impl fmt::Debug for AggFault {
    ghost debug_output = { λ fault. Some (name_of fault) };

    fn fmt<W: fmt::Write>(&self, f: &mut fmt::Formatter<W>) -> fmt::Result {
        f.write_str(match self {
            AggFault::NotInProfile => "NotInProfile",
            AggFault::Unknown => "Unknown",
        })
    }
}

// Queries by key. A destination has the rows of its closed buckets and, if the latest one is asked for, that of its
// open bucket.
use crate::texts::{fault_text, last_text, pair_of, samples_text, split, word};
use std::alloc::Global;
use std::io;
use std::sync::ledger::Ledger;
use test_script::{answer_of, number_of};
use ts_db::{Db, DbFault};
use ts_resp::Word;
use ts_sample::{MAX_TIME, Sample, Steps};

/// `samples a 3 24` are those in an interval, and `all a` those at any time; `last a`; `before a 25` is the last one
/// before a time; `first-and-last a` are two times. After `latest `, each counts the row of an open bucket too.
pub(crate) fn query<L: Ledger>(
    alloc: Global,
    db: &Db,
    verb: &str,
    text: &str,
    latest: bool,
    steps: &mut Steps<L>,
) -> io::Result<Option<String>> {
    let (key, rest) = split(text);
    let key = word(alloc, key)?;
    match verb {
        "samples" => between(alloc, db, &key, rest, latest, steps),
        "all" => samples(alloc, db.samples(&key, 0, MAX_TIME, latest, steps)),
        "last" => last(alloc, db.last(&key, latest, steps)),
        "before" => last(alloc, db.before(&key, number_of(rest), latest, steps)),
        "first-and-last" => ends(alloc, db.ends(&key, latest, steps)),
        _ => Ok(None),
    }
}

fn between<L: Ledger>(
    alloc: Global,
    db: &Db,
    key: &Word,
    text: &str,
    latest: bool,
    steps: &mut Steps<L>,
) -> io::Result<Option<String>> {
    match pair_of(text) {
        Some((from, to)) => samples(alloc, db.samples(key, from, to, latest, steps)),
        None => Ok(None),
    }
}

fn samples(alloc: Global, outcome: Result<Vec<Sample>, DbFault>) -> io::Result<Option<String>> {
    match outcome {
        Ok(samples) => Ok(Some(samples_text(alloc, &samples)?)),
        Err(fault) => fault_text(alloc, &fault),
    }
}

fn last(alloc: Global, outcome: Result<Option<Sample>, DbFault>) -> io::Result<Option<String>> {
    match outcome {
        Ok(last) => Ok(Some(last_text(alloc, last)?)),
        Err(fault) => fault_text(alloc, &fault),
    }
}

fn ends(alloc: Global, outcome: Result<Option<(u64, u64)>, DbFault>) -> io::Result<Option<String>> {
    match outcome {
        Ok(Some((first, last))) => Ok(Some(format!(in alloc; "{first} {last}")?)),
        Ok(None) => answer_of(alloc, "none"),
        Err(fault) => fault_text(alloc, &fault),
    }
}

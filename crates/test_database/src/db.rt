// A database, with keys of one letter.
ghost use Rattle.std.specs.Prelude.{◌≤◌};
ghost use Rattle.ts_spec.specs.Sample.{MAX_TIME};

use crate::drafts::DraftCalls;
use crate::queries::query;
use crate::stored::{ids_text, stored_text};
use crate::texts::{fault_text, sample_of, split, time_of, word};
use std::alloc::Global;
use std::io;
use std::sync::ledger::Ledger;
use test_script::{Device, answer_of};
use ts_bucket::Grid;
use ts_db::{Change, Db, DbFault, Spec};
use ts_labels::Labels;
use ts_sample::{Sample, Steps, Units};
use ts_spec::{Aggregator, Encoding, Ignore, Options, Policy};

/// `Db keys=2 samples=3` has these limits, and otherwise the usual ones. It has no keys.
#[derive(Drop)]
pub(crate) struct DbCalls<L: Ledger> {
    pub(crate) db: Db,
    pub(crate) steps: Steps<L>,
    draft: DraftCalls,
}

// `create a`; `put a 11`, `add a 11` and `incr a 11` write one millionth, and `set a 11:5` replaces what is there;
// `delete a 11 12`; `alter a x` gives the key chunks of 48 bytes and one label. `last-rule a c` creates a rule over ten
// milliseconds, for the last value, and `sum-rule a c` for the sum; `end a c` deletes it. `ids` are those of all keys,
// in key order. The calls of queries, stored series and drafts follow.
impl<L: Ledger> Device for DbCalls<L> {
    fn answer(&mut self, alloc: Global, verb: &str, text: &str) -> io::Result<Option<String>> {
        let (key, rest) = split(text);
        match verb {
            "create" => done(alloc, self.db.create(word(alloc, key)?, spec(alloc))),
            "set" => self.set(alloc, key, rest),
            "delete" => self.delete(alloc, key, rest),
            "alter" => self.alter(alloc, key, rest),
            "last-rule" => self.create_rule(alloc, key, rest, Aggregator::Last),
            "sum-rule" => self.create_rule(alloc, key, rest, Aggregator::Sum),
            "end" => self.delete_rule(alloc, key, rest),
            "ids" => ids_text(alloc, &self.db),
            "stored" => stored_text(alloc, &self.db, key),
            "latest" => query(alloc, &self.db, key, rest, true, &mut self.steps),
            _ => self.answer_on_time(alloc, verb, text),
        }
    }
}

impl<L: Ledger> DbCalls<L> {
    pub(crate) fn new(alloc: Global, db: Db, steps: Steps<L>) -> Self {
        let draft = DraftCalls::new(alloc);
        DbCalls { db, steps, draft }
    }

    fn answer_on_time(
        &mut self,
        alloc: Global,
        verb: &str,
        text: &str,
    ) -> io::Result<Option<String>> {
        let (key, rest) = split(text);
        match (verb, time_of(rest)) {
            ("put" | "add" | "incr", Some(time)) => self.write(alloc, verb, key, time),
            _ => match self
                .draft
                .answer(alloc, &mut self.db, verb, text, &mut self.steps)?
            {
                Some(answer) => Ok(Some(answer)),
                None => query(alloc, &self.db, verb, text, false, &mut self.steps),
            },
        }
    }

    fn write(
        &mut self,
        alloc: Global,
        verb: &str,
        key: &str,
        time: u64,
    ) -> io::Result<Option<String>>
        requires { time ≤ MAX_TIME }
    {
        let unit = Units::new(1).unwrap_or(Units::ZERO);
        let (key, steps) = (word(alloc, key)?, &mut self.steps);
        let outcome = match verb {
            "put" => self.db.put(&key, time, unit, steps),
            "add" => self.db.add(key, time, unit, None, spec(alloc), steps),
            _ => self.db.incr(key, unit, time, spec(alloc), steps),
        };
        number(alloc, outcome)
    }

    fn set(&mut self, alloc: Global, key: &str, text: &str) -> io::Result<Option<String>> {
        let Some(Sample { time, value, .. }) = sample_of(text) else {
            return Ok(None);
        };
        let (key, on, steps) = (word(alloc, key)?, Some(Policy::Last), &mut self.steps);
        number(alloc, self.db.add(key, time, value, on, spec(alloc), steps))
    }

    fn delete(&mut self, alloc: Global, key: &str, text: &str) -> io::Result<Option<String>> {
        let (from, to) = split(text);
        let (Some(from), Some(to)) = (time_of(from), time_of(to)) else {
            return Ok(None);
        };
        let key = word(alloc, key)?;
        number(alloc, self.db.delete_range(&key, from, to, &mut self.steps))
    }

    fn alter(&mut self, alloc: Global, key: &str, value: &str) -> io::Result<Option<String>> {
        let mut labels = Labels::new(alloc);
        labels.set(word(alloc, "l")?, word(alloc, value)?)?;
        let change = Change {
            retention: None,
            chunk_size: Some(48),
            policy: None,
            ignore: None,
            labels: Some(labels),
        };
        let key = word(alloc, key)?;
        done(alloc, self.db.alter(&key, change, &mut self.steps))
    }

    fn create_rule(
        &mut self,
        alloc: Global,
        source: &str,
        dest: &str,
        agg: Aggregator,
    ) -> io::Result<Option<String>> {
        let Some(grid) = Grid::new(0, 10) else {
            return Ok(None);
        };
        let (source, dest) = (word(alloc, source)?, word(alloc, dest)?);
        done(alloc, self.db.create_rule(&source, &dest, agg, grid))
    }

    fn delete_rule(&mut self, alloc: Global, from: &str, dest: &str) -> io::Result<Option<String>> {
        let (source, dest) = (word(alloc, from)?, word(alloc, dest)?);
        done(alloc, self.db.delete_rule(&source, &dest))
    }
}

// The options of a new key.
fn spec(alloc: Global) -> Spec {
    Spec {
        options: Options {
            retention: 0,
            encoding: Encoding::Compressed,
            chunk_size: 4096,
            policy: Policy::Block,
            ignore: Ignore::EQUAL,
        },
        labels: Labels::new(alloc),
    }
}

fn number(alloc: Global, outcome: Result<u64, DbFault>) -> io::Result<Option<String>> {
    match outcome {
        Ok(number) => answer_of(alloc, number),
        Err(fault) => fault_text(alloc, &fault),
    }
}

fn done(alloc: Global, outcome: Result<(), DbFault>) -> io::Result<Option<String>> {
    match outcome {
        Ok(()) => answer_of(alloc, "ok"),
        Err(fault) => fault_text(alloc, &fault),
    }
}

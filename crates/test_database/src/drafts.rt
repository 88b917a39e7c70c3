// Series and rules as a checkpoint has them: a series is drafted, and then restored under a key.
ghost use Rattle.std.specs.Prelude.{◌≤◌, IfSome};
ghost use Rattle.std.specs.Option.{ForSome};
ghost use Rattle.ts_spec.specs.Sample.{MAX_TIME};
ghost use Rattle.ts_restore.specs.Summaries.{IsShortSummary};

use crate::open_bucket::OpenBucket;
use crate::texts::{pair_of, split, word};
use crate::writes::{count_rule, empty, options, write_all};
use std::alloc::Global;
use std::sync::ledger::Ledger;
use std::{io, mem};
use test_script::{answer_of, number_of, silent};
use ts_agg::Running;
use ts_bucket::Grid;
use ts_db::{Db, RestoredRule};
use ts_labels::Labels;
use ts_sample::{Steps, Units};
use ts_series::Series;
use ts_spec::{Aggregator, Encoding, Ignore, Options, Policy};

/// The series that is drafted.
#[derive(Drop)]
pub(crate) struct DraftCalls {
    series: Series,
}

impl DraftCalls {
    pub(crate) fn new(alloc: Global) -> Self {
        DraftCalls {
            series: empty(alloc),
        }
    }

    /// `draft 5` has a retention of five milliseconds, and `draft 0 10` ignores writes within ten of the last one.
    /// `written 1:5` writes samples to it, `count-rule` counts a rule that was created on it, and `cut 1 1` deletes an
    /// interval. `restore s` adds it under a key, and leaves an empty one. `restore-rule s d 1 0 5 6` restores a rule
    /// with the count of rules when it was created, the start of its open bucket, and the values there. The answer of
    /// both is whether that is valid.
    pub(crate) fn answer<L: Ledger>(
        &mut self,
        alloc: Global,
        db: &mut Db,
        verb: &str,
        text: &str,
        steps: &mut Steps<L>,
    ) -> io::Result<Option<String>> {
        match verb {
            "draft" => self.series = Series::new(alloc, options_of(text)),
            "written" => return write_all(alloc, &mut self.series, text, steps),
            "count-rule" => count_rule(&mut self.series),
            "cut" => return cut(alloc, &mut self.series, text, steps),
            "restore" => {
                let series = mem::replace(&mut self.series, empty(alloc));
                return restore(alloc, db, text, series, steps);
            }
            "restore-rule" => return restore_rule(alloc, db, text, steps),
            _ => return Ok(None),
        }
        silent(alloc)
    }
}

// A retention, and the time of IGNORE if there is one.
fn options_of(text: &str) -> Options {
    let (retention, time) = split(text);
    let mut options = options(Encoding::Compressed, 4096, number_of(retention));
    if !time.is_empty() {
        options.policy = Policy::Last;
        options.ignore = Ignore {
            time: number_of(time),
            value: Units::ZERO,
        };
    }
    options
}

fn cut<L: Ledger>(
    alloc: Global,
    series: &mut Series,
    text: &str,
    steps: &mut Steps<L>,
) -> io::Result<Option<String>> {
    let Some((from, to)) = pair_of(text) else {
        return Ok(None);
    };
    let plan = series.cut(from, to, steps)?;
    series.commit(plan);
    silent(alloc)
}

fn restore<L: Ledger>(
    alloc: Global,
    db: &mut Db,
    key: &str,
    series: Series,
    steps: &mut Steps<L>,
) -> io::Result<Option<String>> {
    series.known();
    let is_valid = db.restore_series(word(alloc, key)?, series, Labels::new(alloc), steps)?;
    answer_of(alloc, is_valid)
}

fn restore_rule<L: Ledger>(
    alloc: Global,
    db: &mut Db,
    text: &str,
    steps: &mut Steps<L>,
) -> io::Result<Option<String>> {
    let (source, rest) = split(text);
    let (dest, rest) = split(rest);
    let (made, open) = split(rest);
    let Some(rule) = rule_of(number_of(made), &OpenBucket::of(alloc, open)?) else {
        return Ok(None);
    };
    let (source, dest) = (word(alloc, source)?, word(alloc, dest)?);
    answer_of(alloc, db.restore_rule(&source, &dest, rule, steps)?)
}

fn rule_of(made: u64, open: &OpenBucket) -> Option<RestoredRule>
    ensures time { IfSome result (λ rule. ForSome rule.current (λ b. b ≤ MAX_TIME)) }
    ensures summary { IfSome result (λ rule. IsShortSummary rule.running) }
{
    Some(RestoredRule {
        agg: Aggregator::Sum,
        grid: Grid::new(0, 10)?,
        made: u32::try_from(made).ok()?,
        current: open.start(),
        running: Running::restored(open.running()?.parts())?,
    })
}

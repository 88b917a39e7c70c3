// Which series, chunks and rules words can say: those whose records read back.
ghost use Rattle.std.specs.Prelude.{◌≡◌, ◌↔◌, Ok, IsTrue, IfOk};
ghost use Rattle.ts_spec.specs.Grammar.{command};
ghost use Rattle.ts_command.specs.Reading.{command_of};
ghost use Rattle.ts_restore.specs.Summaries.{summary_of};
ghost use Rattle.ts_checkpoint.specs.Parts.{Samples, Rule, rule_of};
ghost use Rattle.ts_checkpoint.specs.Reading.{ReadsBack, IsCreatedBy};
ghost use Rattle.ts_checkpoint.specs.Sayable.{IsSayable, IsSayableSummary, IsTimeIfAny};

use crate::commands::put_create;
use crate::draft::Draft;
use crate::part::{PartFault, RuleRecord, SeriesHead};
use crate::read::{GREATEST_LIMIT, LEAST_LIMIT};
use crate::read_series::parse_command;
use std::alloc::{AllocError, Global};
use ts_command::Command;
use ts_labels::{Labels, Spec};
use ts_resp::Word;
use ts_restore::SummaryParts;
use ts_sample::MAX_TIME;
use ts_spec::Options;

// No record says a sum of this magnitude.
const SUM_BOUND: u128 = 100_000_000_000_000_000_000_000_000_000_000_000_000;

/// A series as its record reads back, or `None` if words can't say it: no command gives some labels, such as one named
/// RETENTION. Allocates the words of TS.CREATE.
pub fn series_head(
    alloc: Global,
    key: &Word,
    options: &Options,
    labels: &Labels,
    high: Option<u64>,
    born: u32,
    pieces: u32,
) -> Result<Option<SeriesHead>, AllocError>
    ensures { IfOk result (ReadsBack (record {
      key = key.now;
      spec = record { options = options.now; labels = labels.now };
      high = high;
      born = born;
      pieces = pieces;
    })) }
{
    ts_journal::records_read_back();
    if !is_time_if_any(high) {
        return Ok(None);
    }
    let mut draft = Draft::new(alloc);
    put_create(&mut draft, key, options, labels)?;
    match created(draft.unchecked(), key, options, labels)? {
        None => Ok(None),
        Some((key, spec)) => Ok(Some(SeriesHead {
            key,
            spec,
            high,
            born,
            pieces,
        })),
    }
}

// The key, options and labels of TS.CREATE, if these words create this series.
fn created(
    words: Vec<Word>,
    key: &Word,
    options: &Options,
    labels: &Labels,
) -> Result<Option<(Word, Spec)>, AllocError>
    ensures { IfOk result
        (IsCreatedBy (command words.items) key.now (record { options = options.now; labels = labels.now })) }
{
    match parse_command(words) {
        Ok(command) => Ok(created_by(command, key, options, labels)),
        Err(PartFault::Refused) => Ok(None),
        Err(PartFault::Memory(error)) => Err(error),
    }
}

// The key, options and labels of TS.CREATE, if the command creates this series.
fn created_by(
    command: Command,
    key: &Word,
    options: &Options,
    labels: &Labels,
) -> Option<(Word, Spec)>
    ensures { IsCreatedBy (Ok (command_of command)) key.now
        (record { options = options.now; labels = labels.now }) result }
{
    let Command::Create { key: found, spec } = command else {
        return None;
    };
    if found != *key {
        return None;
    }
    if spec.options != *options {
        return None;
    }
    if !same_labels(&spec.labels, labels) {
        return None;
    }
    Some((found, spec))
}

// Whether labels and their values are equal, in the same order.
fn same_labels(some: &Labels, others: &Labels) -> bool
    ensures { IsTrue result ↔ (some.now ≡ others.now) }
{
    if some.len() != others.len() {
        return false;
    }
    for i in 0..some.len() {
        if some.label_at(i) != others.label_at(i) {
            return false;
        }
        if some.value_at(i) != others.value_at(i) {
            return false;
        }
    }
    true
}

/// Whether the record of samples, packed, in a chunk of this limit reads back.
pub fn piece_reads_back(limit: u32, samples: &[u8]) -> bool
    ensures { IsTrue result ↔ IsSayable (Samples (record { limit = limit; samples = samples.now })) }
{
    LEAST_LIMIT <= limit
        && limit <= GREATEST_LIMIT
        && !samples.is_empty()
        && samples.len() <= limit as usize
}

/// Whether the record of a rule reads back.
pub fn rule_reads_back(rule: &RuleRecord) -> bool
    ensures { IsTrue result ↔ IsSayable (Rule (rule_of rule.now)) }
{
    rule.grid.known();
    if rule.source == rule.dest || rule.made == 0 {
        return false;
    }
    if rule.current.is_none() && rule.running.count != 0 {
        return false;
    }
    is_time_if_any(rule.current) && is_sayable_summary(rule.running)
}

// Whether the six numbers are within the bounds of records.
fn is_sayable_summary(summary: SummaryParts) -> bool
    ensures { IsTrue result ↔ IsSayableSummary (summary_of summary) }
{
    summary.count <= MAX_TIME && summary.sum.unsigned_abs() < SUM_BOUND
}

// Whether there is no time, or one that is not too late.
fn is_time_if_any(time: Option<u64>) -> bool
    ensures { IsTrue result ↔ IsTimeIfAny time }
{
    match time {
        None => true,
        Some(time) => time <= MAX_TIME,
    }
}

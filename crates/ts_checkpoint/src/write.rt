// Writes the records of a checkpoint.
ghost use Rattle.std.specs.Prelude.{◌≡◌, IfOk, OnOk};
ghost use Rattle.ts_checkpoint.specs.Parts.{Head, Series, Samples, Rule, series_of, rule_of};
ghost use Rattle.ts_restore.specs.Summaries.{summary_of};
ghost use Rattle.ts_checkpoint.specs.PartWords.{part_words, summary_words};
ghost use Rattle.ts_checkpoint.specs.Records.{Appends};

use crate::commands::{put_create, put_create_rule};
use crate::draft::Draft;
use crate::part::{RuleRecord, SeriesHead};
use std::alloc::{AllocError, Global};
use ts_resp::Word;
use ts_restore::SummaryParts;

/// The head of a checkpoint with this many records behind it.
pub fn head_record(alloc: Global, records: u64) -> Result<Vec<Word>, AllocError>
    ensures { IfOk result (λ words. words.items ≡ part_words (Head records)) }
{
    let mut draft = Draft::new(alloc);
    draft.put(b"TSD.CHECKPOINT")?;
    draft.put(b"1")?;
    draft.put_number(records)?;
    draft.checked()
}

/// The record of a series.
pub fn series_record(alloc: Global, series: &SeriesHead) -> Result<Vec<Word>, AllocError>
    ensures { IfOk result (λ words. words.items ≡ part_words (Series (series_of series.now))) }
{
    let mut draft = Draft::new(alloc);
    draft.put(b"TSD.SERIES")?;
    draft.put_time(series.high)?;
    draft.put_small_number(series.born)?;
    draft.put_small_number(series.pieces)?;
    put_create(
        &mut draft,
        &series.key,
        &series.spec.options,
        &series.spec.labels,
    )?;
    draft.checked()
}

/// The record of samples, packed, in a chunk of this limit.
pub fn piece_record(alloc: Global, limit: u32, samples: &[u8]) -> Result<Vec<Word>, AllocError>
    ensures { IfOk result
        (λ words. words.items ≡ part_words (Samples (record { limit = limit; samples = samples.now }))) }
{
    let mut draft = Draft::new(alloc);
    draft.put(b"TSD.PIECE")?;
    draft.put_small_number(limit)?;
    draft.put(samples)?;
    draft.checked()
}

/// The record of a rule.
pub fn rule_record(alloc: Global, rule: &RuleRecord) -> Result<Vec<Word>, AllocError>
    ensures { IfOk result (λ words. words.items ≡ part_words (Rule (rule_of rule.now))) }
{
    let mut draft = Draft::new(alloc);
    draft.put(b"TSD.RULE")?;
    draft.put_small_number(rule.made)?;
    draft.put_time(rule.current)?;
    put_summary(&mut draft, rule.running)?;
    put_create_rule(&mut draft, rule)?;
    draft.checked()
}

// The six numbers of a summary.
fn put_summary(draft: &mut Draft, summary: SummaryParts) -> Result<(), AllocError>
    ensures { OnOk result (Appends draft.old draft.new (summary_words (summary_of summary))) }
{
    draft.put_number(summary.count)?;
    draft.put_integer(summary.sum)?;
    draft.put_value(summary.least)?;
    draft.put_value(summary.greatest)?;
    draft.put_value(summary.first)?;
    draft.put_value(summary.last)
}

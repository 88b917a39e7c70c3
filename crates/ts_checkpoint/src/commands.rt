// The words of the commands that create a series and a rule, as their journal records have them.
ghost use Rattle.std.specs.Prelude.{◌≡◌, ◌∷◌, [], OnOk};
ghost use Rattle.std.specs.Fmt.{decimal};
ghost use Rattle.ts_spec.specs.Command as command;
ghost use Rattle.ts_spec.specs.Replies.{aggregator_name};
ghost use Rattle.ts_journal.specs.Record.{retention_words, encoding_words, chunk_size_words, policy_words};
ghost use Rattle.ts_journal.specs.Record.{ignore_words, label_pairs, labels_words, spec_words, record_words};
ghost use Rattle.ts_checkpoint.specs.Records.{Appends};

use crate::draft::Draft;
use crate::part::RuleRecord;
use std::alloc::AllocError;
use ts_agg::name;
use ts_bucket::Grid;
use ts_journal::{encoding_name, policy_name};
use ts_labels::Labels;
use ts_resp::Word;
use ts_spec::{Aggregator, Encoding, Ignore, Options, Policy};

pub(crate) fn put_create(
    draft: &mut Draft,
    key: &Word,
    options: &Options,
    labels: &Labels,
) -> Result<(), AllocError>
    ensures { OnOk result (Appends draft.old draft.new
        (record_words 0 (command.Create key.now (record { options = options.now; labels = labels.now })))) }
{
    draft.put(b"TS.CREATE")?;
    draft.put_word(key)?;
    put_spec(draft, options, labels)
}

pub(crate) fn put_create_rule(draft: &mut Draft, rule: &RuleRecord) -> Result<(), AllocError>
    ensures { OnOk result
        (Appends draft.old draft.new
        (record_words 0 (command.CreateRule rule.now.source rule.now.dest rule.now.agg rule.now.grid))) }
{
    draft.put(b"TS.CREATERULE")?;
    draft.put_word(&rule.source)?;
    draft.put_word(&rule.dest)?;
    draft.put(b"AGGREGATION")?;
    put_aggregator(draft, rule.agg)?;
    put_duration(draft, &rule.grid)?;
    put_align(draft, &rule.grid)
}

fn put_aggregator(draft: &mut Draft, agg: Aggregator) -> Result<(), AllocError>
    ensures { OnOk result (Appends draft.old draft.new (aggregator_name agg ∷ [])) }
{
    draft.put(name(agg).as_bytes())
}

fn put_duration(draft: &mut Draft, grid: &Grid) -> Result<(), AllocError>
    ensures { OnOk result (Appends draft.old draft.new (decimal grid.now.duration ∷ [])) }
{
    draft.put_number(grid.duration())
}

fn put_align(draft: &mut Draft, grid: &Grid) -> Result<(), AllocError>
    ensures { OnOk result (Appends draft.old draft.new (decimal grid.now.align ∷ [])) }
{
    draft.put_number(grid.align())
}

// All options of a new series.
fn put_spec(draft: &mut Draft, options: &Options, labels: &Labels) -> Result<(), AllocError>
    ensures { OnOk result
        (Appends draft.old draft.new (spec_words (record { options = options.now; labels = labels.now }))) }
{
    put_retention(draft, options.retention)?;
    put_encoding(draft, options.encoding)?;
    put_chunk_size(draft, options.chunk_size)?;
    put_policy(draft, options.policy)?;
    put_ignore(draft, options.ignore)?;
    put_labels(draft, labels)
}

fn put_retention(draft: &mut Draft, retention: u64) -> Result<(), AllocError>
    ensures { OnOk result (Appends draft.old draft.new (retention_words retention)) }
{
    draft.put(b"RETENTION")?;
    draft.put_number(retention)
}

fn put_encoding(draft: &mut Draft, encoding: Encoding) -> Result<(), AllocError>
    ensures { OnOk result (Appends draft.old draft.new (encoding_words encoding)) }
{
    draft.put(b"ENCODING")?;
    draft.put(encoding_name(encoding))
}

fn put_chunk_size(draft: &mut Draft, bytes: u32) -> Result<(), AllocError>
    ensures { OnOk result (Appends draft.old draft.new (chunk_size_words bytes)) }
{
    draft.put(b"CHUNK_SIZE")?;
    draft.put_small_number(bytes)
}

fn put_policy(draft: &mut Draft, policy: Policy) -> Result<(), AllocError>
    ensures { OnOk result (Appends draft.old draft.new (policy_words policy)) }
{
    draft.put(b"DUPLICATE_POLICY")?;
    draft.put(policy_name(policy))
}

fn put_ignore(draft: &mut Draft, ignore: Ignore) -> Result<(), AllocError>
    ensures { OnOk result (Appends draft.old draft.new (ignore_words ignore)) }
{
    draft.put(b"IGNORE")?;
    draft.put_number(ignore.time)?;
    draft.put_value(ignore.value)
}

fn put_labels(draft: &mut Draft, labels: &Labels) -> Result<(), AllocError>
    ensures { OnOk result (Appends draft.old draft.new (labels_words labels.now)) }
{
    draft.put(b"LABELS")?;
    put_label_pairs(draft, labels)
}

// Labels and their values, alternating.
fn put_label_pairs(draft: &mut Draft, labels: &Labels) -> Result<(), AllocError>
    ensures { OnOk result (Appends draft.old draft.new (label_pairs labels.now)) }
{
    for i in 0..labels.len() {
        draft.put_word(labels.label_at(i))?;
        draft.put_word(labels.value_at(i))?;
    }
    Ok(())
}

// The options of series and of writes, as arguments of a record.
ghost use Rattle.std.specs.Prelude.{◌≡◌, [], OnOk};
ghost use Rattle.ts_spec.specs.Labels as labels;
ghost use Rattle.ts_labels.specs.Spec.{spec_of, change_of};
ghost use Rattle.ts_journal.specs.Draft.{AppendsWords};
ghost use Rattle.ts_journal.specs.Record.{given, retention_words, encoding_words, chunk_size_words, policy_words};
ghost use Rattle.ts_journal.specs.Record.{on_duplicate_words, ignore_words, label_pairs, labels_words, spec_words};
ghost use Rattle.ts_journal.specs.Record.{change_words};

use crate::draft::Draft;
use crate::names::{encoding_name, policy_name};
use std::alloc::AllocError;
use ts_labels::{Change, Labels, Spec};
use ts_spec::{Encoding, Ignore, Policy};

// How many bytes the options of a new series mostly have, without labels.
const OPTIONS_ROOM: usize = 192;

// All options of a new series.
pub(crate) fn draft_spec(draft: &mut Draft, spec: &Spec) -> Result<(), AllocError>
    ensures { OnOk result (AppendsWords draft.old draft.new (spec_words (spec_of spec.now))) }
{
    draft.reserve(OPTIONS_ROOM)?;
    let options = &spec.options;
    draft_retention(draft, Some(options.retention))?;
    draft_encoding(draft, options.encoding)?;
    draft_chunk_size(draft, Some(options.chunk_size))?;
    draft_policy(draft, Some(options.policy))?;
    draft_ignore(draft, Some(options.ignore))?;
    draft_labels(draft, &spec.labels)
}

// The options that TS.ALTER changes.
pub(crate) fn draft_change(draft: &mut Draft, change: &Change) -> Result<(), AllocError>
    ensures { OnOk result (AppendsWords draft.old draft.new (change_words (change_of change.now))) }
{
    draft_retention(draft, change.retention)?;
    draft_chunk_size(draft, change.chunk_size)?;
    draft_policy(draft, change.policy)?;
    draft_ignore(draft, change.ignore)?;
    draft_given_labels(draft, &change.labels)
}

// The policy of one write, if it has one.
pub(crate) fn draft_on_duplicate(
    draft: &mut Draft,
    policy: Option<Policy>,
) -> Result<(), AllocError>
    ensures { OnOk result (AppendsWords draft.old draft.new (given on_duplicate_words policy)) }
{
    let Some(policy) = policy else {
        return Ok(());
    };
    draft.put(b"ON_DUPLICATE")?;
    draft.put(policy_name(policy))
}

fn draft_retention(draft: &mut Draft, retention: Option<u64>) -> Result<(), AllocError>
    ensures { OnOk result (AppendsWords draft.old draft.new (given retention_words retention)) }
{
    let Some(retention) = retention else {
        return Ok(());
    };
    draft.put(b"RETENTION")?;
    draft.put_number(retention)
}

fn draft_encoding(draft: &mut Draft, encoding: Encoding) -> Result<(), AllocError>
    ensures { OnOk result (AppendsWords draft.old draft.new (encoding_words encoding)) }
{
    draft.put(b"ENCODING")?;
    draft.put(encoding_name(encoding))
}

fn draft_chunk_size(draft: &mut Draft, bytes: Option<u32>) -> Result<(), AllocError>
    ensures { OnOk result (AppendsWords draft.old draft.new (given chunk_size_words bytes)) }
{
    let Some(bytes) = bytes else {
        return Ok(());
    };
    draft.put(b"CHUNK_SIZE")?;
    draft.put_number(u64::from(bytes))
}

fn draft_policy(draft: &mut Draft, policy: Option<Policy>) -> Result<(), AllocError>
    ensures { OnOk result (AppendsWords draft.old draft.new (given policy_words policy)) }
{
    let Some(policy) = policy else {
        return Ok(());
    };
    draft.put(b"DUPLICATE_POLICY")?;
    draft.put(policy_name(policy))
}

fn draft_ignore(draft: &mut Draft, ignore: Option<Ignore>) -> Result<(), AllocError>
    ensures { OnOk result (AppendsWords draft.old draft.new (given ignore_words ignore)) }
{
    let Some(ignore) = ignore else {
        return Ok(());
    };
    draft.put(b"IGNORE")?;
    draft.put_number(ignore.time)?;
    draft.put_value(ignore.value)
}

fn draft_given_labels(draft: &mut Draft, labels: &Option<Labels>) -> Result<(), AllocError>
    ensures { OnOk result (AppendsWords draft.old draft.new (given labels_words labels.now)) }
{
    match labels {
        Some(labels) => draft_labels(draft, labels),
        None => Ok(()),
    }
}

fn draft_labels(draft: &mut Draft, labels: &Labels) -> Result<(), AllocError>
    ensures { OnOk result (AppendsWords draft.old draft.new (labels_words labels.now)) }
{
    draft.put(b"LABELS")?;
    draft_label_pairs(draft, labels)
}

// Labels and their values, alternating.
fn draft_label_pairs(draft: &mut Draft, labels: &Labels) -> Result<(), AllocError>
    ensures { OnOk result (AppendsWords draft.old draft.new (label_pairs labels.now)) }
{
    for i in 0..labels.len() {
        draft.put_word(labels.label_at(i))?;
        draft.put_word(labels.value_at(i))?;
    }
    Ok(())
}

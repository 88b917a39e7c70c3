// The arguments of the records of changes, one function per command.
ghost use Rattle.std.specs.Prelude.{◌≡◌, ◌∷◌, [], OnOk, Ok};
ghost use Rattle.ts_spec.specs.Command as command;
ghost use Rattle.ts_spec.specs.declared.command.At.TheVariants.{Time};
ghost use Rattle.ts_spec.specs.Outcome.{time_of};
ghost use Rattle.ts_spec.specs.Replies.{aggregator_name};
ghost use Rattle.ts_labels.specs.Spec.{spec_of, change_of};
ghost use Rattle.ts_journal.specs.Draft.{AppendsWords};
ghost use Rattle.ts_journal.specs.Record.{record_words, sample_words};

use crate::draft::Draft;
use crate::options::{draft_change, draft_on_duplicate, draft_spec};
use std::alloc::AllocError;
use ts_agg::name;
use ts_labels::{Change, Spec};
use ts_resp::Word;
use ts_sample::{MAX_TIME, Units};
use ts_spec::{Aggregator, At, Policy};

// The time of a command, given a reading of the clock.
pub(crate) fn time_of(at: At, reading: u64) -> u64
    ensures { result ≡ time_of reading at }
{
    match at {
        At::Clock => reading.min(MAX_TIME),
        At::Time(time) => time,
    }
}

pub(crate) fn draft_create(draft: &mut Draft, key: &Word, spec: &Spec) -> Result<(), AllocError>
    ensures { OnOk result
        (AppendsWords draft.old draft.new (record_words 0 (command.Create key.now (spec_of spec.now)))) }
{
    draft.put(b"TS.CREATE")?;
    draft.put_word(key)?;
    draft_spec(draft, spec)
}

pub(crate) fn draft_alter(draft: &mut Draft, key: &Word, change: &Change) -> Result<(), AllocError>
    ensures { OnOk result
        (AppendsWords draft.old draft.new (record_words 0 (command.Alter key.now (change_of change.now)))) }
{
    draft.put(b"TS.ALTER")?;
    draft.put_word(key)?;
    draft_change(draft, change)
}

// TS.ADD, with its time resolved.
pub(crate) fn draft_add(
    draft: &mut Draft,
    key: &Word,
    time: u64,
    value: Units,
    on: Option<Policy>,
    spec: &Spec,
) -> Result<(), AllocError>
    ensures { OnOk result
        (AppendsWords draft.old draft.new
        (record_words 0 (command.Add key.now (Time time) value on (spec_of spec.now)))) }
{
    draft.put(b"TS.ADD")?;
    draft.put_word(key)?;
    draft.put_number(time)?;
    draft.put_value(value)?;
    draft_on_duplicate(draft, on)?;
    draft_spec(draft, spec)
}

// TS.INCRBY, with its time resolved. A TS.DECRBY has a negative value.
pub(crate) fn draft_incr(
    draft: &mut Draft,
    key: &Word,
    change: Units,
    time: u64,
    spec: &Spec,
) -> Result<(), AllocError>
    ensures { OnOk result
        (AppendsWords draft.old draft.new
        (record_words 0 (command.Incr key.now change (Time time) (spec_of spec.now)))) }
{
    draft.put(b"TS.INCRBY")?;
    draft.put_word(key)?;
    draft.put_value(change)?;
    draft.put(b"TIMESTAMP")?;
    draft.put_number(time)?;
    draft_spec(draft, spec)
}

pub(crate) fn draft_del_range(
    draft: &mut Draft,
    key: &Word,
    from: u64,
    to: u64,
) -> Result<(), AllocError>
    ensures { OnOk result (AppendsWords draft.old draft.new (record_words 0 (command.DelRange key.now from to))) }
{
    draft.put(b"TS.DEL")?;
    draft.put_word(key)?;
    draft.put_number(from)?;
    draft.put_number(to)
}

pub(crate) fn draft_create_rule(
    draft: &mut Draft,
    source: &Word,
    dest: &Word,
    agg: Aggregator,
    align: u64,
    duration: u64,
) -> Result<(), AllocError>
    ensures { OnOk result
        (AppendsWords draft.old draft.new
        (record_words 0 (command.CreateRule source.now dest.now agg (record { align = align; duration = duration })))) }
{
    draft.put(b"TS.CREATERULE")?;
    draft.put_word(source)?;
    draft.put_word(dest)?;
    draft.put(b"AGGREGATION")?;
    draft_aggregator(draft, agg)?;
    draft.put_number(duration)?;
    draft.put_number(align)
}

fn draft_aggregator(draft: &mut Draft, agg: Aggregator) -> Result<(), AllocError>
    ensures { OnOk result (AppendsWords draft.old draft.new (aggregator_name agg ∷ [])) }
{
    draft.put(name(agg).as_bytes())
}

pub(crate) fn draft_delete_rule(
    draft: &mut Draft,
    source: &Word,
    dest: &Word,
) -> Result<(), AllocError>
    ensures { OnOk result (AppendsWords draft.old draft.new (record_words 0 (command.DeleteRule source.now dest.now))) }
{
    draft.put(b"TS.DELETERULE")?;
    draft.put_word(source)?;
    draft.put_word(dest)
}

pub(crate) fn draft_drop(draft: &mut Draft, keys: &[Word]) -> Result<(), AllocError>
    ensures { OnOk result (AppendsWords draft.old draft.new (record_words 0 (command.Drop keys.now))) }
{
    draft.put(b"DEL")?;
    draft_keys(draft, keys)
}

fn draft_keys(draft: &mut Draft, keys: &[Word]) -> Result<(), AllocError>
    ensures { OnOk result (AppendsWords draft.old draft.new keys.now) }
{
    for key in keys {
        draft.put_word(key)?;
    }
    Ok(())
}

// A sample of TS.MADD, with its time resolved.
pub(crate) fn draft_sample(
    draft: &mut Draft,
    key: &Word,
    time: u64,
    value: Units,
) -> Result<(), AllocError>
    ensures { OnOk result (AppendsWords draft.old draft.new (sample_words 0 key.now (Ok (Time time)) (Ok value))) }
{
    draft.put_word(key)?;
    draft.put_number(time)?;
    draft.put_value(value)
}

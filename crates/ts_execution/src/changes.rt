// The commands that change one series, and those that create and delete compaction rules.
ghost use Rattle.std.specs.Prelude.{◌≡◌, ◌≤◌, ◌+◌, ◌*◌};
ghost use Rattle.ts_spec.specs.Sample.{MAX_TIME};
ghost use Rattle.ts_spec.specs.Settings.{IsTime};
ghost use Rattle.ts_spec.specs.Step.{time_of, create, alter, add, incr, delete, create_rule, delete_rule};
ghost use Rattle.ts_labels.specs.Spec.{spec_of, change_of};
ghost use Rattle.ts_resp.specs.Replies.{reply_of};
ghost use Rattle.ts_db.specs.Bounds.{write_steps, deletion_steps};
ghost use Rattle.ts_db.specs.DbState.{Simulates, reach_at};
ghost use Rattle.ts_questions.specs.Answering.{IsShort};
ghost use Rattle.ts_execution.specs.Handling.{StepOrOutOfMemory, IsStep};

use crate::answers::{done_reply, number_reply};
use std::sync::ledger::Ledger;
use ts_bucket::Grid;
use ts_db::{Change, Db, Spec};
use ts_resp::{Reply, Word};
use ts_sample::{MAX_TIME, Steps, Units};
use ts_spec::{Aggregator, At, Policy};

/// The reply to TS.CREATE.
pub(crate) fn create(db: &mut Db, key: Word, spec: Spec) -> Reply
    ensures answer { Simulates db.old db.new
        (λ from to. StepOrOutOfMemory (create from.limits from.state key (spec_of spec)) from (reply_of result) to) }
    ensures short { IsShort (reply_of result) }
{
    done_reply(db.create(key, spec))
}

/// The reply to TS.ALTER.
pub(crate) fn alter<L: Ledger>(
    db: &mut Db,
    key: &Word,
    change: Change,
    steps: &mut Steps<L>,
) -> Reply
    ensures answer { Simulates db.old db.new
        (λ from to. StepOrOutOfMemory (alter from.limits from.state key.now (change_of change)) from (reply_of result)
        to) }
    ensures short { IsShort (reply_of result) }
    ensures steps { steps.new ≤ steps.old + 2 * reach_at db.old key.now }
{
    done_reply(db.alter(key, change, steps))
}

/// The reply to TS.ADD.
pub(crate) fn add<L: Ledger>(
    db: &mut Db,
    key: Word,
    time: u64,
    value: Units,
    on: Option<Policy>,
    spec: Spec,
    steps: &mut Steps<L>,
) -> Reply
    requires { time ≤ MAX_TIME }
    ensures answer { Simulates db.old db.new
        (λ from to. StepOrOutOfMemory (add from.limits from.state key time value on (spec_of spec)) from
        (reply_of result)
        to) }
    ensures short { IsShort (reply_of result) }
    ensures steps { steps.new ≤ steps.old + write_steps db.old key time }
{
    number_reply(db.add(key, time, value, on, spec, steps))
}

/// The reply to TS.INCRBY and TS.DECRBY.
pub(crate) fn incr<L: Ledger>(
    db: &mut Db,
    key: Word,
    change: Units,
    time: u64,
    spec: Spec,
    steps: &mut Steps<L>,
) -> Reply
    requires { time ≤ MAX_TIME }
    ensures answer { Simulates db.old db.new
        (λ from to. StepOrOutOfMemory (incr from.limits from.state key change time (spec_of spec)) from
        (reply_of result)
        to) }
    ensures short { IsShort (reply_of result) }
    ensures steps { steps.new ≤ steps.old + write_steps db.old key time }
{
    number_reply(db.incr(key, change, time, spec, steps))
}

/// The reply to TS.DEL: how many samples were deleted.
pub(crate) fn delete<L: Ledger>(
    db: &mut Db,
    key: &Word,
    from: u64,
    to: u64,
    steps: &mut Steps<L>,
) -> Reply
    requires time { from ≤ MAX_TIME }
    ensures answer { Simulates db.old db.new
        (λ h h'. StepOrOutOfMemory (delete h.limits h.state key.now from to) h (reply_of result) h') }
    ensures short { IsShort (reply_of result) }
    ensures steps { steps.new ≤ steps.old + deletion_steps db.old key.now from to }
{
    number_reply(db.delete_range(key, from, to, steps))
}

/// The time of a sample in milliseconds: as given, or the clock reading, capped at `MAX_TIME`.
pub(crate) fn time_at(at: At, reading: u64) -> u64
    requires { IsTime at }
    ensures time { result ≡ time_of reading at }
    ensures bound { result ≤ MAX_TIME }
{
    match at {
        At::Clock => reading.min(MAX_TIME),
        At::Time(time) => time,
    }
}

/// The reply to TS.CREATERULE.
pub(crate) fn create_rule(
    db: &mut Db,
    source: &Word,
    dest: &Word,
    agg: Aggregator,
    grid: Grid,
) -> Reply
    ensures answer { Simulates db.old db.new
        (λ from to. StepOrOutOfMemory (create_rule from.limits from.state source.now dest.now agg grid) from
        (reply_of result) to) }
    ensures short { IsShort (reply_of result) }
{
    done_reply(db.create_rule(source, dest, agg, grid))
}

/// The reply to TS.DELETERULE. Allocates nothing.
pub(crate) fn delete_rule(db: &mut Db, source: &Word, dest: &Word) -> Reply
    ensures answer { Simulates db.old db.new
        (λ from to. IsStep (delete_rule from.state source.now dest.now) from (reply_of result) to) }
    ensures short { IsShort (reply_of result) }
{
    done_reply(db.delete_rule(source, dest))
}

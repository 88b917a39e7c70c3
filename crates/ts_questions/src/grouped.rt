// Writes the groups of many series.
ghost use Rattle.std.specs.Prelude.{◌≡◌, ◌+◌, ◌≤◌, ◌++◌, All, true, false, length, sum_by, IfErr, IfOk};
ghost use Rattle.std.specs.List.{list_any};
ghost use Rattle.std.specs.Result.{is_err};
ghost use Rattle.ts_spec.specs.Replies.{array};
ghost use Rattle.ts_spec.specs.Text.{text};
ghost use Rattle.ts_db.specs.Faults.{key_of_id};
ghost use Rattle.ts_questions.specs.GroupQuery.{IsGroupQuery, IsIdOfOneKey, group_reply, is_group_refused, group_steps};
ghost use Rattle.ts_questions.specs.GroupQuery.{groups_of_ids, is_too_long, id_steps, ids_steps, refusals};

use crate::by_value::by_value;
use crate::gathering::gather;
use crate::group_query::GroupQuery;
use crate::members::begin_members;
use crate::multi_reply::MultiReply;
use std::alloc::AllocError;
use std::sync::ledger::Ledger;
use ts_db::{Db, Id};
use ts_group::{Group, GroupOptions, encode_group_of};
use ts_range::RangeFault;
use ts_resp::{Out, Word};
use ts_sample::Steps;

/// Writes the array of the groups of these series. Fails if a series with the label has too many rows. Returns whether
/// memory ran out. In both cases the output may end in part of the array.
pub(crate) fn add_groups<L: Ledger>(
    db: &Db,
    ids: &[Id],
    group_query: &GroupQuery,
    out: &mut Out,
    steps: &mut Steps<L>,
) -> Result<bool, RangeFault>
    requires numbered { All (IsIdOfOneKey db.now.ids) ids.now }
    requires group_query { IsGroupQuery group_query.now }
    ensures few { IfOk result (λ lost. refusals db.now group_query.now ids.now ≡ 0) }
    ensures added { IfOk result (λ lost. lost ≡ false
        → out.new.bytes ≡ out.old.bytes ++ text (array (groups_of_ids db.now group_query.now ids.now))) }
    ensures refused { IfErr result (λ fault. 1 ≤ refusals db.now group_query.now ids.now) }
    ensures room { length out.old.bytes + out.old.spare ≤ length out.new.bytes + out.new.spare }
    ensures steps { steps.new ≤ steps.old + ids_steps db.now group_query.now ids.now }
{
    let Ok(groups) = by_value(db, ids, group_query) else {
        return lost_unless_refused(db, ids, group_query, steps);
    };
    let mut lost = begin_members(groups.len(), out);
    for (value, numbers) in groups.iter() {
        lost = add_group(db, value, numbers.all(), group_query, lost, out, steps)?;
    }
    Ok(lost)
}

// Returns that memory ran out, or fails if a series with the label has too many rows. Allocates nothing.
fn lost_unless_refused<L: Ledger>(
    db: &Db,
    ids: &[Id],
    group_query: &GroupQuery,
    steps: &mut Steps<L>,
) -> Result<bool, RangeFault>
    requires { All (IsIdOfOneKey db.now.ids) ids.now }
    ensures few { IfOk result (λ lost. refusals db.now group_query.now ids.now ≡ 0) }
    ensures lost { IfOk result (λ lost. lost ≡ true) }
    ensures refused { IfErr result (λ fault. 1 ≤ refusals db.now group_query.now ids.now) }
    ensures steps { steps.new ≤ steps.old + ids_steps db.now group_query.now ids.now }
{
    for id in ids {
        if is_number_refused(db, *id, group_query, steps) {
            return Err(RangeFault::EmptyRows);
        }
    }
    Ok(true)
}

// Whether a series has the label and too many rows. Allocates nothing.
fn is_number_refused<L: Ledger>(
    db: &Db,
    id: Id,
    group_query: &GroupQuery,
    steps: &mut Steps<L>,
) -> bool
    requires { IsIdOfOneKey db.now.ids id }
    ensures refused { result ≡ is_group_refused group_query.now db.now (key_of_id db.now.ids id) }
    ensures steps { steps.new ≤ steps.old + group_steps group_query.now db.now (key_of_id db.now.ids id) }
{
    group_query.is_refused(db, id, steps)
}

// Writes the group of `value`, or after memory ran out only checks that the rows are not too many. Returns whether
// memory ran out.
fn add_group<L: Ledger>(
    db: &Db,
    value: &Word,
    ids: &[Id],
    group_query: &GroupQuery,
    before: bool,
    out: &mut Out,
    steps: &mut Steps<L>,
) -> Result<bool, RangeFault>
    requires numbered { All (IsIdOfOneKey db.now.ids) ids.now }
    requires group_query { IsGroupQuery group_query.now }
    ensures few { IfOk result (λ lost. list_any (is_too_long db.now group_query.now) ids.now ≡ false) }
    ensures added { IfOk result (λ lost. lost ≡ false
        → out.new.bytes ≡ out.old.bytes ++ text (group_reply db.now group_query.now value.now ids.now)) }
    ensures stays { IfOk result (λ lost. lost ≡ false → before ≡ false) }
    ensures refused { IfErr result (λ fault. list_any (is_too_long db.now group_query.now) ids.now ≡ true) }
    ensures room { length out.old.bytes + out.old.spare ≤ length out.new.bytes + out.new.spare }
    ensures steps { steps.new ≤ steps.old + sum_by (id_steps db.now group_query.now) ids.now }
{
    let mut group = Group::new(db.alloc());
    let lost = gather(db, ids, group_query, before, &mut group, steps)?;
    if lost {
        return Ok(true);
    }
    let options = GroupOptions {
        by: &group_query.by,
        show: &group_query.show,
        count: group_query.count,
        reverse: group_query.query.reverse,
    };
    Ok(is_lost(encode_group_of(db.alloc(), &group, value, &options, out)))
}

// Whether memory ran out.
fn is_lost(done: Result<(), AllocError>) -> bool
    ensures { result ≡ is_err done }
{
    done.is_err()
}

// Adds the series of a group one by one and reduces their rows. After an `Err` the group may have some of them.
ghost use Rattle.std.specs.Prelude.{◌≡◌, ◌+◌, ◌≤◌, All, [], ◌∷◌, true, false, sum_by, OnOk, IfErr, IfOk};
ghost use Rattle.std.specs.List.{list_any};
ghost use Rattle.ts_questions.specs.GroupQuery.{IsGroupQuery, IsIdOfOneKey, AreAddedTo, is_too_long, id_steps};
ghost use Rattle.ts_questions.specs.Members.{is_too_many};

use crate::group_query::GroupQuery;
use crate::member::{in_memory, lost, rows_of};
use crate::row_plans::has_too_many_rows;
use crate::series_query::SeriesQuery;
use std::alloc::AllocError;
use std::sync::ledger::Ledger;
use ts_db::{Db, Id};
use ts_group::Group;
use ts_range::RangeFault;
use ts_sample::Steps;

/// Adds the series with these ids, which have the label. Fails if one of them has too many rows. Returns whether memory
/// ran out, now or `before`; then only some series may have been added.
pub(crate) fn gather<L: Ledger>(
    db: &Db,
    ids: &[Id],
    group_query: &GroupQuery,
    before: bool,
    group: &mut Group,
    steps: &mut Steps<L>,
) -> Result<bool, RangeFault>
    requires numbered { All (IsIdOfOneKey db.now.ids) ids.now }
    requires group_query { IsGroupQuery group_query.now }
    ensures few { IfOk result (λ lost. list_any (is_too_long db.now group_query.now) ids.now ≡ false) }
    ensures gathered { IfOk result (λ lost. lost ≡ false
        → AreAddedTo db.now group_query.now ids.now group.old group.new) }
    ensures stays { IfOk result (λ lost. lost ≡ false → before ≡ false) }
    ensures refused { IfErr result (λ fault. list_any (is_too_long db.now group_query.now) ids.now ≡ true) }
    ensures steps { steps.new ≤ steps.old + sum_by (id_steps db.now group_query.now) ids.now }
{
    let mut lost = before;
    for id in ids {
        lost = gather_next(db, *id, group_query, lost, group, steps)?;
    }
    Ok(lost)
}

// Adds one series, or after memory ran out only checks that its rows are not too many. Returns whether memory ran out.
fn gather_next<L: Ledger>(
    db: &Db,
    id: Id,
    group_query: &GroupQuery,
    lost: bool,
    group: &mut Group,
    steps: &mut Steps<L>,
) -> Result<bool, RangeFault>
    requires numbered { IsIdOfOneKey db.now.ids id }
    requires group_query { IsGroupQuery group_query.now }
    ensures few { IfOk result (λ now. is_too_long db.now group_query.now id ≡ false) }
    ensures added { IfOk result (λ now. now ≡ false → AreAddedTo db.now group_query.now (id ∷ []) group.old group.new) }
    ensures stays { IfOk result (λ now. now ≡ false → lost ≡ false) }
    ensures refused { IfErr result (λ fault. is_too_long db.now group_query.now id ≡ true) }
    ensures steps { steps.new ≤ steps.old + id_steps db.now group_query.now id }
{
    if lost {
        if is_too_long(db, id, group_query, steps) {
            return Err(RangeFault::EmptyRows);
        }
        return Ok(true);
    }
    match add_series(db, id, group_query, group, steps) {
        Ok(()) => Ok(false),
        Err(RangeFault::Memory(_)) => Ok(true),
        Err(RangeFault::EmptyRows) => Err(RangeFault::EmptyRows),
    }
}

// Whether a series has too many rows. Allocates nothing.
fn is_too_long<L: Ledger>(db: &Db, id: Id, group_query: &GroupQuery, steps: &mut Steps<L>) -> bool
    requires { IsIdOfOneKey db.now.ids id }
    ensures long { result ≡ is_too_long db.now group_query.now id }
    ensures steps { steps.new ≤ steps.old + id_steps db.now group_query.now id }
{
    has_too_many_rows(db, id, group_query.latest, &group_query.query, steps)
}

// Adds one series. Fails if it has too many rows, or if there is no memory.
fn add_series<L: Ledger>(
    db: &Db,
    id: Id,
    group_query: &GroupQuery,
    group: &mut Group,
    steps: &mut Steps<L>,
) -> Result<(), RangeFault>
    requires numbered { IsIdOfOneKey db.now.ids id }
    requires group_query { IsGroupQuery group_query.now }
    ensures few { OnOk result (is_too_long db.now group_query.now id ≡ false) }
    ensures added { OnOk result (AreAddedTo db.now group_query.now (id ∷ []) group.old group.new) }
    ensures fault { IfErr result (λ fault. is_too_many fault ≡ is_too_long db.now group_query.now id) }
    ensures steps { steps.new ≤ steps.old + id_steps db.now group_query.now id }
{
    let Some(filters) = &group_query.filters else {
        return Err(lost(is_too_long(db, id, group_query, steps)));
    };
    let series_query = SeriesQuery::new(db, id, group_query.latest, &group_query.query, filters);
    let rows = rows_of(&series_query, steps)?;
    in_memory(group.add_rows(db.key_of(id).bytes(), &rows))
}

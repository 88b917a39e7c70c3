// Groups series ids by the value of a label.
ghost use Rattle.std.specs.Prelude.{◌≡◌, ◌++◌, ℕ, All, List, [], ◌∷◌, Some, OnOk, IfOk};
ghost use Rattle.ts_spec.specs.Filter.{value_of};
ghost use Rattle.ts_spec.specs.Groups.{Labelled};
ghost use Rattle.ts_sample.specs.declared.sample.Id.{Id as TheId};
ghost use Rattle.ts_group.specs.Sorted.{by_values_of};
ghost use Rattle.ts_db.specs.DbState.{IsLive};
ghost use Rattle.ts_questions.specs.GroupQuery.{IsIdOfOneKey, numbered};

use crate::group_query::GroupQuery;
use std::alloc::{AllocError, Global};
use std::collections::BTreeMap;
use std::marker::Model;
use ts_db::{Db, Id};
use ts_resp::Word;

/// The ids of the series with one value, in the order of their keys.
#[derive(Drop)]
pub(crate) struct SeriesIds {
    ids: Vec<Id>,
}

impl Model for SeriesIds {
    ghost use Rattle.std.specs.Prelude.{List};
    ghost use Rattle.ts_sample.specs.declared.sample.Id.{Id as TheId};

    ghost Value = { List TheId };

    ghost view = { λ n. n.ids.items };
}

impl SeriesIds {
    fn new(alloc: Global) -> SeriesIds
        ensures { result ≡ [] }
    {
        SeriesIds {
            ids: Vec::new(alloc),
        }
    }

    // Appends an id.
    fn add(&mut self, id: Id) -> Result<(), AllocError>
        ensures { OnOk result (self.new ≡ self.old ++ id ∷ []) }
    {
        self.ids.push(id)?;
        Ok(())
    }

    /// All ids.
    pub(crate) fn all(&self) -> &[Id]
        ensures { result.now ≡ self.now }
    {
        &self.ids
    }
}

/// The ids of the series with each value.
pub(crate) type ByValue = BTreeMap<Word, SeriesIds>;

/// Groups series by their value of the label. Series without the label are left out.
pub(crate) fn by_value(db: &Db, ids: &[Id], group_query: &GroupQuery) -> Result<ByValue, AllocError>
    requires { All (IsIdOfOneKey db.now.ids) ids.now }
    ensures { IfOk result (λ groups. groups.entries
        ≡ by_values_of (numbered db.now group_query.now) group_query.now.by.label ids.now) }
{
    let mut groups = BTreeMap::new(db.alloc());
    for id in ids {
        add_id(db, *id, group_query, &mut groups)?;
    }
    Ok(groups)
}

// Adds a series to the group of its value, if it has the label.
fn add_id(db: &Db, id: Id, group_query: &GroupQuery, groups: &mut ByValue) -> Result<(), AllocError>
    requires { IsIdOfOneKey db.now.ids id }
    ensures { OnOk result ((ns : List TheId)
        → groups.old.entries ≡ by_values_of (numbered db.now group_query.now) group_query.now.by.label ns
        → groups.new.entries
        ≡ by_values_of (numbered db.now group_query.now) group_query.now.by.label (ns ++ id ∷ [])) }
{
    match db.labels_of(id).get(&group_query.by.label) {
        None => Ok(()),
        Some(value) => add_to(db.alloc(), groups, value, id),
    }
}

// Adds a series to the group of `value`.
fn add_to(alloc: Global, groups: &mut ByValue, value: &Word, id: Id) -> Result<(), AllocError>
    ensures { OnOk result ((series : TheId → Labelled) (label : List ℕ) (ns : List TheId)
        → value_of label (series id).labels ≡ Some value.now
        → groups.old.entries ≡ by_values_of series label ns
        → groups.new.entries ≡ by_values_of series label (ns ++ id ∷ [])) }
{
    match groups.get_mut(value) {
        Some(numbers) => numbers.add(id),
        None => {
            let mut numbers = SeriesIds::new(alloc);
            numbers.add(id)?;
            groups.insert(value.copy()?, numbers)?;
            Ok(())
        }
    }
}

/// Does nothing at run time. Its contract says that each id belongs to exactly one key.
pub(crate) fn known_ids(db: &Db, ids: &[Id])
    requires { All (IsLive db.now.ids) ids.now }
    ensures { All (IsIdOfOneKey db.now.ids) ids.now }
{
    for id in ids {
        known_id(db, *id);
    }
}

// Does nothing at run time. Its contract says that the id belongs to exactly one key.
fn known_id(db: &Db, id: Id)
    requires { IsLive db.now.ids id }
    ensures { IsIdOfOneKey db.now.ids id }
{
    let _key = db.key_of(id);
}

// Posting lists by label and value.
ghost use Rattle.std.specs.Prelude.{◌≡◌, [], ℕ, List, ◌&&◌, if◌then◌else◌, true, IsTrue, OnOk, OnErr};
ghost use Rattle.ts_index.specs.Numbers.{AreAscending, AreSorted, has_id, with_id, cleared};
ghost use Rattle.ts_index.specs.Postings.{alike, posting_in, by_value};

use crate::taking::take;
use std::alloc::{AllocError, Global};
use std::collections::BTreeMap;
use ts_resp::Word;
use ts_sample::Id;

// The posting lists by label, then by value.
pub(crate) type Lists = BTreeMap<Word, Values>;

// The posting list of a label and value.
pub(crate) fn posting_list<'a>(lists: &'a Lists, label: &Word, value: &Word) -> &'a [Id]
    ensures { result.now ≡ posting_in label.now value.now lists.now }
{
    let Some(values) = lists.get(label) else {
        return &[];
    };
    match values.get(value) {
        Some(list) => list.as_slice(),
        None => &[],
    }
}

// Adds an id to the posting list of a label and value.
pub(crate) fn insert_pair(
    alloc: Global,
    lists: &mut Lists,
    label: &Word,
    value: &Word,
    id: Id,
) -> Result<(), AllocError>
    requires { AreAscending (posting_in label.now value.now lists.old) }
    ensures ok { OnOk result ((l v : List ℕ)
        → posting_in l v lists.new
        ≡ (if alike label.now l && alike value.now v then with_id id (posting_in l v lists.old) else posting_in l v
        lists.old)) }
    ensures err { OnErr result ((l v : List ℕ) → posting_in l v lists.new ≡ posting_in l v lists.old) }
{
    match lists.get_mut(label) {
        Some(values) => insert_value(alloc, values, value, id),
        None => {
            let mut values = BTreeMap::new(alloc);
            insert_value(alloc, &mut values, value, id)?;
            lists.insert(label.copy()?, values)?;
            Ok(())
        }
    }
}

// Removes these ids from the posting list of a label and value, if `id` is one of its ids. Drops the label once it has
// no posting lists left.
pub(crate) fn remove_pair(lists: &mut Lists, label: &Word, value: &Word, id: Id, ids: &[Id])
    requires ascending { AreAscending (posting_in label.now value.now lists.old) }
    requires sorted { AreSorted ids.now }
    requires among { has_id id.0 ids.now ≡ true }
    ensures { (l v : List ℕ)
        → posting_in l v lists.new
        ≡ (if alike label.now l && alike value.now v then cleared id ids.now (posting_in l v lists.old) else posting_in
        l v lists.old) }
{
    if remove_from_label(lists, label, value, id, ids) {
        let _empty = lists.remove(label);
    }
}

// Removes these ids from the posting list of a label and value, if `id` is one of its ids. Returns `true` if the label
// has no posting lists left.
fn remove_from_label(lists: &mut Lists, label: &Word, value: &Word, id: Id, ids: &[Id]) -> bool
    requires ascending { AreAscending (posting_in label.now value.now lists.old) }
    requires sorted { AreSorted ids.now }
    requires among { has_id id.0 ids.now ≡ true }
    ensures lists { (l v : List ℕ)
        → posting_in l v lists.new
        ≡ (if alike label.now l && alike value.now v then cleared id ids.now (posting_in l v lists.old) else posting_in
        l v lists.old) }
    ensures empty { IsTrue result → (v : List ℕ) → posting_in label.now v lists.new ≡ [] }
{
    match lists.get_mut(label) {
        Some(values) => {
            remove_value(values, value, id, ids);
            values.is_empty()
        }
        None => false,
    }
}

pub(crate) type Values = BTreeMap<Word, Vec<Id>>;

// Adds an id to the posting list of a value.
pub(crate) fn insert_value(
    alloc: Global,
    values: &mut Values,
    value: &Word,
    id: Id,
) -> Result<(), AllocError>
    requires { AreAscending (by_value value.now values.old) }
    ensures ok { OnOk result ((v : List ℕ)
        → by_value v values.new
        ≡ (if alike value.now v then with_id id (by_value v values.old) else by_value v values.old)) }
    ensures err { OnErr result ((v : List ℕ) → by_value v values.new ≡ by_value v values.old) }
{
    match values.get_mut(value) {
        Some(list) => insert_id(list, id),
        None => {
            let mut list = Vec::new(alloc);
            list.push(id)?;
            values.insert(value.copy()?, list)?;
            Ok(())
        }
    }
}

// Removes these ids from the posting list of a value, if `id` is one of its ids. Drops the list once it is empty.
pub(crate) fn remove_value(values: &mut Values, value: &Word, id: Id, ids: &[Id])
    requires ascending { AreAscending (by_value value.now values.old) }
    requires sorted { AreSorted ids.now }
    requires among { has_id id.0 ids.now ≡ true }
    ensures { (v : List ℕ)
        → by_value v values.new
        ≡ (if alike value.now v then cleared id ids.now (by_value v values.old) else by_value v values.old) }
{
    if remove_from_posting(values, value, id, ids) {
        let _empty = values.remove(value);
    }
}

// Removes these ids from the posting list of a value, if `id` is one of its ids. Returns `true` if the list is empty
// now.
fn remove_from_posting(values: &mut Values, value: &Word, id: Id, ids: &[Id]) -> bool
    requires ascending { AreAscending (by_value value.now values.old) }
    requires sorted { AreSorted ids.now }
    requires among { has_id id.0 ids.now ≡ true }
    ensures lists { (v : List ℕ)
        → by_value v values.new
        ≡ (if alike value.now v then cleared id ids.now (by_value v values.old) else by_value v values.old) }
    ensures empty { IsTrue result → by_value value.now values.new ≡ [] }
{
    match values.get_mut(value) {
        Some(list) => {
            take(list, id, ids);
            list.is_empty()
        }
        None => false,
    }
}

// Inserts an id into a sorted list.
#[tactic(auto, using(crate::proofs::PlaceLemmas::inserted, crate::proofs::PlaceLemmas::already))]
pub(crate) fn insert_id(list: &mut Vec<Id>, id: Id) -> Result<(), AllocError>
    requires { AreAscending list.old.items }
    ensures ok { OnOk result (list.new.items ≡ with_id id list.old.items) }
    ensures err { OnErr result (list.new.items ≡ list.old.items) }
{
    if let Err(place) = list.binary_search(&id) {
        list.insert(place, id)?;
    }
    Ok(())
}

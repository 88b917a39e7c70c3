// Sorts ids by their keys.
ghost use Rattle.std.specs.Prelude.{◌≡◌, IfOk, IfSome};
ghost use Rattle.std.specs.Cmp.Lexicographic.{slice_cmp};
ghost use Rattle.std.specs.List.Sorted.{IsPermutation, IsSortedByKey};
ghost use Rattle.std.specs.Ordering.{nat_cmp};
ghost use Rattle.ts_index.specs.Numbers.{AreAscending, has_id};
ghost use Rattle.ts_db.specs.KeyOrder.{among};
ghost use Rattle.ts_db.specs.Store.{key_in};

use crate::nodes::Nodes;
use std::alloc::{AllocError, Global};
use std::collections::BTreeMap;
use ts_resp::Word;
use ts_sample::Id;

// From this many keys per selected id, sorting the ids is faster than scanning all keys.
const KEYS_PER_ID: usize = 8;

// Sorts many ids by key, by scanning all keys. Returns `None` if the ids are few or memory runs out; the caller then
// sorts in place.
pub(crate) fn in_key_order_if_many(
    alloc: Global,
    keys: &BTreeMap<Word, Id>,
    ids: &[Id],
) -> Option<Vec<Id>>
    requires { AreAscending ids.now }
    ensures { IfSome result (λ found. found.items ≡ among ids.now keys.now.entries) }
{
    if ids.len() <= keys.len() / KEYS_PER_ID {
        return None;
    }
    in_key_order(alloc, keys, ids).ok()
}

// The given ids in key order, collected by scanning all keys.
fn in_key_order(alloc: Global, keys: &BTreeMap<Word, Id>, ids: &[Id]) -> Result<Vec<Id>, AllocError>
    requires { AreAscending ids.now }
    ensures { IfOk result (λ found. found.items ≡ among ids.now keys.now.entries) }
{
    let mut found = Vec::with_capacity(alloc, ids.len())?;
    for (_key, id) in keys.iter() {
        if is_one_of(*id, ids) {
            found.push(*id)?;
        }
    }
    Ok(found)
}

// Whether the list contains the id. Tries the index `id` first: without gaps that is where it is.
fn is_one_of(id: Id, ids: &[Id]) -> bool
    requires { AreAscending ids.now }
    ensures { result ≡ has_id id.0 ids.now }
{
    if let Some(there) = ids.get(id.0)
        && *there == id
    {
        return true;
    }
    match ids.binary_search(&id) {
        Ok(_place) => true,
        Err(_place) => false,
    }
}

impl Nodes {
    // The key of an id, or no bytes if there is no node.
    fn key_at(&self, id: Id) -> &[u8]
        ensures { result.now ≡ key_in self.now id }
    {
        match self.get(id.0) {
            Some(node) => node.key.bytes(),
            None => &[],
        }
    }

    // Sorts ids by key in place. Allocates nothing.
    pub(crate) fn sort_by_key(&self, ids: &mut Vec<Id>)
        ensures moved { IsPermutation ids.old.items ids.new.items }
        ensures sorted { IsSortedByKey (key_in self.now) (slice_cmp nat_cmp) ids.new.items }
    {
        ids.sort_unstable_by(|a, b| self.key_at(*a).cmp(self.key_at(*b)));
    }
}

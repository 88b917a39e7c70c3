// Takes the labels away from many ids at once.
ghost use Rattle.std.specs.Prelude.{◌≡◌, ℕ, List, ◌==◌, true, false, if◌then◌else◌};
ghost use Rattle.ts_index.specs.Index.{has_pair, labels_of};
ghost use Rattle.ts_index.specs.Numbers.{AreAscending, AreInOrder, AreSorted, has_id, pass};
ghost use Rattle.ts_index.specs.Postings.{posting_in, ArePosted};
ghost use Rattle.ts_index.specs.Clearing.{Loses, none_left};

use crate::index::Index;
use crate::lists::{Lists, remove_pair};
use std::alloc::Global;
use std::collections::BTreeMap;
use ts_labels::Labels;
use ts_sample::Id;

impl Index {
    /// Takes all labels away from these ids; ids that are not in the index are ignored. Goes through each posting list
    /// once, however many of the ids it has. Allocates nothing.
    pub fn clear_labels(&mut self, ids: &[Id])
        requires sorted { AreSorted ids.now }
        ensures { (i : ℕ)
            → labels_of i self.new
            ≡ (if has_id i ids.now then none_left (labels_of i self.old) else labels_of i self.old) }
    {
        self.known();
        clear_lists(&self.labels, &mut self.lists, ids);
        clear_entries(self.alloc, &mut self.labels, ids);
    }
}

// Removes these ids from the posting lists of all their labels.
fn clear_lists(labels: &BTreeMap<usize, Labels>, lists: &mut Lists, ids: &[Id])
    requires sorted { AreSorted ids.now }
    requires order { AreInOrder labels.now.entries }
    requires posted { ArePosted labels.now.entries lists.old }
    ensures loses { Loses ids.now lists.old lists.new }
    ensures gone { (l v : List ℕ) (q : ℕ) → has_id q ids.now ≡ true → has_id q (posting_in l v lists.new) ≡ false }
{
    for id in ids {
        clear_id(labels, lists, *id, ids);
    }
}

// Removes `id` from the posting lists of its labels, if it is in the index, and these ids together with it.
fn clear_id(labels: &BTreeMap<usize, Labels>, lists: &mut Lists, id: Id, ids: &[Id])
    requires sorted { AreSorted ids.now }
    requires among { has_id id.0 ids.now ≡ true }
    requires ascending { (l v : List ℕ) → AreAscending (posting_in l v lists.old) }
    requires listed { (l v : List ℕ) → has_id id.0 (posting_in l v lists.old) ≡ true
        → pass (has_pair l v) (labels_of id.0 labels.now.entries) ≡ true }
    ensures loses { Loses ids.now lists.old lists.new }
    ensures gone { (l v : List ℕ) → has_id id.0 (posting_in l v lists.new) ≡ false }
{
    if let Some(own) = labels.get(&id.0) {
        clear_pairs(lists, id, own, ids);
    }
}

// Removes `id` from the posting lists of these labels, and these ids together with it.
fn clear_pairs(lists: &mut Lists, id: Id, labels: &Labels, ids: &[Id])
    requires sorted { AreSorted ids.now }
    requires among { has_id id.0 ids.now ≡ true }
    requires ascending { (l v : List ℕ) → AreAscending (posting_in l v lists.old) }
    ensures loses { Loses ids.now lists.old lists.new }
    ensures gone { (l v : List ℕ) → has_pair l v labels.now ≡ true → has_id id.0 (posting_in l v lists.new) ≡ false }
{
    labels.known();
    for i in 0..labels.len() {
        remove_pair(lists, labels.label_at(i), labels.value_at(i), id, ids);
    }
}

// Takes the labels stored for these ids away.
fn clear_entries(alloc: Global, labels: &mut BTreeMap<usize, Labels>, ids: &[Id])
    requires order { AreInOrder labels.old.entries }
    ensures cleared { (i : ℕ)
        → labels_of i labels.new.entries
        ≡ (if has_id i ids.now then none_left (labels_of i labels.old.entries) else labels_of i labels.old.entries) }
    ensures order { AreInOrder labels.new.entries }
{
    for id in ids {
        clear_entry(alloc, labels, *id);
    }
}

// Takes the labels stored for one id away.
fn clear_entry(alloc: Global, labels: &mut BTreeMap<usize, Labels>, id: Id)
    requires order { AreInOrder labels.old.entries }
    ensures cleared { (i : ℕ)
        → labels_of i labels.new.entries
        ≡ (if i == id.0 then none_left (labels_of i labels.old.entries) else labels_of i labels.old.entries) }
    ensures order { AreInOrder labels.new.entries }
{
    if let Some(kept) = labels.get_mut(&id.0) {
        *kept = Labels::new(alloc);
    }
}

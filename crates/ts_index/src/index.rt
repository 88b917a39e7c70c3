// The index and its updates.
ghost use Rattle.std.specs.Prelude.{◌≡◌, [], None, Some, IsSome, OnOk, OnErr};
ghost use Rattle.ts_index.specs.Index.{Relabels, labels_of, ids_where, has_pair};
ghost use Rattle.ts_index.specs.Numbers.{AreInOrder};

use crate::lists::{Lists, posting_list};
use crate::pairs::{insert_pairs, remove_pairs};
use std::alloc::{AllocError, Global};
use std::collections::BTreeMap;
use std::marker::Model;
use ts_labels::Labels;
use ts_resp::Word;
use ts_sample::Id;

/// An inverted index: the labels of each series id, and a posting list for each pair of label and value.
#[derive(Drop)]
pub struct Index {
    pub(crate) alloc: Global,
    pub(crate) labels: BTreeMap<usize, Labels>,
    pub(crate) lists: Lists,
}

impl Model for Index {
    ghost use Rattle.ts_index.specs.Index.{Labelled};

    ghost Value = { Labelled };

    ghost view = { λ i. i.labels.entries };

    ghost use Rattle.ts_index.specs.Postings.{ArePosted};

    ghost invariant = { λ i. ArePosted i.labels.entries i.lists };
}

impl Index {
    /// An empty index. Allocates nothing.
    pub fn new(alloc: Global) -> Index
        ensures { result ≡ [] }
    {
        Index {
            alloc,
            labels: BTreeMap::new(alloc),
            lists: BTreeMap::new(alloc),
        }
    }

    /// Lemma for callers: the ids are in ascending order. Does nothing.
    pub fn known(&self)
        ensures { AreInOrder self.now }
    {
        let _len = self.labels.len();
    }

    /// Adds a new id with these labels. On error the index is unchanged.
    pub fn insert(&mut self, id: Id, labels: &Labels) -> Result<(), AllocError>
        requires absent { labels_of id.0 self.old ≡ None }
        ensures ok { OnOk result (Relabels id (Some labels.now) self.old self.new) }
        ensures err { OnErr result (self.new ≡ self.old) }
    {
        self.known();
        let shared = labels.copy()?;
        let none = Labels::new(self.alloc);
        insert_pairs(self.alloc, &mut self.lists, id, labels, &none)?;
        match self.labels.insert(id.0, shared) {
            Ok(_) => Ok(()),
            Err(_) => {
                remove_pairs(&mut self.lists, id, labels, labels.len(), &none);
                Err(AllocError)
            }
        }
    }

    /// Removes an id that has these labels. Allocates nothing.
    pub fn remove(&mut self, id: Id, labels: &Labels)
        requires there { labels_of id.0 self.old ≡ Some labels.now }
        ensures { Relabels id None self.old self.new }
    {
        self.known();
        let none = Labels::new(self.alloc);
        remove_pairs(&mut self.lists, id, labels, labels.len(), &none);
        let _labels = self.labels.remove(&id.0);
    }

    /// Replaces the labels of an id. On error the index is unchanged.
    pub fn replace(&mut self, id: Id, old: &Labels, new: &Labels) -> Result<(), AllocError>
        requires there { labels_of id.0 self.old ≡ Some old.now }
        ensures ok { OnOk result (Relabels id (Some new.now) self.old self.new) }
        ensures err { OnErr result (self.new ≡ self.old) }
    {
        self.known();
        let shared = new.copy()?;
        insert_pairs(self.alloc, &mut self.lists, id, new, old)?;
        remove_pairs(&mut self.lists, id, old, old.len(), new);
        swap(&mut self.labels, id, shared);
        Ok(())
    }

    /// The posting list of a label and value: the ids in ascending order. Allocates nothing.
    pub fn posting(&self, label: &Word, value: &Word) -> &[Id]
        ensures { result.now ≡ ids_where (has_pair label.now value.now) self.now }
    {
        posting_list(&self.lists, label, value)
    }
}

// Replaces the labels stored for an id.
fn swap(labels: &mut BTreeMap<usize, Labels>, id: Id, new: Labels)
    requires there { IsSome (labels_of id.0 labels.old.entries) }
    ensures gives { Relabels id (Some new) labels.old.entries labels.new.entries }
    ensures order { AreInOrder labels.new.entries }
{
    if let Some(kept) = labels.get_mut(&id.0) {
        *kept = new;
    }
}

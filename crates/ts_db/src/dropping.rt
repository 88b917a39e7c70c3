// Deletes many keys at once (DEL). They lose their labels together first, so that the label index goes through each of
// its posting lists once, and not once for each key.
ghost use Rattle.std.specs.Prelude.{◌≡◌, ◌≤◌, length, IfOk};
ghost use Rattle.std.specs.List.{All};
ghost use Rattle.slab.specs.Slab as slab;
ghost use Rattle.ts_spec.specs.Response.{Count};
ghost use Rattle.ts_spec.specs.StoredStep.{stored_drop_keys};
ghost use Rattle.ts_index.specs.Numbers.{AreSorted};
ghost use Rattle.ts_db.specs.Dropping.{IsIdOf, unlabelled_at, all_unlabelled};
ghost use Rattle.ts_db.specs.Store.{db_view_of, IsInOrder, IsDb};

use crate::node::Node;
use crate::nodes::Nodes;
use crate::store::Store;
use slab::Slab;
use std::alloc::{AllocError, Global};
use ts_labels::Labels;
use ts_resp::Word;
use ts_sample::Id;

impl Store {
    // Deletes keys in order, each with its series and all rules from and to it. Returns how many existed; a repeated
    // key counts once.
    pub(crate) fn drop_keys(&mut self, keys: &[Word]) -> u64
        requires { IsDb self.old }
        ensures dropped { stored_drop_keys (db_view_of self.old).keys 0 keys.now
            ≡ record { keys = (db_view_of self.new).keys; response = Count result } }
        ensures bounded { result ≤ length keys.now }
        ensures limits { self.new.limits ≡ self.old.limits }
        ensures store { IsInOrder self.new }
    {
        self.clear_labels(keys);
        self.drop_each(keys)
    }

    // Takes the labels away from keys that are to be deleted. Does nothing for one key, which is as fast with its
    // labels, and where memory runs out: then each key is deleted with its labels.
    fn clear_labels(&mut self, keys: &[Word])
        requires { IsDb self.old }
        ensures db { IsDb self.new }
        ensures limits { self.new.limits ≡ self.old.limits }
        ensures same { stored_drop_keys (db_view_of self.new).keys 0 keys.now
            ≡ stored_drop_keys (db_view_of self.old).keys 0 keys.now }
    {
        if keys.len() < 2 {
            return;
        }
        if let Ok(ids) = self.sorted_ids(keys) {
            self.nodes.clear_labels(self.alloc, &ids);
        }
    }

    // The ids of those keys that exist, in ascending order. The id of a repeated key is repeated.
    fn sorted_ids(&self, keys: &[Word]) -> Result<Vec<Id>, AllocError>
        ensures sorted { IfOk result (λ ids. AreSorted ids.items) }
        ensures known { IfOk result (λ ids. All (IsIdOf keys.now self.now.keys.entries) ids.items) }
    {
        let mut ids = Vec::with_capacity(self.alloc, keys.len())?;
        for key in keys {
            if let Some(id) = self.keys.get(key) {
                ids.push(*id)?;
            }
        }
        ids.sort_unstable();
        Ok(ids)
    }

    // Deletes one key after another. Returns how many existed.
    fn drop_each(&mut self, keys: &[Word]) -> u64
        requires { IsDb self.old }
        ensures dropped { stored_drop_keys (db_view_of self.old).keys 0 keys.now
            ≡ record { keys = (db_view_of self.new).keys; response = Count result } }
        ensures bounded { result ≤ length keys.now }
        ensures limits { self.new.limits ≡ self.old.limits }
        ensures store { IsInOrder self.new }
    {
        let mut count = 0;
        for key in keys {
            if self.drop_key(key) {
                count += 1;
            }
        }
        count
    }
}

impl Nodes {
    // Takes the labels of these nodes away, also from the label index. Allocates nothing.
    fn clear_labels(&mut self, alloc: Global, ids: &[Id])
        requires { AreSorted ids.now }
        ensures { self.new ≡ all_unlabelled ids.now self.old }
    {
        self.index.clear_labels(ids);
        clear_nodes(alloc, &mut self.slab, ids);
    }
}

// Takes the labels of these nodes away.
fn clear_nodes(alloc: Global, nodes: &mut Slab<Node>, ids: &[Id])
    ensures { nodes.new ≡ all_unlabelled ids.now nodes.old }
{
    for id in ids {
        clear_node(alloc, nodes, *id);
    }
}

// Takes the labels of one node away, if there is one with this id.
fn clear_node(alloc: Global, nodes: &mut Slab<Node>, id: Id)
    ensures { nodes.new ≡ unlabelled_at id.0 nodes.old (slab.get nodes.old id.0) }
{
    if let Some(node) = nodes.get_mut(id.0) {
        node.labels = Labels::new(alloc);
    }
}

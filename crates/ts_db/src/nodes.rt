// Nodes by id, with the label index.
ghost use Rattle.std.specs.Prelude.{◌≡◌, ◌+◌, [], length, None, Some, IfOk, OnOk, OnErr, cond};
ghost use Rattle.std.specs.Option.{option_copied};
ghost use Rattle.slab.specs.Slab as slab;
ghost use Rattle.ts_spec.specs.Key.{Key};
ghost use Rattle.ts_db.specs.Indexed.{IsIndexed};
ghost use Rattle.ts_db.specs.Store.{has_key, id_for_key};
ghost use Rattle.ts_db.specs.NodeChanges.{IsAdded};

use crate::node::Node;
use slab::Slab;
use std::alloc::{AllocError, Global};
use std::collections::BTreeMap;
use std::marker::Model;
use ts_index::Index;
use ts_resp::Word;
use ts_sample::Id;

// Nodes by id, with an index over their labels.
#[derive(Drop)]
pub(crate) struct Nodes {
    pub(crate) slab: Slab<Node>,
    pub(crate) index: Index,
}

impl Model for Nodes {
    ghost use Rattle.slab.specs.Slab.{Slab as Slots};
    ghost use Rattle.ts_db.specs.declared.node.Node.{Node as TheNode};
    ghost use Rattle.ts_db.specs.Indexed.{IsIndexed};

    ghost Value = { Slots TheNode };

    ghost view = { λ n. n.slab };

    ghost invariant = { λ n. IsIndexed n.slab n.index };
}

impl Nodes {
    // No nodes. Allocates nothing.
    pub(crate) fn new(alloc: Global) -> Nodes
        ensures { result.slots ≡ [] }
    {
        Nodes {
            slab: Slab::new(alloc),
            index: Index::new(alloc),
        }
    }

    // The node with this id, if there is one.
    pub(crate) fn get(&self, number: usize) -> Option<&Node>
        ensures { option_copied result ≡ slab.get self.now number }
    {
        self.slab.get(number)
    }

    // The node with this id, which must exist.
    pub(crate) fn node(&self, id: Id) -> &Node
        requires { slab.ContainsKey self.now id.0 }
        ensures { slab.get self.now id.0 ≡ Some result.now }
    {
        &self.slab[id.0]
    }

    // The label index.
    pub(crate) fn index(&self) -> &Index
        ensures { IsIndexed self.now result.now }
    {
        &self.index
    }

    // Stores a node under a fresh id, and the id under a new key. Out of memory leaves both unchanged.
    pub(crate) fn insert(
        &mut self,
        keys: &mut BTreeMap<Word, Id>,
        key: Word,
        node: Node,
    ) -> Result<Id, AllocError>
        requires { id_for_key key keys.old.entries ≡ None }
        ensures added { IfOk result (λ id. IsAdded self.old self.new id node) }
        ensures numbered { IfOk result (λ id. (q : Key)
            → id_for_key q keys.new.entries ≡ cond (has_key key q) (Some id) (id_for_key q keys.old.entries)) }
        ensures len { OnOk result (length keys.new.entries ≡ length keys.old.entries + 1) }
        ensures unchanged { OnErr result (self.new.slots ≡ self.old.slots) }
        ensures entries { OnErr result (keys.new.entries ≡ keys.old.entries) }
    {
        self.slab.reserve(1)?;
        let id = Id(self.slab.vacant_key());
        self.index.insert(id, &node.labels)?;
        match keys.insert(key, id) {
            Ok(_) => {}
            Err(_) => {
                let unused = &node.labels;
                self.index.remove(id, unused);
                return Err(AllocError);
            }
        }
        self.slab.insert_reserved(node);
        Ok(id)
    }

    // Removes a node. Allocates nothing.
    pub(crate) fn remove(&mut self, id: Id)
        requires { slab.ContainsKey self.old id.0 }
        ensures updates { slab.Updates self.old self.new id.0 None }
        ensures len { slab.slab_len self.new + 1 ≡ slab.slab_len self.old }
    {
        let node = self.slab.remove(id.0);
        self.index.remove(id, &node.labels);
    }
}

// Lists all fields: adding one, such as a copy of the samples, does not compile.
fn fields(it: &Nodes) {
    let Nodes { slab: _, index: _ } = it;
}

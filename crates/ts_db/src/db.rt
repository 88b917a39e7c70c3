// The database.
ghost use Rattle.std.specs.Prelude.{◌≡◌, ◌≤◌, ⊤, nat_le, is_some};
ghost use Rattle.ts_spec.specs.Keyed.{none, get, count_keys};
ghost use Rattle.ts_spec.specs.State.{empty};
ghost use Rattle.ts_db.specs.DbState.{DbState, Represents, RepresentsSome};

use crate::nodes::Nodes;
use crate::store::Store;
use std::alloc::Global;
use std::collections::BTreeMap;
use std::marker::Model;
use ts_resp::Word;
use ts_spec::Limits;

/// A database: time series by key.
#[derive(Drop)]
pub struct Db {
    pub(crate) store: Store,
}

impl Model for Db {
    ghost use Rattle.ts_db.specs.DbState.{DbView};
    ghost use Rattle.ts_db.specs.Store.{db_view_of, IsDb};

    ghost Value = { DbView };

    ghost view = { λ d. db_view_of d.store };

    ghost invariant = { λ d. IsDb d.store };
}

impl Db {
    /// An empty database.
    pub fn new(alloc: Global, limits: Limits) -> Db
        requires { 1 ≤ limits.samples }
        ensures limits { result.limits ≡ limits }
        ensures keys { result.keys ≡ none }
        ensures ids { result.ids ≡ none }
        ensures stands { Represents result (record { limits = limits; state = empty }) }
    {
        Db {
            store: Store {
                alloc,
                limits,
                nodes: Nodes::new(alloc),
                keys: BTreeMap::new(alloc),
            },
        }
    }

    /// Whether the key exists.
    pub fn has(&self, key: &Word) -> bool
        ensures there { result ≡ is_some (get key.now self.now.keys) }
        ensures each { (held : DbState) → Represents self.now held → result ≡ is_some (get key.now held.state) }
    {
        self.store.has(key)
    }

    /// The number of keys.
    pub fn count(&self) -> u32
        ensures keys { result ≡ count_keys self.now.keys }
        ensures each { (held : DbState) → Represents self.now held → result ≡ count_keys held.state }
    {
        self.store.keys.len().min(self.store.limits.keys as usize) as u32
    }

    /// Whether the database holds as many keys as its limits allow. Allocates nothing.
    pub fn is_full(&self) -> bool
        ensures full { result ≡ nat_le self.now.limits.keys (count_keys self.now.keys) }
        ensures each { (held : DbState) → Represents self.now held
            → result ≡ nat_le held.limits.keys (count_keys held.state) }
    {
        self.store.is_full()
    }

    /// The limits. The contract also tells callers that the database represents some state.
    pub fn limits(&self) -> Limits
        ensures limits { result ≡ self.now.limits }
        ensures stands { RepresentsSome self.now (λ held. ⊤) }
    {
        self.store.limits
    }

    /// The allocator.
    pub fn alloc(&self) -> Global {
        self.store.alloc
    }
}

// Lists all fields: adding one, such as a copy of the samples, does not compile.
fn fields(it: &Db) {
    let Db { store: _ } = it;
}

// Caches ids of recently written keys. An id is used only if its node has the key, so hints affect speed alone.
ghost use Rattle.std.specs.Prelude.{◌≡◌, ◌≤◌, IfOk, IfErr};
ghost use Rattle.ts_spec.specs.Sample.{MAX_TIME};
ghost use Rattle.ts_spec.specs.Keyed.{get};
ghost use Rattle.ts_sample.specs.Steps.{Takes};
ghost use Rattle.ts_db.specs.DbState.{AnswersCount, NamesFullSeries};
ghost use Rattle.ts_db.specs.Store.{db_view_of, id_for_key, IsInOrder, IsDb};
ghost use Rattle.ts_db.specs.Answering.{StoredCount};
ghost use Rattle.ts_db.specs.PutBy.{put_with_policy, stored_put_with_policy};
ghost use Rattle.ts_db.specs.Bounds.{write_steps, IsEasyAppend, IsIgnored};

use crate::db::Db;
use crate::fault::DbFault;
use crate::store::Store;
use crate::write::merge_by;
use std::alloc::Global;
use std::sync::ledger::Ledger;
use ts_resp::Word;
use ts_sample::{Id, Steps, Units};
use ts_spec::Policy;

// The number of slots.
const SLOTS: usize = 4096;

/// A cache of ids of recently written keys. A caller that writes the same keys repeatedly passes it to each write,
/// which then skips the key lookup. Results do not depend on it.
#[derive(Drop)]
pub struct Hints {
    // The number of slots to allocate on first use.
    places: usize,
    // The id in each slot. Empty until first use.
    ids: Vec<Id>,
}

impl Hints {
    /// An empty cache. Allocates nothing until first use.
    pub fn new(alloc: Global) -> Hints {
        Hints {
            places: SLOTS,
            ids: Vec::new(alloc),
        }
    }

    /// A cache that never stores anything. Never allocates.
    pub fn none(alloc: Global) -> Hints {
        Hints {
            places: 0,
            ids: Vec::new(alloc),
        }
    }

    // The id in a slot.
    pub(crate) fn at(&self, place: usize) -> Option<Id> {
        self.ids.get(place).copied()
    }

    // Stores an id in a slot. Does nothing if memory runs out.
    pub(crate) fn keep(&mut self, place: usize, id: Id) {
        if self.ids.is_empty() && self.ids.resize(self.places, id).is_err() {
            return;
        }
        if let Some(kept) = self.ids.get_mut(place) {
            *kept = id;
        }
    }
}

// The slot of a key.
pub(crate) fn slot_of(key: &Word) -> usize {
    let mut sum: usize = 0;
    for byte in key.bytes() {
        sum = sum.wrapping_mul(435).wrapping_add(*byte as usize);
    }
    sum % SLOTS
}

impl Db {
    /// Adds a sample to an existing series, looking its id up in the hints first. If the series already has a sample
    /// at `time`, resolves the conflict by `on`, or by the series' duplicate policy if `on` is `None`. Returns the
    /// sample's time, or the last sample's time if the write was ignored (IGNORE).
    pub fn put_with_hints<L: Ledger>(
        &mut self,
        hints: &mut Hints,
        key: &Word,
        time: u64,
        value: Units,
        on: Option<Policy>,
        steps: &mut Steps<L>,
    ) -> Result<u64, DbFault>
        requires time { time ≤ MAX_TIME }
        ensures put { AnswersCount self.old (λ h. put_with_policy h.limits h.state key.now time value on) result
            self.new }
        ensures bounded { IfOk result (λ t. t ≤ MAX_TIME) }
        ensures limits { self.new.limits ≡ self.old.limits }
        ensures own { IfErr result (NamesFullSeries self.old key.now) }
        ensures steps { Takes steps.old steps.new (write_steps self.old key.now time) }
        ensures easy { IsEasyAppend self.old key.now time → steps.new ≡ steps.old }
        ensures spared { IsIgnored self.old key.now time value → steps.new ≡ steps.old }
    {
        self.store
            .put_with_hints(hints, key, time, value, on, steps)
    }
}

impl Store {
    // Adds a sample to an existing series, looking its id up in the hints first.
    pub(crate) fn put_with_hints<L: Ledger>(
        &mut self,
        hints: &mut Hints,
        key: &Word,
        time: u64,
        value: Units,
        on: Option<Policy>,
        steps: &mut Steps<L>,
    ) -> Result<u64, DbFault>
        requires time { time ≤ MAX_TIME }
        requires db { IsDb self.old }
        ensures put { StoredCount (db_view_of self.old)
            (stored_put_with_policy self.old.limits (db_view_of self.old).keys key.now time value on) result
            (db_view_of self.new) }
        ensures bounded { IfOk result (λ t. t ≤ MAX_TIME) }
        ensures own { IfErr result (NamesFullSeries (db_view_of self.old) key.now) }
        ensures store { IsInOrder self.new }
        ensures steps { Takes steps.old steps.new (write_steps (db_view_of self.old) key.now time) }
        ensures easy { IsEasyAppend (db_view_of self.old) key.now time → steps.new ≡ steps.old }
        ensures spared { IsIgnored (db_view_of self.old) key.now time value → steps.new ≡ steps.old }
    {
        let place = slot_of(key);
        let Some(id) = self.id_with_hints(hints, key, place) else {
            return Err(DbFault::NoKey);
        };
        let answer = self.write(id, merge_by(on), time, value, steps);
        hints.keep(place, id);
        answer
    }

    // The id of a key, if it exists: the hinted one if its node has the key.
    fn id_with_hints(&self, hints: &Hints, key: &Word, place: usize) -> Option<Id>
        requires { IsInOrder self.now }
        ensures { result ≡ id_for_key key.now self.now.keys.entries }
    {
        if let Some(id) = hints.at(place)
            && let Some(node) = self.nodes.get(id.0)
            && node.key == *key
        {
            return Some(id);
        }
        self.keys.get(key).copied()
    }
}

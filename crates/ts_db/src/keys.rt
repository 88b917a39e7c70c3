// Finds series by key and by labels, and counts samples.
ghost use Rattle.std.specs.Prelude.{◌≡◌, ◌≤◌, ◌+◌, length, is_some, IfOk, OnErr};
ghost use Rattle.ts_spec.specs.Filter.{all_hold, selection};
ghost use Rattle.ts_spec.specs.Keyed.{get};
ghost use Rattle.ts_spec.specs.StoredQueries.{stored_selection};
ghost use Rattle.ts_spec.specs.Totals.{total_shown};
ghost use Rattle.ts_sample.specs.Steps.{Takes};
ghost use Rattle.ts_db.specs.DbState.{DbState, Represents, AreIdsOf, IsLive};
ghost use Rattle.ts_db.specs.Bounds.{reach_of_all, selection_steps, fewest};
ghost use Rattle.std.specs.List.{All};
ghost use Rattle.ts_db.specs.Candidates.{Covers};

use crate::db::Db;
use crate::key_order::in_key_order_if_many;
use std::alloc::AllocError;
use std::sync::ledger::Ledger;
use ts_index::Candidates;
use ts_labels::{Filter, Labels};
use ts_resp::Word;
use ts_sample::{Id, Steps};

impl Db {
    /// The id of a key's series, if the key exists. Allocates nothing.
    pub fn id_of(&self, key: &Word) -> Option<Id>
        ensures id { result ≡ get key.now self.now.ids }
        ensures there { is_some result ≡ is_some (get key.now self.now.keys) }
    {
        self.store.keys.get(key).copied()
    }

    /// The ids of the series that pass all filters, sorted by key. Fails only before it tests any filter.
    pub fn select<L: Ledger>(
        &self,
        filters: &[Filter],
        steps: &mut Steps<L>,
    ) -> Result<Vec<Id>, AllocError>
        ensures numbers { IfOk result
            (λ ids. AreIdsOf self.now.ids (stored_selection self.now.keys filters.now) ids.items) }
        ensures each { (held : DbState) → Represents self.now held
            → IfOk result (λ ids. AreIdsOf self.now.ids (selection held.state filters.now) ids.items) }
        ensures unspent { OnErr result (steps.new ≡ steps.old) }
        ensures steps { steps.new ≤ steps.old + selection_steps self.now filters.now }
    {
        let mut ids = self.store.index().select(filters, steps)?;
        if let Some(found) = in_key_order_if_many(self.store.alloc, &self.store.keys, &ids) {
            return Ok(found);
        }
        self.store.nodes.sort_by_key(&mut ids);
        Ok(ids)
    }

    /// The number of samples in all series. Allocates nothing.
    pub fn total<L: Ledger>(&self, steps: &mut Steps<L>) -> u64
        ensures each { (held : DbState) → Represents self.now held → result ≡ total_shown held.state }
        ensures steps { Takes steps.old steps.new (reach_of_all self.now) }
    {
        let _keys = self.store.limits.keys;
        let _samples = self.store.limits.samples;
        let mut total = 0;
        for (_key, id) in self.store.keys.iter() {
            total += self.store.nodes.node(*id).series.len(steps) as u64;
        }
        total
    }

    /// Candidate ids for a query: includes every series that passes all filters. The caller tests each one. Allocates
    /// nothing.
    pub fn candidates<'a>(&'a self, filters: &'a [Filter]) -> Candidates<'a>
        ensures live { All (IsLive self.now.ids) result }
        ensures covers { Covers self.now filters.now result }
        ensures few { length result ≤ fewest self.now filters.now }
    {
        self.store.index().candidates(filters)
    }
}

// Whether the labels pass all filters.
pub(crate) fn pass<L: Ledger>(labels: &Labels, filters: &[Filter], steps: &mut Steps<L>) -> bool
    ensures pass { result ≡ all_hold filters.now labels.now }
    ensures steps { steps.new ≤ steps.old + length filters.now }
{
    for filter in filters {
        if !filter.holds(labels, steps) {
            return false;
        }
    }
    true
}

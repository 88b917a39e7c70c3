// Selects series by filters.
ghost use Rattle.std.specs.Prelude.{◌≡◌, ◌+◌, ◌≤◌, true, [], ◌∷◌, List, length, vec_len, vec_capacity, IfOk, IfSome};
ghost use Rattle.std.specs.Prelude.{OnErr};
ghost use Rattle.ts_spec.specs.State.{Label};
ghost use Rattle.ts_spec.specs.Filter.{holds, all_hold, is_positive};
ghost use Rattle.ts_index.specs.Bounds.{fewest, selection_steps};
ghost use Rattle.ts_index.specs.Index.{labels_of, ids_where};
ghost use Rattle.ts_index.specs.Numbers.{pass};
ghost use Rattle.ts_index.specs.Selecting.{AreSelected, lent};

use crate::candidates::by_value;
use crate::distinct::distinct;
use crate::index::Index;
use std::alloc::AllocError;
use std::sync::ledger::Ledger;
use ts_labels::{Filter, Labels};
use ts_sample::{Id, Steps};

impl Index {
    /// The ids of the series that pass all filters, in ascending order. Filters that ask the same are tested once.
    /// Fails only before it tests any filter.
    pub fn select<L: Ledger>(
        &self,
        filters: &[Filter],
        steps: &mut Steps<L>,
    ) -> Result<Vec<Id>, AllocError>
        ensures selected { IfOk result (λ ids. ids.items ≡ ids_where (all_hold filters.now) self.now) }
        ensures unspent { OnErr result (steps.new ≡ steps.old) }
        ensures steps { steps.new ≤ steps.old + selection_steps self.now filters.now }
    {
        self.known();
        let tests = distinct(self.alloc, filters)?;
        let mut ids = Vec::with_capacity(self.alloc, self.fewest(filters))?;
        self.take(filters, tests.as_slice(), &mut ids, steps);
        ids.sort_unstable();
        Ok(ids)
    }

    // Collects the ids of the series that pass all filters, by tests that ask the same.
    fn take<L: Ledger>(
        &self,
        filters: &[Filter],
        tests: &[&Filter],
        ids: &mut Vec<Id>,
        steps: &mut Steps<L>,
    )
        requires same { (labels : List Label) → all_hold (lent tests.now) labels ≡ all_hold filters.now labels }
        requires few { length tests.now ≤ length filters.now }
        requires none { ids.old.items ≡ [] }
        requires len { vec_len ids.old ≡ 0 }
        requires room { fewest self.now filters.now ≤ vec_capacity ids.old }
        ensures selected { AreSelected (all_hold filters.now) self.now ids.new.items }
        ensures steps { steps.new ≤ steps.old + selection_steps self.now filters.now }
    {
        match only(tests) {
            Some(filter) => self.collect_matching(filters, filter, ids),
            None => self.collect_passing(filters, tests, ids, steps),
        }
    }

    // Collects the series that have a value that the filter requires. They pass without a test.
    fn collect_matching(&self, filters: &[Filter], filter: &Filter, ids: &mut Vec<Id>)
        requires positive { is_positive filter.now ≡ true }
        requires same { (labels : List Label) → holds filter.now labels ≡ all_hold filters.now labels }
        requires none { ids.old.items ≡ [] }
        requires len { vec_len ids.old ≡ 0 }
        requires room { fewest self.now filters.now ≤ vec_capacity ids.old }
        ensures selected { AreSelected (all_hold filters.now) self.now ids.new.items }
    {
        for id in by_value(self, filter) {
            ids.push_reserved(id);
        }
    }

    // Collects the candidates that pass all tests.
    fn collect_passing<L: Ledger>(
        &self,
        filters: &[Filter],
        tests: &[&Filter],
        ids: &mut Vec<Id>,
        steps: &mut Steps<L>,
    )
        requires same { (labels : List Label) → all_hold (lent tests.now) labels ≡ all_hold filters.now labels }
        requires few { length tests.now ≤ length filters.now }
        requires none { ids.old.items ≡ [] }
        requires len { vec_len ids.old ≡ 0 }
        requires room { fewest self.now filters.now ≤ vec_capacity ids.old }
        ensures selected { AreSelected (all_hold filters.now) self.now ids.new.items }
        ensures steps { steps.new ≤ steps.old + selection_steps self.now filters.now }
    {
        for id in self.candidates(filters) {
            if self.passes(id, tests, steps) {
                ids.push_reserved(id);
            }
        }
    }

    // Whether the series with this id passes all tests.
    fn passes<L: Ledger>(&self, id: Id, tests: &[&Filter], steps: &mut Steps<L>) -> bool
        ensures passes { result ≡ pass (all_hold (lent tests.now)) (labels_of id.0 self.now) }
        ensures steps { steps.new ≤ steps.old + length tests.now }
    {
        match self.labels.get(&id.0) {
            Some(labels) => pass(labels, tests, steps),
            None => false,
        }
    }
}

// The only test, if it requires a value.
fn only<'a>(tests: &[&'a Filter]) -> Option<&'a Filter>
    ensures alone { IfSome result (λ filter. lent tests.now ≡ filter.now ∷ []) }
    ensures positive { IfSome result (λ filter. is_positive filter.now ≡ true) }
{
    match tests {
        [filter] if filter.is_positive() => Some(*filter),
        _ => None,
    }
}

// Whether the labels pass all tests.
fn pass<L: Ledger>(labels: &Labels, tests: &[&Filter], steps: &mut Steps<L>) -> bool
    ensures pass { result ≡ all_hold (lent tests.now) labels.now }
    ensures steps { steps.new ≤ steps.old + length tests.now }
{
    for test in tests {
        if !test.holds(labels, steps) {
            return false;
        }
    }
    true
}

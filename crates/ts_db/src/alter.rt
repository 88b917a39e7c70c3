// TS.ALTER: new options and labels, and the effect of a new retention on rules and destinations.
ghost use Rattle.std.specs.Prelude.{◌≡◌, None, IfOk, IfErr, OnErr, ◌*◌};
ghost use Rattle.ts_spec.specs.StoredStep.{stored_alter};
ghost use Rattle.ts_sample.specs.Steps.{Takes};
ghost use Rattle.ts_labels.specs.Spec.{change_of};
ghost use Rattle.ts_db.specs.DbState.{NamesFullSeries, reach_at};
ghost use Rattle.ts_db.specs.Store.{db_view_of, IsInOrder};
ghost use Rattle.ts_db.specs.Answering.{IsReady, IsApplied, StoredDone};

use crate::fault::DbFault;
use crate::node::are_too_many;
use crate::store::Store;
use std::alloc::AllocError;
use std::sync::ledger::Ledger;
use ts_labels::{Change, Labels};
use ts_resp::Word;
use ts_sample::{Id, Steps};
use ts_series::SeriesPlan;

impl Store {
    // Changes the options and labels that are given. Deletes samples that a new retention expires.
    pub(crate) fn alter<L: Ledger>(
        &mut self,
        key: &Word,
        change: Change,
        steps: &mut Steps<L>,
    ) -> Result<(), DbFault>
        requires { IsInOrder self.old }
        ensures altered { StoredDone (db_view_of self.old)
            (stored_alter self.old.limits (db_view_of self.old).keys key.now (change_of change)) result
            (db_view_of self.new) }
        ensures own { IfErr result (NamesFullSeries (db_view_of self.old) key.now) }
        ensures store { IsInOrder self.new }
        ensures steps { Takes steps.old steps.new (2 * reach_at (db_view_of self.old) key.now) }
    {
        let Some(id) = self.keys.get(key).copied() else {
            return Err(DbFault::NoKey);
        };
        let node = self.nodes.node(id);
        if are_too_many(self.limits.labels, &change.labels) {
            return Err(DbFault::LabelsFull);
        }
        match node.series.alter(
            change.retention,
            change.chunk_size,
            change.policy,
            change.ignore,
            steps,
        ) {
            Ok(plan) => match self.relabel(id, plan, change.labels) {
                Ok(()) => Ok(()),
                Err(fault) => Err(DbFault::Memory(fault)),
            },
            Err(fault) => Err(DbFault::Memory(fault)),
        }
    }

    // Commits a plan for series `id` and replaces its labels if given.
    fn relabel(
        &mut self,
        id: Id,
        plan: SeriesPlan,
        labels: Option<Labels>,
    ) -> Result<(), AllocError>
        requires store { IsInOrder self.old }
        requires ready { IsReady self.old id plan labels None }
        ensures store { IsInOrder self.new }
        ensures applied { IfOk result (λ _. IsApplied self.old id plan labels None self.new) }
        ensures unchanged { OnErr result (self.new ≡ self.old) }
    {
        self.nodes.alter(id, plan, labels)
    }
}

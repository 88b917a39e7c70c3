// Creates series, empty or with a first sample.
ghost use Rattle.std.specs.Prelude.{◌≡◌, ◌≤◌, ◌<◌, [], ◌∷◌, length, None, Some, IfOk, IfErr};
ghost use Rattle.ts_spec.specs.Sample.{MAX_TIME};
ghost use Rattle.ts_spec.specs.Keyed.{get, with_key, count_keys};
ghost use Rattle.ts_spec.specs.StoredKeys.{stored_fresh};
ghost use Rattle.ts_spec.specs.StoredStep.{stored_create, stored_create_with};
ghost use Rattle.ts_labels.specs.Spec.{spec_of};
ghost use Rattle.ts_series.specs.History.{list_of, IsKept};
ghost use Rattle.ts_db.specs.Faults.{IsMemory};
ghost use Rattle.ts_db.specs.DbState.{NamesFullSeries};
ghost use Rattle.ts_db.specs.Store.{stored_series, db_view_of, IsInOrder};
ghost use Rattle.ts_db.specs.Answering.{StoredDone, StoredCount};

use crate::fault::DbFault;
use crate::node::Node;
use crate::store::Store;
use std::alloc::{AllocError, Global};
use std::sync::ledger::Ledger;
use ts_labels::{Labels, Spec};
use ts_resp::Word;
use ts_sample::{Id, Steps, Units};
use ts_series::{PutFault, Series};
use ts_spec::{Merge, Options};

impl Store {
    // Creates an empty series.
    pub(crate) fn create(&mut self, key: Word, spec: Spec) -> Result<(), DbFault>
        requires { IsInOrder self.old }
        ensures created { StoredDone (db_view_of self.old)
            (stored_create self.old.limits (db_view_of self.old).keys key (spec_of spec)) result (db_view_of self.new) }
        ensures store { IsInOrder self.new }
        ensures own { IfErr result (NamesFullSeries (db_view_of self.old) key) }
    {
        if self.has(&key) {
            return Err(DbFault::KeyExists);
        }
        if self.are_too_many(&spec.labels) {
            return Err(DbFault::LabelsFull);
        }
        if self.is_full() {
            return Err(DbFault::KeysFull);
        }
        let series = Series::new(self.alloc, spec.options);
        self.insert(key, series, spec.labels)
    }

    // Stores a series with its labels under a new key.
    pub(crate) fn insert(
        &mut self,
        key: Word,
        series: Series,
        labels: Labels,
    ) -> Result<(), DbFault>
        requires store { IsInOrder self.old }
        requires absent { get key (db_view_of self.old).keys ≡ None }
        requires room { count_keys (db_view_of self.old).keys < self.old.limits.keys }
        requires kept { IsKept series }
        requires within { length (list_of series) ≤ self.old.limits.samples }
        requires born { series.born ≤ self.old.limits.born }
        requires labels { length labels ≤ self.old.limits.labels }
        ensures added { IfOk result (λ _. (db_view_of self.new).keys
            ≡ with_key key (stored_series labels series) (db_view_of self.old).keys) }
        ensures limits { self.new.limits ≡ self.old.limits }
        ensures memory { IfErr result IsMemory }
        ensures unchanged { IfErr result (λ _. db_view_of self.new ≡ db_view_of self.old) }
        ensures store { IsInOrder self.new }
    {
        let name = match key.copy() {
            Ok(name) => name,
            Err(fault) => return Err(DbFault::Memory(fault)),
        };
        let node = Node {
            key: name,
            series,
            labels,
            rules: Vec::new(self.alloc),
            source: None,
        };
        match self.nodes.insert(&mut self.keys, key, node) {
            Ok(_) => Ok(()),
            Err(fault) => Err(DbFault::Memory(fault)),
        }
    }

    // Creates a series with one sample under a new key.
    pub(crate) fn create_with_sample<L: Ledger>(
        &mut self,
        key: Word,
        spec: Spec,
        time: u64,
        value: Units,
        steps: &mut Steps<L>,
    ) -> Result<u64, DbFault>
        requires time { time ≤ MAX_TIME }
        requires store { IsInOrder self.old }
        requires absent { get key (db_view_of self.old).keys ≡ None }
        ensures begun { StoredCount (db_view_of self.old)
            (stored_create_with self.old.limits (db_view_of self.old).keys key (spec_of spec) time value) result
            (db_view_of self.new) }
        ensures bounded { IfOk result (λ t. t ≤ MAX_TIME) }
        ensures own { IfErr result (NamesFullSeries (db_view_of self.old) key) }
        ensures store { IsInOrder self.new }
        ensures counted { steps.old ≤ steps.new }
        ensures steps { steps.new ≡ steps.old }
    {
        if self.are_too_many(&spec.labels) {
            return Err(DbFault::LabelsFull);
        }
        if self.is_full() {
            return Err(DbFault::KeysFull);
        }
        match begun(self.alloc, spec.options, time, value, steps) {
            Ok(series) => match self.insert(key, series, spec.labels) {
                Ok(()) => Ok(time),
                Err(fault) => Err(fault),
            },
            Err(fault) => Err(DbFault::Memory(fault)),
        }
    }
}

// A series with one sample.
fn begun<L: Ledger>(
    alloc: Global,
    options: Options,
    time: u64,
    value: Units,
    steps: &mut Steps<L>,
) -> Result<Series, AllocError>
    requires time { time ≤ MAX_TIME }
    ensures begun { IfOk result (λ series. stored_series [] series
        ≡ stored_fresh (record { options = options; labels = [] })
        (record { time = time; value = value; made = 0 } ∷ [])
        (Some time)) }
    ensures kept { IfOk result (λ series. IsKept series) }
    ensures counted { steps.old ≤ steps.new }
    ensures steps { steps.new ≡ steps.old }
{
    let mut series = Series::new(alloc, options);
    match series.put(time, value, Merge::Set, u32::MAX, steps) {
        Ok(plan) => {
            series.commit(plan);
            Ok(series)
        }
        Err(PutFault::Unwritten(_)) => Err(AllocError),
        Err(_) => unreachable!(),
    }
}

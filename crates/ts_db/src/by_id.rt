// Looks up series by id.
ghost use Rattle.std.specs.Prelude.{◌≡◌, ◌≤◌, nat_lt, length, Some, ◌+◌};
ghost use Rattle.std.specs.Option.{ForSome};
ghost use Rattle.ts_spec.specs.Filter.{all_hold};
ghost use Rattle.ts_spec.specs.Key.{Key};
ghost use Rattle.ts_spec.specs.Keyed.{get};
ghost use Rattle.ts_spec.specs.StoredQueries.{stored_asked, stored_labels_at};
ghost use Rattle.ts_spec.specs.Queries.{labels_at};
ghost use Rattle.ts_spec.specs.Sample.{at_times, last_of, put_all};
ghost use Rattle.ts_sample.specs.Steps.{Takes};
ghost use Rattle.ts_series.specs.History.{list_of, reach, IsKept};
ghost use Rattle.ts_rules.specs.Rules.{one_of};
ghost use Rattle.ts_db.specs.Faults.{key_of_id};
ghost use Rattle.ts_db.specs.DbState.{DbState, Represents, IsLive, AreTimes, ends_of, reach_at};
ghost use Rattle.ts_db.specs.Store.{Shows};

use crate::db::Db;
use crate::keys::pass;
use crate::node::Node;
use crate::row_merger::{first_with, last_with, row_before};
use std::sync::ledger::Ledger;
use ts_labels::{Filter, Labels};
use ts_resp::Word;
use ts_sample::{Id, Sample, Steps};
use ts_series::Series;

impl Db {
    // The node of series `id`.
    pub(crate) fn node(&self, id: Id) -> &Node
        requires { IsLive self.now.ids id }
        ensures numbered { get (key_of_id self.now.ids id) self.now.ids ≡ Some id }
        ensures one { (key : Key) → get key self.now.ids ≡ Some id → key_of_id self.now.ids id ≡ key }
        ensures shows { (key : Key) → get key self.now.ids ≡ Some id → Shows self.now key result.now }
        ensures kept { IsKept result.now.series }
        ensures within { length (list_of result.now.series) ≤ self.now.limits.samples }
    {
        self.store.nodes.node(id)
    }

    /// The key of series `id`. Allocates nothing.
    pub fn key_of(&self, id: Id) -> &Word
        requires { IsLive self.now.ids id }
        ensures key { result.now ≡ key_of_id self.now.ids id }
        ensures numbered { get (key_of_id self.now.ids id) self.now.ids ≡ Some id }
        ensures one { (key : Key) → get key self.now.ids ≡ Some id → key_of_id self.now.ids id ≡ key }
    {
        &self.node(id).key
    }

    /// The labels of series `id`. Allocates nothing.
    pub fn labels_of(&self, id: Id) -> &Labels
        requires { IsLive self.now.ids id }
        ensures labels { (key : Key) → get key self.now.ids ≡ Some id
            → result.now ≡ stored_labels_at (get key self.now.keys) }
        ensures each { (held : DbState) → Represents self.now held → (key : Key) → get key self.now.ids ≡ Some id
            → result.now ≡ labels_at (get key held.state) }
    {
        &self.node(id).labels
    }

    /// Whether the labels of series `id` pass all filters. Allocates nothing.
    pub fn passes<L: Ledger>(&self, id: Id, filters: &[Filter], steps: &mut Steps<L>) -> bool
        requires { IsLive self.now.ids id }
        ensures passes { (key : Key) → get key self.now.ids ≡ Some id
            → result ≡ all_hold filters.now (stored_labels_at (get key self.now.keys)) }
        ensures each { (held : DbState) → Represents self.now held → (key : Key) → get key self.now.ids ≡ Some id
            → result ≡ all_hold filters.now (labels_at (get key held.state)) }
        ensures steps { steps.new ≤ steps.old + length filters.now }
    {
        pass(self.labels_of(id), filters, steps)
    }

    /// The last sample of series `id`, if there is one. With `latest`, includes the row of an open bucket. Allocates
    /// nothing.
    pub fn last_of<L: Ledger>(&self, id: Id, latest: bool, steps: &mut Steps<L>) -> Option<Sample>
        requires { IsLive self.now.ids id }
        ensures last { (key : Key) → get key self.now.ids ≡ Some id
            → result ≡ last_of (stored_asked self.now.keys latest key) }
        ensures counted { steps.old ≤ steps.new }
        ensures steps { steps.new ≡ steps.old }
    {
        let row = self.requested_row(id, latest);
        last_with(row, self.node(id).series.last())
    }

    /// The last sample of series `id` before `t` (milliseconds), if there is one. With `latest`, includes the row of
    /// an open bucket. Allocates nothing.
    pub fn before_of<L: Ledger>(
        &self,
        id: Id,
        t: u64,
        latest: bool,
        steps: &mut Steps<L>,
    ) -> Option<Sample>
        requires { IsLive self.now.ids id }
        ensures before { (key : Key) → get key self.now.ids ≡ Some id
            → result ≡ last_of (at_times (λ u. nat_lt u t) (stored_asked self.now.keys latest key)) }
        ensures counted { steps.old ≤ steps.new }
        ensures steps { (key : Key) → get key self.now.ids ≡ Some id → steps.new ≤ steps.old + reach_at self.now key }
    {
        let row = row_before(t, self.requested_row(id, latest));
        last_with(row, self.node(id).series.before(t, steps))
    }

    /// The times of the first and the last sample of series `id` in milliseconds, if there are any. With `latest`,
    /// includes the row of an open bucket. Allocates nothing.
    pub fn ends_of<L: Ledger>(
        &self,
        id: Id,
        latest: bool,
        steps: &mut Steps<L>,
    ) -> Option<(u64, u64)>
        requires { IsLive self.now.ids id }
        ensures ends { (key : Key) → get key self.now.ids ≡ Some id
            → result ≡ ends_of (stored_asked self.now.keys latest key) }
        ensures bounded { ForSome result AreTimes }
        ensures counted { steps.old ≤ steps.new }
        ensures steps { (key : Key) → get key self.now.ids ≡ Some id → steps.new ≤ steps.old + reach_at self.now key }
    {
        ends(&self.node(id).series, self.requested_row(id, latest), steps)
    }
}

// The times of the first and the last sample after the row is merged in.
fn ends<L: Ledger>(series: &Series, row: Option<Sample>, steps: &mut Steps<L>) -> Option<(u64, u64)>
    requires { IsKept series.now }
    ensures ends { result ≡ ends_of (put_all (one_of row) (list_of series.now)) }
    ensures bounded { ForSome result AreTimes }
    ensures steps { Takes steps.old steps.new (reach series.now) }
{
    let first = first_with(row, series.first(steps));
    let last = last_with(row, series.last());
    Some((first?.time, last?.time))
}

// Scans of a series by id, and times at which a scan can be split.
ghost use Rattle.std.specs.Prelude.{◌≡◌, ◌≤◌, ◌^◌, ◌⊎◌, ℕ, suc, nat_le, false, length, ◌+◌};
ghost use Rattle.ts_sample.specs.Visit.{visited};
ghost use Rattle.ts_spec.specs.StoredQueries.{stored_asked};
ghost use Rattle.ts_spec.specs.Sample.{at_times, between};
ghost use Rattle.ts_series.specs.Seams.{IsSeam, IsSeamed, Around};
ghost use Rattle.ts_db.specs.Faults.{key_of_id};
ghost use Rattle.ts_db.specs.DbState.{IsLive, reach_at, chunk_samples_at};
ghost use Rattle.ts_db.specs.Bounds.{walk_steps};

use crate::db::Db;
use crate::row_merger::scan_shown;
use std::sync::ledger::Ledger;
use ts_sample::{Id, Steps, Visit};
use ts_series::Cursor;

impl Db {
    /// Passes the samples of series `id` from `from` to `to` (milliseconds, inclusive) to a visitor, in ascending
    /// order. With `latest`, includes the row of an open bucket. Allocates nothing.
    pub fn visit_of<V: Visit, L: Ledger>(
        &self,
        id: Id,
        from: u64,
        to: u64,
        latest: bool,
        visit: &mut V,
        steps: &mut Steps<L>,
    )
        requires live { IsLive self.now.ids id }
        requires room { 2 ^ 32 ≤ V.room visit.old }
        ensures visited { visit.new ≡ visited V.step visit.old
            (between from to (stored_asked self.now.keys latest (key_of_id self.now.ids id))) }
        ensures counted { steps.old ≤ steps.new }
        ensures steps { steps.new ≤ steps.old + walk_steps self.now (key_of_id self.now.ids id) from to }
        ensures seams { IsSeamed (chunk_samples_at self.now (key_of_id self.now.ids id)) from to steps.old steps.new }
    {
        // No effect at run time: its contract gives the prover a bound on the sample limit.
        let _limit = self.limits().samples;
        let row = self.requested_row(id, latest);
        scan_shown(&self.node(id).series, from, to, row, visit, steps);
    }

    /// A cursor over the samples of series `id` from `from` (milliseconds) on. Does not include the row of an open
    /// bucket. Allocates nothing.
    pub fn read_of<L: Ledger>(&self, id: Id, from: u64, steps: &mut Steps<L>) -> Cursor<'_>
        requires { IsLive self.now.ids id }
        ensures left { result ≡ at_times (nat_le from) (stored_asked self.now.keys false (key_of_id self.now.ids id)) }
        ensures counted { steps.old ≤ steps.new }
        ensures steps { steps.new ≤ steps.old + reach_at self.now (key_of_id self.now.ids id) }
    {
        self.node(id).series.read_from(from, steps)
    }

    /// An end time for a scan that starts at `from` (milliseconds) and needs at least `count` samples; `to` if there
    /// are fewer. Does not count the row of an open bucket. Decodes few samples and allocates nothing.
    pub fn end_for_count(&self, id: Id, from: u64, to: u64, count: u64) -> u64
        requires live { IsLive self.now.ids id }
        requires ordered { from ≤ to }
        ensures within { (from ≤ result) × (result ≤ to) }
        ensures reach { (result ≡ to)
            ⊎ (count ≤ length (between from result (stored_asked self.now.keys false (key_of_id self.now.ids id)))) }
        ensures seam { (result ≡ to) ⊎ IsSeam (result + 1) (chunk_samples_at self.now (key_of_id self.now.ids id)) }
    {
        self.node(id).series.end_for_count(from, to, count)
    }

    /// A start time for a scan that ends at `to` (milliseconds) and needs at least `count` samples; `from` if there
    /// are fewer. Does not count the row of an open bucket. Decodes few samples and allocates nothing.
    pub fn start_for_count(&self, id: Id, from: u64, to: u64, count: u64) -> u64
        requires live { IsLive self.now.ids id }
        requires ordered { from ≤ to }
        ensures within { (from ≤ result) × (result ≤ to) }
        ensures reach { (result ≡ from)
            ⊎ (count ≤ length (between result to (stored_asked self.now.keys false (key_of_id self.now.ids id)))) }
        ensures seam { (result ≡ from) ⊎ IsSeam result (chunk_samples_at self.now (key_of_id self.now.ids id)) }
    {
        self.node(id).series.start_for_count(from, to, count)
    }

    /// The most samples that a new chunk of series `id` can hold. The contract also bounds the cost of a split scan:
    /// splitting between two times cuts at most one chunk, and near each interval there are times that cut none.
    pub fn chunk_reach_of(&self, id: Id) -> u64
        requires live { IsLive self.now.ids id }
        ensures within { result ≤ reach_at self.now (key_of_id self.now.ids id) }
        ensures around { (from to : ℕ)
            → Around from to (walk_steps self.now (key_of_id self.now.ids id) from to)
            (chunk_samples_at self.now (key_of_id self.now.ids id)) }
        ensures cuts { (t : ℕ) → Around (suc t) t (reach_at self.now (key_of_id self.now.ids id))
            (chunk_samples_at self.now (key_of_id self.now.ids id)) }
    {
        self.node(id).series.chunk_reach()
    }
}

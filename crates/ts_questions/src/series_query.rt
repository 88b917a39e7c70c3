// A query over one series of the database.
ghost use Rattle.std.specs.Prelude.{◌≡◌, ◌^◌, Some};
ghost use Rattle.ts_spec.specs.Answer.{passes_filters};
ghost use Rattle.ts_spec.specs.Keyed.{get};
ghost use Rattle.ts_spec.specs.Sample.{Point};
ghost use Rattle.ts_range.specs.Filters.{passes};
ghost use Rattle.ts_range.specs.Query.{query_of};
ghost use Rattle.ts_db.specs.Faults.{key_of_id};

use std::sync::ledger::Ledger;
use ts_db::{Cursor, Db, Id};
use ts_range::{Filters, Query};
use ts_sample::{Sample, Steps, Visit};

/// A query over the series `id`: the query, whether LATEST adds the series' open bucket, and the prepared filters.
#[derive(Clone, Copy)]
pub(crate) struct SeriesQuery<'a> {
    pub(crate) db: &'a Db,
    pub(crate) id: Id,
    pub(crate) latest: bool,
    pub(crate) query: &'a Query,
    pub(crate) filters: &'a Filters,
    pub ghost live: { get (key_of_id db.now.ids id) db.now.ids ≡ Some id },
    pub ghost lets: { (p : Point) → passes filters.now p ≡ passes_filters (query_of query.now) p },
}

impl<'a> SeriesQuery<'a> {
    ghost use Rattle.std.specs.Prelude.{◌≤◌, ◌+◌, ◌⊎◌, ℕ, false, suc, nat_le, nat_lt, length};
    ghost use Rattle.std.specs.Option.{ForSome};
    ghost use Rattle.ts_sample.specs.Visit.{visited};
    ghost use Rattle.ts_spec.specs.Key.{Key};
    ghost use Rattle.ts_spec.specs.Sample.{IsAscending, at_times, between, last_of};
    ghost use Rattle.ts_series.specs.Seams.{IsSeam, IsSeamed, Around};
    ghost use Rattle.ts_db.specs.Bounds.{walk_steps};
    ghost use Rattle.ts_db.specs.DbState.{AreTimes, IsLive, ends_of};
    ghost use Rattle.ts_questions.specs.Asking.{queried_key, queried_samples, queried_pieces, queried_reach};

    pub(crate) fn new(
        db: &'a Db,
        id: Id,
        latest: bool,
        query: &'a Query,
        filters: &'a Filters,
    ) -> SeriesQuery<'a>
        requires live { IsLive db.now.ids id }
        requires lets { (p : Point) → passes filters.now p ≡ passes_filters (query_of query.now) p }
        ensures db { result.db.now ≡ db.now }
        ensures latest { result.latest ≡ latest }
        ensures query { result.query.now ≡ query.now }
        ensures key { (key : Key) → get key db.now.ids ≡ Some id → queried_key result ≡ key }
    {
        let _key = db.key_of(id);
        SeriesQuery {
            db,
            id,
            latest,
            query,
            filters,
        }
    }

    /// Does nothing at run time. Its contract states facts about the samples.
    pub(crate) fn known(&self)
        ensures rising { IsAscending (queried_samples self.now) }
        ensures few { length (queried_samples self.now) ≤ 2 ^ 32 }
        ensures around { (from to : ℕ)
            → Around from to (walk_steps self.now.db.now (queried_key self.now) from to) (queried_pieces self.now) }
        ensures cuts { (t : ℕ) → Around (suc t) t (queried_reach self.now) (queried_pieces self.now) }
    {
        let _reach = self.db.chunk_reach_of(self.id);
        let _samples = self.db.limits().samples;
    }

    /// Shows the samples between two times to a visitor, oldest first. Times are in milliseconds, both included.
    pub(crate) fn visit<V: Visit, L: Ledger>(
        &self,
        from: u64,
        to: u64,
        visit: &mut V,
        steps: &mut Steps<L>,
    )
        requires room { 2 ^ 32 ≤ V.room visit.old }
        ensures visited { visit.new ≡ visited V.step visit.old (between from to (queried_samples self.now)) }
        ensures seams { IsSeamed (queried_pieces self.now) from to steps.old steps.new }
    {
        self.db
            .visit_of(self.id, from, to, self.latest, visit, steps);
    }

    /// The times of the first and the last sample, in milliseconds, if there are any.
    pub(crate) fn ends<L: Ledger>(&self, steps: &mut Steps<L>) -> Option<(u64, u64)>
        ensures ends { result ≡ ends_of (queried_samples self.now) }
        ensures bounded { ForSome result AreTimes }
        ensures steps { steps.new ≤ steps.old + queried_reach self.now }
    {
        self.db.ends_of(self.id, self.latest, steps)
    }

    /// The last sample before `t` (in milliseconds), if there is one.
    pub(crate) fn before<L: Ledger>(&self, t: u64, steps: &mut Steps<L>) -> Option<Sample>
        ensures before { result ≡ last_of (at_times (λ u. nat_lt u t) (queried_samples self.now)) }
        ensures steps { steps.new ≤ steps.old + queried_reach self.now }
    {
        self.db.before_of(self.id, t, self.latest, steps)
    }

    /// A time in the interval up to which there are at least `count` samples, or `to` if there are fewer. Ignores
    /// LATEST. Falls between chunks, so no chunk is split.
    pub(crate) fn end_for_count(&self, from: u64, to: u64, count: u64) -> u64
        requires ordered { from ≤ to }
        ensures within { (from ≤ result) × (result ≤ to) }
        ensures enough { self.now.latest ≡ false
            → (result ≡ to) ⊎ (count ≤ length (between from result (queried_samples self.now))) }
        ensures seam { (result ≡ to) ⊎ IsSeam (result + 1) (queried_pieces self.now) }
    {
        self.db.end_for_count(self.id, from, to, count)
    }

    /// A time in the interval from which on there are at least `count` samples, or `from` if there are fewer. Ignores
    /// LATEST. Falls between chunks, so no chunk is split.
    pub(crate) fn start_for_count(&self, from: u64, to: u64, count: u64) -> u64
        requires ordered { from ≤ to }
        ensures within { (from ≤ result) × (result ≤ to) }
        ensures enough { self.now.latest ≡ false
            → (result ≡ from) ⊎ (count ≤ length (between result to (queried_samples self.now))) }
        ensures seam { (result ≡ from) ⊎ IsSeam result (queried_pieces self.now) }
    {
        self.db.start_for_count(self.id, from, to, count)
    }

    /// A cursor over the samples from `from` on (in milliseconds). Ignores LATEST.
    pub(crate) fn read_from<L: Ledger>(&self, from: u64, steps: &mut Steps<L>) -> Cursor<'a>
        ensures left { self.now.latest ≡ false → result ≡ at_times (nat_le from) (queried_samples self.now) }
        ensures steps { steps.new ≤ steps.old + queried_reach self.now }
    {
        self.db.read_of(self.id, from, steps)
    }

    /// The last sample, if there is one. Ignores LATEST, and decodes nothing.
    pub(crate) fn last<L: Ledger>(&self, steps: &mut Steps<L>) -> Option<Sample>
        ensures last { self.now.latest ≡ false → result ≡ last_of (queried_samples self.now) }
        ensures steps { steps.new ≡ steps.old }
    {
        self.db.last_of(self.id, false, steps)
    }

    /// The greatest number of samples that a new chunk of the series can hold.
    pub(crate) fn chunk_reach(&self) -> u64
        ensures { result ≤ queried_reach self.now }
    {
        self.db.chunk_reach_of(self.id)
    }
}

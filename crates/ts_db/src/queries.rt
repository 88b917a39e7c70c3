// Queries by key.
ghost use Rattle.std.specs.Prelude.{◌≡◌, ◌≤◌, nat_lt, IfOk, IfErr, ◌*◌};
ghost use Rattle.std.specs.Option.{ForSome};
ghost use Rattle.ts_spec.specs.Keyed.{get};
ghost use Rattle.ts_spec.specs.Queries.{asked, info_response};
ghost use Rattle.ts_spec.specs.Response.{KeyInfo};
ghost use Rattle.ts_spec.specs.Sample.{IsAscending, at_times, between, last_of};
ghost use Rattle.ts_sample.specs.Steps.{Takes};
ghost use Rattle.ts_db.specs.DbState.{DbState, Represents, Finds, AreTimes, ends_of, reach_at};
ghost use Rattle.ts_db.specs.Information.{info_of};
ghost use Rattle.ts_db.specs.Bounds.{walk_steps};

use crate::db::Db;
use crate::fault::DbFault;
use crate::info::Info;
use crate::row_merger::scan_shown;
use std::sync::ledger::Ledger;
use ts_resp::Word;
use ts_sample::{Sample, SampleCollector, Steps};

impl Db {
    /// The last sample of a key, if there is one (TS.GET). With `latest`, includes the row of an open bucket. Fails
    /// only if the key does not exist; allocates nothing.
    pub fn last<L: Ledger>(
        &self,
        key: &Word,
        latest: bool,
        steps: &mut Steps<L>,
    ) -> Result<Option<Sample>, DbFault>
        ensures last { (held : DbState) → Represents self.now held
            → Finds (get key.now held.state) (λ last. last ≡ last_of (asked held.state latest key.now)) result }
        ensures refused { IfErr result (λ fault. fault ≡ DbFault.NoKey) }
        ensures counted { steps.old ≤ steps.new }
        ensures steps { steps.new ≡ steps.old }
    {
        let Some(id) = self.id_of(key) else {
            return Err(DbFault::NoKey);
        };
        Ok(self.last_of(id, latest, steps))
    }

    /// The samples of a key from `from` to `to`, in milliseconds and inclusive, in ascending order. With `latest`,
    /// includes the row of an open bucket.
    pub fn samples<L: Ledger>(
        &self,
        key: &Word,
        from: u64,
        to: u64,
        latest: bool,
        steps: &mut Steps<L>,
    ) -> Result<Vec<Sample>, DbFault>
        ensures samples { (held : DbState) → Represents self.now held
            → Finds (get key.now held.state) (λ samples. samples.items
            ≡ between from to (asked held.state latest key.now)) result }
        ensures ascending { IfOk result (λ samples. IsAscending samples.items) }
        ensures within { IfOk result (λ samples. between from to samples.items ≡ samples.items) }
        ensures steps { Takes steps.old steps.new (walk_steps self.now key.now from to) }
    {
        let Some(id) = self.id_of(key) else {
            return Err(DbFault::NoKey);
        };
        let series = &self.node(id).series;
        let room = series.room_for(from, to).saturating_add(1);
        let mut gathered = match SampleCollector::with_reserved(self.alloc(), room) {
            Ok(gathered) => gathered,
            Err(fault) => return Err(DbFault::Memory(fault)),
        };
        let row = self.requested_row(id, latest);
        scan_shown(series, from, to, row, &mut gathered, steps);
        Ok(gathered.into_samples())
    }

    /// The last sample of a key before `t` (milliseconds), if there is one. With `latest`, includes the row of an open
    /// bucket. Fails only if the key does not exist; allocates nothing.
    pub fn before<L: Ledger>(
        &self,
        key: &Word,
        t: u64,
        latest: bool,
        steps: &mut Steps<L>,
    ) -> Result<Option<Sample>, DbFault>
        ensures before { (held : DbState) → Represents self.now held
            → Finds (get key.now held.state) (λ before. before
            ≡ last_of (at_times (λ u. nat_lt u t) (asked held.state latest key.now))) result }
        ensures refused { IfErr result (λ fault. fault ≡ DbFault.NoKey) }
        ensures steps { Takes steps.old steps.new (reach_at self.now key.now) }
    {
        let Some(id) = self.id_of(key) else {
            return Err(DbFault::NoKey);
        };
        Ok(self.before_of(id, t, latest, steps))
    }

    /// The times of a key's first and last sample in milliseconds, if there are any. With `latest`, includes the row
    /// of an open bucket. Fails only if the key does not exist; allocates nothing.
    pub fn ends<L: Ledger>(
        &self,
        key: &Word,
        latest: bool,
        steps: &mut Steps<L>,
    ) -> Result<Option<(u64, u64)>, DbFault>
        ensures ends { (held : DbState) → Represents self.now held
            → Finds (get key.now held.state) (λ ends. ends ≡ ends_of (asked held.state latest key.now)) result }
        ensures bounded { IfOk result (λ ends. ForSome ends AreTimes) }
        ensures refused { IfErr result (λ fault. fault ≡ DbFault.NoKey) }
        ensures steps { Takes steps.old steps.new (reach_at self.now key.now) }
    {
        let Some(id) = self.id_of(key) else {
            return Err(DbFault::NoKey);
        };
        Ok(self.ends_of(id, latest, steps))
    }

    /// The facts about a key that TS.INFO reports. Fails if the key does not exist or memory runs out.
    pub fn info<L: Ledger>(&self, key: &Word, steps: &mut Steps<L>) -> Result<Info, DbFault>
        ensures info { (held : DbState) → Represents self.now held
            → Finds (get key.now held.state) (λ info. KeyInfo (info_of info)
            ≡ info_response held.state key.now (get key.now held.state)) result }
        ensures steps { Takes steps.old steps.new (2 * reach_at self.now key.now) }
    {
        let Some(id) = self.id_of(key) else {
            return Err(DbFault::NoKey);
        };
        let node = self.store.nodes.node(id);
        match self.store.info_of(node, steps) {
            Ok(info) => Ok(info),
            Err(fault) => Err(DbFault::Memory(fault)),
        }
    }
}

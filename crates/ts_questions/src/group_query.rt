// A query with GROUPBY: what it reads of each series.
ghost use Rattle.std.specs.Prelude.{◌≡◌, ◌+◌, ◌≤◌, Some};
ghost use Rattle.ts_spec.specs.Key.{Key};
ghost use Rattle.ts_spec.specs.Keyed.{get};
ghost use Rattle.ts_range.specs.Query.{query_of};
ghost use Rattle.ts_db.specs.DbState.{IsLive};
ghost use Rattle.ts_questions.specs.GroupQuery.{IsGroupQuery, counted, has_label, is_group_refused, group_steps};
ghost use Rattle.ts_questions.specs.GroupQuery.{stored_groups};

use crate::by_value::known_ids;
use crate::grouped::add_groups;
use crate::members::MemberQuery;
use crate::multi_reply::MultiReply;
use crate::row_plans::has_too_many_rows;
use std::sync::ledger::Ledger;
use ts_command::GroupBy;
use ts_db::{Db, Id};
use ts_labels::Show;
use ts_range::{Filters, Query, RangeFault};
use ts_resp::Out;
use ts_sample::Steps;

/// A query with GROUPBY, and how the reply shows its groups.
#[derive(Drop)]
pub(crate) struct GroupQuery {
    pub(crate) latest: bool,
    pub(crate) show: Show,
    /// The query over each series. It has no row limit: that applies to each group.
    pub(crate) query: Query,
    /// The prepared filters of the query, or `None` if there was no memory for them.
    pub(crate) filters: Option<Filters>,
    pub(crate) by: GroupBy,
    /// The maximum number of rows of each group, if any.
    pub(crate) count: Option<u64>,
}

impl GroupQuery {
    pub(crate) fn new(asked: MemberQuery, by: GroupBy) -> GroupQuery
        ensures group_query { IsGroupQuery result }
        ensures asks { counted result ≡ query_of asked.query }
        ensures from { result.query.from ≡ asked.query.from }
        ensures to { result.query.to ≡ asked.query.to }
        ensures latest { result.latest ≡ asked.latest }
        ensures show { result.show ≡ asked.show }
        ensures by { result.by ≡ by }
    {
        let MemberQuery {
            latest,
            show,
            query,
        } = asked;
        let filters = Filters::of(&query).ok();
        let count = query.count;
        let mut all_rows = query;
        all_rows.count = None;
        GroupQuery {
            latest,
            show,
            query: all_rows,
            filters,
            by,
            count,
        }
    }

    /// Whether the series has the label.
    pub(crate) fn asks(&self, db: &Db, id: Id) -> bool
        requires { IsLive db.now.ids id }
        ensures { (key : Key) → get key db.now.ids ≡ Some id → result ≡ has_label db.now self.now.by.label key }
    {
        db.labels_of(id).get(&self.by.label).is_some()
    }

    // Whether the series has the label and too many rows.
    fn is_over_limit_of<L: Ledger>(&self, db: &Db, id: Id, steps: &mut Steps<L>) -> bool
        requires { IsLive db.now.ids id }
        ensures refused { (key : Key) → get key db.now.ids ≡ Some id → result ≡ is_group_refused self.now db.now key }
        ensures steps { (key : Key) → get key db.now.ids ≡ Some id
            → steps.new ≤ steps.old + group_steps self.now db.now key }
    {
        if !self.asks(db, id) {
            return false;
        }
        has_too_many_rows(db, id, self.latest, &self.query, steps)
    }
}

impl MultiReply for GroupQuery {
    ghost is_over_limit = { λ g db_view key. is_group_refused g db_view key };

    ghost most = { λ g db_view key. group_steps g db_view key };

    ghost is_ready = { λ g. IsGroupQuery g };

    ghost response = { λ g db_view keys. stored_groups db_view g keys };

    fn can_be_refused(&self) -> bool {
        true
    }

    fn is_refused<L: Ledger>(&self, db: &Db, id: Id, steps: &mut Steps<L>) -> bool {
        self.is_over_limit_of(db, id, steps)
    }

    fn put_all<L: Ledger>(
        &self,
        db: &Db,
        ids: &[Id],
        out: &mut Out,
        steps: &mut Steps<L>,
    ) -> Result<bool, RangeFault> {
        known_ids(db, ids);
        add_groups(db, ids, self, out, steps)
    }
}

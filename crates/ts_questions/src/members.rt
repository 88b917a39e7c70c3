// Writes the members of a reply over many series, and what it shows of each.
ghost use Rattle.std.specs.Prelude.{◌≡◌, ◌+◌, ◌≤◌, is_none, Some, ◌++◌, All, List, [], true, false, length, sum_by};
ghost use Rattle.std.specs.Prelude.{None, IfErr, IfOk};
ghost use Rattle.std.specs.Fmt.{decimal};
ghost use Rattle.ts_spec.specs.Key.{Key};
ghost use Rattle.ts_spec.specs.Keyed.{get};
ghost use Rattle.ts_spec.specs.StoredQueries.{stored_selection};
ghost use Rattle.ts_spec.specs.Text.{line_text, text};
ghost use Rattle.ts_db.specs.DbState.{IsLive, DbState, Represents, AreIdsOf};
ghost use Rattle.ts_db.specs.Bounds.{selection_steps};
ghost use Rattle.ts_questions.specs.Bounds.{content_steps};
ghost use Rattle.ts_questions.specs.Members.{AreAsAsked, is_over_limit_at, stored_many, reply_at, each_reply};
ghost use Rattle.ts_questions.specs.Members.{IsAddedOrLost, AreAddedOrLost, many_response};
ghost use Rattle.ts_questions.specs.Answering.{IsReplyText};

use crate::member::add_member;
use crate::multi_reply::{MultiReply, write_many};
use crate::row_plans::has_too_many_rows;
use std::sync::ledger::Ledger;
use ts_db::{Db, Id};
use ts_labels::{Filter, Show};
use ts_range::{Filters, Query, RangeFault};
use ts_resp::{Out, encode_count};
use ts_sample::Steps;

/// A query over each of many series, and the labels that the reply shows of each.
#[derive(Drop)]
pub struct MemberQuery {
    /// LATEST: whether a destination also shows its bucket that is still open.
    pub latest: bool,
    pub show: Show,
    pub query: Query,
}

/// What a reply over many series shows of each.
#[derive(Drop)]
pub enum MemberContent {
    /// Its key.
    Key,
    /// Its key, its requested labels and its last row.
    Last {
        latest: bool,
        show: Show,
    },
    /// Its key, its requested labels and the rows of a query.
    Rows {
        asked: MemberQuery,
        /// The prepared filters of the query, or `None` if there was no memory for them.
        filters: Option<Filters>,
    },
}

impl MultiReply for MemberContent {
    ghost is_over_limit = { λ w db_view key. is_over_limit_at w db_view key };

    ghost most = { λ w db_view key. content_steps db_view w key };

    ghost is_ready = { AreAsAsked };

    ghost response = { λ w db_view keys. stored_many db_view.limits db_view.keys w keys };

    fn can_be_refused(&self) -> bool {
        match self {
            MemberContent::Key => false,
            MemberContent::Last { .. } => false,
            MemberContent::Rows { .. } => true,
        }
    }

    fn is_refused<L: Ledger>(&self, db: &Db, id: Id, steps: &mut Steps<L>) -> bool {
        is_refused(db, id, self, steps)
    }

    fn put_all<L: Ledger>(
        &self,
        db: &Db,
        ids: &[Id],
        out: &mut Out,
        steps: &mut Steps<L>,
    ) -> Result<bool, RangeFault> {
        add_members(db, ids, self, out, steps)
    }
}

// Whether a series has too many rows. Allocates nothing.
fn is_refused<L: Ledger>(db: &Db, id: Id, wanted: &MemberContent, steps: &mut Steps<L>) -> bool
    requires { IsLive db.now.ids id }
    ensures refused { (key : Key) → get key db.now.ids ≡ Some id
        → result ≡ is_none (reply_at db.now.limits db.now.keys wanted.now key) }
    ensures steps { (key : Key) → get key db.now.ids ≡ Some id
        → steps.new ≤ steps.old + content_steps db.now wanted.now key }
{
    match wanted {
        MemberContent::Key => false,
        MemberContent::Last { .. } => false,
        MemberContent::Rows { asked, .. } => has_too_many_rows(
            db,
            id,
            asked.latest,
            &asked.query,
            steps,
        ),
    }
}

/// Writes the reply over all series that match the filters, in the order of their keys. If a series has too many rows,
/// the reply is that error, even if memory ran out for others.
pub fn write_members<L: Ledger>(
    db: &Db,
    filters: &[Filter],
    wanted: &MemberContent,
    out: &mut Out,
    steps: &mut Steps<L>,
)
    requires lets { AreAsAsked wanted.now }
    requires empty { out.old.bytes ≡ [] }
    requires room { 128 ≤ out.old.spare }
    ensures reply { (from : DbState) → Represents db.now from
        → IsReplyText (many_response from wanted.now filters.now) out.new.bytes }
    ensures room { 128 ≤ length out.new.bytes + out.new.spare }
    ensures steps { steps.new ≤ steps.old
        + (selection_steps db.now filters.now
        + sum_by (content_steps db.now wanted.now) (stored_selection db.now.keys filters.now)) }
{
    write_many(db, filters, wanted, out, steps);
}

/// Writes the array of the members for these series. Fails if one of them has too many rows. Returns whether memory ran
/// out. In both cases the output may end in part of the array.
pub(crate) fn add_members<L: Ledger>(
    db: &Db,
    ids: &[Id],
    wanted: &MemberContent,
    out: &mut Out,
    steps: &mut Steps<L>,
) -> Result<bool, RangeFault>
    requires live { All (IsLive db.now.ids) ids.now }
    requires lets { AreAsAsked wanted.now }
    ensures added { IfOk result (λ lost. (keys : List Key) → AreIdsOf db.now.ids keys ids.now
        → AreAddedOrLost lost (each_reply (reply_at db.now.limits db.now.keys wanted.now) keys) out.old.bytes
        out.new.bytes) }
    ensures refused { IfErr result (λ fault. (keys : List Key) → AreIdsOf db.now.ids keys ids.now
        → each_reply (reply_at db.now.limits db.now.keys wanted.now) keys ≡ None) }
    ensures room { length out.old.bytes + out.old.spare ≤ length out.new.bytes + out.new.spare }
    ensures steps { (keys : List Key) → AreIdsOf db.now.ids keys ids.now
        → steps.new ≤ steps.old + sum_by (content_steps db.now wanted.now) keys }
{
    let mut lost = begin_members(ids.len(), out);
    for id in ids {
        lost = add_next(db, *id, wanted, lost, out, steps)?;
    }
    Ok(lost)
}

/// Writes the header of an array. Returns whether memory ran out.
pub(crate) fn begin_members(count: usize, out: &mut Out) -> bool
    ensures begun { result ≡ false → out.new.bytes ≡ out.old.bytes ++ line_text 42 (decimal count) }
    ensures room { length out.old.bytes + out.old.spare ≤ length out.new.bytes + out.new.spare }
{
    match encode_count(count, out) {
        Ok(()) => false,
        Err(_) => true,
    }
}

// Writes one member, or after memory ran out only checks that its rows are not too many. Returns whether memory ran
// out.
fn add_next<L: Ledger>(
    db: &Db,
    id: Id,
    wanted: &MemberContent,
    lost: bool,
    out: &mut Out,
    steps: &mut Steps<L>,
) -> Result<bool, RangeFault>
    requires live { IsLive db.now.ids id }
    requires lets { AreAsAsked wanted.now }
    ensures added { IfOk result (λ now. (key : Key) → get key db.now.ids ≡ Some id
        → IsAddedOrLost text now (reply_at db.now.limits db.now.keys wanted.now key) out.old.bytes out.new.bytes) }
    ensures stays { IfOk result (λ now. now ≡ false → lost ≡ false) }
    ensures refused { IfErr result (λ fault. (key : Key) → get key db.now.ids ≡ Some id
        → reply_at db.now.limits db.now.keys wanted.now key ≡ None) }
    ensures room { length out.old.bytes + out.old.spare ≤ length out.new.bytes + out.new.spare }
    ensures steps { (key : Key) → get key db.now.ids ≡ Some id
        → steps.new ≤ steps.old + content_steps db.now wanted.now key }
{
    if lost {
        if wanted.is_refused(db, id, steps) {
            return Err(RangeFault::EmptyRows);
        }
        return Ok(true);
    }
    match add_member(db, id, wanted, out, steps) {
        Ok(()) => Ok(false),
        Err(RangeFault::Memory(_)) => Ok(true),
        Err(RangeFault::EmptyRows) => Err(RangeFault::EmptyRows),
    }
}

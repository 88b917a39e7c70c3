// Replies over many series: what a reply writes for each, the reply itself, and the search for a series with too many
// rows when memory runs out.
ghost use Rattle.std.specs.Prelude.{◌≡◌, ◌+◌, ◌≤◌, ℕ, Bool, true, false, All, List, [], length, sum_by, Some, IfOk};
ghost use Rattle.std.specs.Prelude.{IfErr};
ghost use Rattle.std.specs.List.{list_any};
ghost use Rattle.ts_spec.specs.Key.{Key};
ghost use Rattle.ts_spec.specs.Keyed.{get};
ghost use Rattle.ts_spec.specs.Replies.{reply_to};
ghost use Rattle.ts_spec.specs.Response.{Response};
ghost use Rattle.ts_spec.specs.Text.{text};
ghost use Rattle.ts_db.specs.DbState.{DbView, IsLive, AreIdsOf};
ghost use Rattle.ts_spec.specs.StoredQueries.{stored_selection};
ghost use Rattle.ts_db.specs.Bounds.{selection_steps};
ghost use Rattle.ts_questions.specs.Answering.{IsManyText};
ghost use Rattle.ts_questions.specs.Bounds.{tried_steps};
ghost use Rattle.ts_questions.specs.Members.{is_refused_at};

use crate::faults::write_row_error;
use std::sync::ledger::Ledger;
use ts_db::{Db, Id};
use ts_labels::Filter;
use ts_range::RangeFault;
use ts_resp::Out;
use ts_sample::Steps;

/// What a reply over many series writes for each of them.
pub(crate) trait MultiReply {
    // Whether a series has too many rows, and the most steps it takes to write its part.
    ghost is_over_limit: { Self → DbView → Key → Bool };

    ghost most: { Self → DbView → Key → ℕ };

    // What must hold before writing, and the response over keys that all are within the limit.
    ghost is_ready: { Self → Type 0 };

    ghost response: { Self → DbView → List Key → Response };

    /// Whether a series can have too many rows.
    fn can_be_refused(&self) -> bool
        ensures { result ≡ false → (db_view : DbView) (key : Key) → is_over_limit self.now db_view key ≡ false };

    /// Whether a series has too many rows. Allocates nothing.
    fn is_refused<L: Ledger>(&self, db: &Db, id: Id, steps: &mut Steps<L>) -> bool
        requires { IsLive db.now.ids id }
        ensures refused { (key : Key) → get key db.now.ids ≡ Some id → result ≡ is_over_limit self.now db.now key }
        ensures steps { (key : Key) → get key db.now.ids ≡ Some id → steps.new ≤ steps.old + most self.now db.now key };

    /// Writes the reply over these series. Fails if one of them has too many rows. Returns whether memory ran out. In
    /// both cases the output may end in part of the reply.
    fn put_all<L: Ledger>(
        &self,
        db: &Db,
        ids: &[Id],
        out: &mut Out,
        steps: &mut Steps<L>,
    ) -> Result<bool, RangeFault>
        requires live { All (IsLive db.now.ids) ids.now }
        requires ready { is_ready self.now }
        requires empty { out.old.bytes ≡ [] }
        ensures few { IfOk result (λ lost. (keys : List Key) → AreIdsOf db.now.ids keys ids.now
            → list_any (is_over_limit self.now db.now) keys ≡ false) }
        ensures written { IfOk result (λ lost. lost ≡ false → (keys : List Key) → AreIdsOf db.now.ids keys ids.now
            → out.new.bytes ≡ text (reply_to (response self.now db.now keys))) }
        ensures refused { IfErr result (λ fault. (keys : List Key) → AreIdsOf db.now.ids keys ids.now
            → list_any (is_over_limit self.now db.now) keys ≡ true) }
        ensures room { length out.old.bytes + out.old.spare ≤ length out.new.bytes + out.new.spare }
        ensures steps { (keys : List Key) → AreIdsOf db.now.ids keys ids.now
            → steps.new ≤ steps.old + sum_by (most self.now db.now) keys };
}

/// Writes the reply over the series that match the filters, in the order of their keys. If a series has too many rows,
/// the reply is that error, even if memory ran out for others.
pub(crate) fn write_many<T: MultiReply, L: Ledger>(
    db: &Db,
    filters: &[Filter],
    multi_reply: &T,
    out: &mut Out,
    steps: &mut Steps<L>,
)
    requires ready { T.is_ready multi_reply.now }
    requires empty { out.old.bytes ≡ [] }
    requires room { 128 ≤ out.old.spare }
    ensures reply { IsManyText (list_any (T.is_over_limit multi_reply.now db.now)
        (stored_selection db.now.keys filters.now))
        (T.response multi_reply.now db.now (stored_selection db.now.keys filters.now)) out.new.bytes }
    ensures room { 128 ≤ length out.new.bytes + out.new.spare }
    ensures steps { steps.new ≤ steps.old
        + (selection_steps db.now filters.now
        + sum_by (T.most multi_reply.now db.now) (stored_selection db.now.keys filters.now)) }
{
    let Ok(ids) = db.select(filters, steps) else {
        write_row_error(is_one_refused(db, filters, multi_reply, steps), out);
        return;
    };
    match multi_reply.put_all(db, &ids, out, steps) {
        Ok(false) => {}
        Ok(true) => write_row_error(false, out),
        Err(_) => write_row_error(true, out),
    }
}

/// Whether a series that matches the filters has too many rows. Allocates nothing.
pub(crate) fn is_one_refused<T: MultiReply, L: Ledger>(
    db: &Db,
    filters: &[Filter],
    multi_reply: &T,
    steps: &mut Steps<L>,
) -> bool
    ensures refused { result ≡ list_any (T.is_over_limit multi_reply.now db.now)
        (stored_selection db.now.keys filters.now) }
    ensures steps { steps.new ≤ steps.old
        + (selection_steps db.now filters.now
        + sum_by (T.most multi_reply.now db.now) (stored_selection db.now.keys filters.now)) }
{
    if !multi_reply.can_be_refused() {
        return false;
    }
    for id in db.candidates(filters) {
        if is_refused_of(db, id, filters, multi_reply, steps) {
            return true;
        }
    }
    false
}

// Whether a series matches the filters and has too many rows.
fn is_refused_of<T: MultiReply, L: Ledger>(
    db: &Db,
    id: Id,
    filters: &[Filter],
    multi_reply: &T,
    steps: &mut Steps<L>,
) -> bool
    requires { IsLive db.now.ids id }
    ensures refused { (key : Key) → get key db.now.ids ≡ Some id
        → result ≡ is_refused_at db.now filters.now (T.is_over_limit multi_reply.now db.now) key }
    ensures steps { (key : Key) → get key db.now.ids ≡ Some id
        → steps.new ≤ steps.old + tried_steps db.now filters.now (T.most multi_reply.now db.now) key }
{
    if !db.passes(id, filters, steps) {
        return false;
    }
    multi_reply.is_refused(db, id, steps)
}

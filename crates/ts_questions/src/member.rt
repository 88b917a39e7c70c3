// Writes one member of a reply over many series. After an `Err` the output may end in part of it.
ghost use Rattle.std.specs.Prelude.{◌≡◌, ◌+◌, ◌≤◌, ◌++◌, length, map, is_none, None, Some, option_map, OnOk, IfErr};
ghost use Rattle.std.specs.Prelude.{IfOk};
ghost use Rattle.std.specs.Option.{ForSome};
ghost use Rattle.ts_spec.specs.Answer.{passes_filters, row_of as row_of_sample};
ghost use Rattle.ts_spec.specs.Key.{Key};
ghost use Rattle.ts_spec.specs.Keyed.{get};
ghost use Rattle.ts_spec.specs.StoredQueries.{stored_last_member};
ghost use Rattle.ts_spec.specs.Replies.{last_member_reply};
ghost use Rattle.ts_spec.specs.Sample.{Point};
ghost use Rattle.ts_spec.specs.Text.{text};
ghost use Rattle.ts_labels.specs.Show.{show_of};
ghost use Rattle.ts_range.specs.Filters.{passes};
ghost use Rattle.ts_range.specs.Query.{row_of, query_of};
ghost use Rattle.ts_series.specs.Seams.{IsSeamed};
ghost use Rattle.ts_db.specs.DbState.{IsLive};
ghost use Rattle.ts_questions.specs.Asking.{queried_key, queried_samples, queried_pieces, queried_rows, queried_answer};
ghost use Rattle.ts_questions.specs.Asking.{steps_beside, IsRowPlan};
ghost use Rattle.ts_questions.specs.Bounds.{series_query_steps, content_steps};
ghost use Rattle.ts_questions.specs.Members.{reply_at, rows_at, AreAsAsked, IsAdded, in_memory, is_too_many};

use crate::emit_planned_rows::{emit_planned_rows, reversed_rows};
use crate::members::{MemberContent, MemberQuery};
use crate::row_plans::{RowPlan, has_too_many_rows, row_plan};
use crate::series_query::SeriesQuery;
use std::alloc::AllocError;
use std::sync::ledger::Ledger;
use ts_db::{Db, Id};
use ts_labels::Show;
use ts_multi::{encode_last_member, encode_member};
use ts_range::{Filters, RangeFault, Row, RowList};
use ts_resp::{Out, encode_bulk};
use ts_sample::{Cell, Sample, Steps};

/// Writes the member for one series.
pub(crate) fn add_member<L: Ledger>(
    db: &Db,
    id: Id,
    wanted: &MemberContent,
    out: &mut Out,
    steps: &mut Steps<L>,
) -> Result<(), RangeFault>
    requires live { IsLive db.now.ids id }
    requires lets { AreAsAsked wanted.now }
    ensures added { OnOk result ((key : Key) → get key db.now.ids ≡ Some id
        → IsAdded text (reply_at db.now.limits db.now.keys wanted.now key) out.old.bytes out.new.bytes) }
    ensures fault { IfErr result (λ fault. (key : Key) → get key db.now.ids ≡ Some id
        → is_too_many fault ≡ is_none (reply_at db.now.limits db.now.keys wanted.now key)) }
    ensures room { length out.old.bytes + out.old.spare ≤ length out.new.bytes + out.new.spare }
    ensures steps { (key : Key) → get key db.now.ids ≡ Some id
        → steps.new ≤ steps.old + content_steps db.now wanted.now key }
{
    match wanted {
        MemberContent::Key => in_memory(encode_bulk(db.key_of(id).bytes(), out)),
        MemberContent::Last { latest, show } => in_memory(add_last(
            db, id, *latest, show, out, steps,
        )),
        MemberContent::Rows { asked, filters } => add_rows(db, id, asked, filters, out, steps),
    }
}

/// The result of a call that can only fail for lack of memory.
pub(crate) fn in_memory(done: Result<(), AllocError>) -> Result<(), RangeFault>
    ensures { result ≡ in_memory done }
{
    match done {
        Ok(()) => Ok(()),
        Err(fault) => Err(RangeFault::Memory(fault)),
    }
}

// Writes the member with its last row.
fn add_last<L: Ledger>(
    db: &Db,
    id: Id,
    latest: bool,
    show: &Show,
    out: &mut Out,
    steps: &mut Steps<L>,
) -> Result<(), AllocError>
    requires { IsLive db.now.ids id }
    ensures added { OnOk result ((key : Key) → get key db.now.ids ≡ Some id
        → out.new.bytes
        ≡ out.old.bytes ++ text (last_member_reply (stored_last_member db.now.keys latest (show_of show.now) key))) }
    ensures room { length out.old.bytes + out.old.spare ≤ length out.new.bytes + out.new.spare }
    ensures steps { steps.new ≡ steps.old }
{
    let last = row_of(db.last_of(id, latest, steps));
    encode_last_member(db.key_of(id), db.labels_of(id), show, last, out)
}

// The row of a sample.
fn row_of(sample: Option<Sample>) -> Option<Row>
    ensures { option_map row_of result ≡ option_map row_of_sample sample }
{
    let sample = sample?;
    Some(Row {
        time: sample.time,
        value: Cell::Number(sample.value),
    })
}

// Writes the member with the rows of a query. Fails if they are too many.
fn add_rows<L: Ledger>(
    db: &Db,
    id: Id,
    asked: &MemberQuery,
    filters: &Option<Filters>,
    out: &mut Out,
    steps: &mut Steps<L>,
) -> Result<(), RangeFault>
    requires live { IsLive db.now.ids id }
    requires lets { ForSome filters.now (λ f. (p : Point) → passes f p ≡ passes_filters (query_of asked.now.query) p) }
    ensures added { OnOk result ((key : Key) → get key db.now.ids ≡ Some id
        → IsAdded text
        (rows_at db.now.limits db.now.keys asked.now.latest (show_of asked.now.show) (query_of asked.now.query) key)
        out.old.bytes out.new.bytes) }
    ensures fault { IfErr result (λ fault. (key : Key) → get key db.now.ids ≡ Some id
        → is_too_many fault ≡ is_none
        (rows_at db.now.limits db.now.keys asked.now.latest (show_of asked.now.show) (query_of asked.now.query) key)) }
    ensures room { length out.old.bytes + out.old.spare ≤ length out.new.bytes + out.new.spare }
    ensures steps { (key : Key) → get key db.now.ids ≡ Some id
        → steps.new ≤ steps.old + series_query_steps db.now key asked.now.query.from asked.now.query.to }
{
    let Some(filters) = filters else {
        return Err(lost(has_too_many_rows(db, id, asked.latest, &asked.query, steps)));
    };
    let series_query = SeriesQuery::new(db, id, asked.latest, &asked.query, filters);
    let rows = rows_of(&series_query, steps)?;
    in_memory(encode_member(db.key_of(id), db.labels_of(id), &asked.show, &rows, out))
}

/// The error for rows that can't be returned: too many rows, or out of memory.
pub(crate) fn lost(are_too_many: bool) -> RangeFault
    ensures { are_too_many ≡ is_too_many result }
{
    if are_too_many {
        return RangeFault::EmptyRows;
    }
    RangeFault::Memory(AllocError)
}

/// The rows of a query. Fails if they are too many, or if there is no memory.
pub(crate) fn rows_of<L: Ledger>(
    series_query: &SeriesQuery<'_>,
    steps: &mut Steps<L>,
) -> Result<Vec<Row>, RangeFault>
    ensures rows { IfOk result (λ found. queried_answer series_query.now ≡ Some (map row_of found.items)) }
    ensures fault { IfErr result (λ fault. is_too_many fault ≡ is_none (queried_answer series_query.now)) }
    ensures steps { steps.new ≤ steps.old
        + series_query_steps series_query.now.db.now (queried_key series_query.now) series_query.now.query.now.from
        series_query.now.query.now.to }
{
    series_query.known();
    let Some(plan) = row_plan(series_query, steps) else {
        return Err(RangeFault::EmptyRows);
    };
    match planned_rows(series_query, &plan, steps) {
        Ok(rows) => Ok(rows),
        Err(fault) => Err(RangeFault::Memory(fault)),
    }
}

// The rows of a row plan, in a list.
fn planned_rows<L: Ledger>(
    series_query: &SeriesQuery<'_>,
    plan: &RowPlan,
    steps: &mut Steps<L>,
) -> Result<Vec<Row>, AllocError>
    requires plan { IsRowPlan series_query.now.query.now (queried_samples series_query.now) plan.now }
    ensures rows { IfOk result (λ found. map row_of found.items ≡ queried_rows series_query.now) }
    ensures seams { IsSeamed (queried_pieces series_query.now) series_query.now.query.now.from
        series_query.now.query.now.to (steps.old + steps_beside series_query.now plan.now) steps.new }
{
    if series_query.query.reverse && series_query.query.buckets.is_some() {
        return reversed_rows(series_query, plan, steps);
    }
    let row_sink = RowList::with_reserved(series_query.db.alloc(), 0)?;
    emit_planned_rows(series_query, plan, row_sink, steps).into_rows()
}

// Writes the replies to TS.RANGE, TS.MRANGE (and their reverse forms) and TS.GET.
ghost use Rattle.std.specs.Prelude.{◌≡◌, ◌+◌, ◌*◌, ◌≤◌, [], length, Some, option_map};
ghost use Rattle.ts_spec.specs.Answer.{answer as spec_answer, row_of as row_of_sample};
ghost use Rattle.ts_spec.specs.Key.{Key};
ghost use Rattle.ts_spec.specs.Keyed.{get};
ghost use Rattle.ts_spec.specs.StoredQueries.{stored_asked};
ghost use Rattle.ts_spec.specs.Queries.{range_response, rows_response, last_response};
ghost use Rattle.ts_spec.specs.Replies.{reply_to};
ghost use Rattle.ts_spec.specs.Response.{Rows, LastRow};
ghost use Rattle.ts_spec.specs.Text.{text};
ghost use Rattle.ts_spec.specs.Filter.{selection};
ghost use Rattle.ts_spec.specs.Groups.{ranges_response};
ghost use Rattle.ts_labels.specs.Show.{show_of};
ghost use Rattle.ts_range.specs.Query.{query_of};
ghost use Rattle.ts_command.specs.GroupBy.{group_of};
ghost use Rattle.ts_series.specs.Seams.{IsSeamed};
ghost use Rattle.ts_db.specs.DbState.{DbState, Represents, IsLive};
ghost use Rattle.ts_questions.specs.Answering.{IsReplyText};
ghost use Rattle.ts_questions.specs.Asking.{queried_key, queried_samples, queried_pieces, queried_rows, queried_answer};
ghost use Rattle.ts_questions.specs.Asking.{steps_beside, IsRowPlan};
ghost use Rattle.ts_questions.specs.Bounds.{series_query_steps, members_steps};

use crate::emit_planned_rows::emit_planned_rows;
use crate::faults::{refusal_reply, too_many_rows, write_out_of_memory, write_row_error};
use crate::group_query::GroupQuery;
use crate::members::{MemberContent, MemberQuery, write_members};
use crate::multi_reply::write_many;
use crate::row_plans::{RowPlan, has_too_many_rows, row_plan};
use crate::row_texts::{FIRST_ROOM, RowTexts};
use crate::series_query::SeriesQuery;
use std::sync::ledger::Ledger;
use ts_command::GroupBy;
use ts_db::{Db, DbFault, Id};
use ts_labels::Filter;
use ts_range::{Filters, Query};
use ts_resp::{Out, Word, begin_array, put, write_pair};
use ts_sample::{Cell, Sample, Steps};

/// Writes the reply to TS.RANGE and TS.REVRANGE.
pub fn write_range<L: Ledger>(
    db: &Db,
    key: &Word,
    latest: bool,
    query: &Query,
    out: &mut Out,
    steps: &mut Steps<L>,
)
    requires empty { out.old.bytes ≡ [] }
    requires room { 128 ≤ out.old.spare }
    ensures reply { (from : DbState) → Represents db.now from
        → IsReplyText
        (range_response from.limits from.state key.now latest (query_of query.now) (get key.now from.state))
        out.new.bytes }
    ensures room { 128 ≤ length out.new.bytes + out.new.spare }
    ensures steps { steps.new ≤ steps.old + series_query_steps db.now key.now query.now.from query.now.to }
{
    match db.id_of(key) {
        None => put(&refusal_reply(DbFault::NoKey), out),
        Some(id) => write_rows_of(db, id, latest, query, out, steps),
    }
}

// Writes the rows of series `id`.
fn write_rows_of<L: Ledger>(
    db: &Db,
    id: Id,
    latest: bool,
    query: &Query,
    out: &mut Out,
    steps: &mut Steps<L>,
)
    requires live { IsLive db.now.ids id }
    requires empty { out.old.bytes ≡ [] }
    requires room { 128 ≤ out.old.spare }
    ensures reply { (key : Key) → get key db.now.ids ≡ Some id
        → IsReplyText
        (rows_response (spec_answer db.now.limits.empty_rows (query_of query.now)
        (stored_asked db.now.keys latest key))) out.new.bytes }
    ensures room { 128 ≤ length out.new.bytes + out.new.spare }
    ensures steps { (key : Key) → get key db.now.ids ≡ Some id
        → steps.new ≤ steps.old + series_query_steps db.now key query.now.from query.now.to }
{
    match Filters::of(query) {
        Ok(filters) => write_rows(
            &SeriesQuery::new(db, id, latest, query, &filters),
            out,
            steps,
        ),
        Err(_) => write_row_error(has_too_many_rows(db, id, latest, query, steps), out),
    }
}

// Writes the rows of a query.
fn write_rows<L: Ledger>(series_query: &SeriesQuery<'_>, out: &mut Out, steps: &mut Steps<L>)
    requires empty { out.old.bytes ≡ [] }
    requires room { 128 ≤ out.old.spare }
    ensures reply { IsReplyText (rows_response (queried_answer series_query.now)) out.new.bytes }
    ensures room { 128 ≤ length out.new.bytes + out.new.spare }
    ensures steps { steps.new ≤ steps.old
        + series_query_steps series_query.now.db.now (queried_key series_query.now) series_query.now.query.now.from
        series_query.now.query.now.to }
{
    series_query.known();
    match row_plan(series_query, steps) {
        None => put(&too_many_rows(), out),
        Some(plan) => write_planned_rows(series_query, &plan, out, steps),
    }
}

// Writes the rows of a row plan, one by one.
fn write_planned_rows<L: Ledger>(
    series_query: &SeriesQuery<'_>,
    plan: &RowPlan,
    out: &mut Out,
    steps: &mut Steps<L>,
)
    requires plan { IsRowPlan series_query.now.query.now (queried_samples series_query.now) plan.now }
    requires empty { out.old.bytes ≡ [] }
    requires room { 128 ≤ out.old.spare }
    ensures reply { IsReplyText (Rows (queried_rows series_query.now)) out.new.bytes }
    ensures room { 128 ≤ length out.new.bytes + out.new.spare }
    ensures seams { IsSeamed (queried_pieces series_query.now) series_query.now.query.now.from
        series_query.now.query.now.to (steps.old + steps_beside series_query.now plan.now) steps.new }
{
    match out.reserve(FIRST_ROOM) {
        Ok(()) => {}
        Err(_) => {
            write_out_of_memory(out);
            return;
        }
    }
    let row_sink = RowTexts::begin(out.take());
    *out = emit_planned_rows(series_query, plan, row_sink, steps).finish();
}

/// Writes the reply to TS.GET. Allocates nothing.
pub fn write_get<L: Ledger>(db: &Db, key: &Word, latest: bool, out: &mut Out, steps: &mut Steps<L>)
    requires empty { out.old.bytes ≡ [] }
    requires room { 128 ≤ out.old.spare }
    ensures reply { (from : DbState) → Represents db.now from
        → out.new.bytes ≡ text (reply_to (last_response from.state key.now latest (get key.now from.state))) }
    ensures room { 128 ≤ length out.new.bytes + out.new.spare }
    ensures steps { steps.new ≤ steps.old }
{
    match db.last(key, latest, steps) {
        Ok(last) => write_last_row(last, out),
        Err(fault) => put(&refusal_reply(fault), out),
    }
}

// Writes the row of the last sample, or an empty array if there is none.
fn write_last_row(last: Option<Sample>, out: &mut Out)
    requires empty { out.old.bytes ≡ [] }
    requires room { 128 ≤ out.old.spare }
    ensures written { out.new.bytes ≡ text (reply_to (LastRow (option_map row_of_sample last))) }
    ensures room { 128 ≤ length out.new.bytes + out.new.spare }
{
    match last {
        None => begin_array(0, out),
        Some(sample) => write_pair(sample.time, Cell::Number(sample.value), out),
    }
}

/// Writes the reply to TS.MRANGE and TS.MREVRANGE: the rows of each series that matches the filters, or of each group
/// of them.
pub fn write_ranges<L: Ledger>(
    db: &Db,
    filters: &[Filter],
    asked: MemberQuery,
    group: Option<GroupBy>,
    out: &mut Out,
    steps: &mut Steps<L>,
)
    requires empty { out.old.bytes ≡ [] }
    requires room { 128 ≤ out.old.spare }
    ensures reply { (from : DbState) → Represents db.now from
        → IsReplyText
        (ranges_response from.limits from.state asked.latest (show_of asked.show) (query_of asked.query)
        (option_map group_of group) (selection from.state filters.now)) out.new.bytes }
    ensures room { 128 ≤ length out.new.bytes + out.new.spare }
    ensures steps { steps.new ≤ steps.old + members_steps db.now filters.now asked.query.from asked.query.to }
{
    match group {
        None => {
            let wanted = MemberContent::Rows {
                filters: Filters::of(&asked.query).ok(),
                asked,
            };
            write_members(db, filters, &wanted, out, steps);
        }
        Some(by) => {
            let group_query = GroupQuery::new(asked, by);
            write_many(db, filters, &group_query, out, steps);
        }
    }
}

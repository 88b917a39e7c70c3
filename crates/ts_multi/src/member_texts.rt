// Writes members of a reply as text, without building a `Reply` in memory. After an `Err` the output may end in part of
// a member.
ghost use Rattle.std.specs.Prelude.{◌≡◌, ◌+◌, ◌≤◌, ◌++◌, length, map, option_map, OnOk, OnErr};
ghost use Rattle.ts_spec.specs.Text.{text};
ghost use Rattle.ts_range.specs.Query.{row_of};
ghost use Rattle.ts_spec.specs.Queries.{row_list};
ghost use Rattle.ts_multi.specs.Members.{member_with, label_of, head_text};
ghost use Rattle.std.specs.Option.{option_copied};
ghost use Rattle.ts_spec.specs.Replies as spec;

use crate::shown::{ReplyLabel, ReplyLabelList, SeriesLabels};
use std::alloc::AllocError;
use ts_labels::{Labels, Show};
use ts_range::Row;
use ts_resp::{
    Out, PAIR_BYTES, Reply, Word, begin_array, encode, encode_bulk, encode_count, reserve_items,
    write_pair,
};

/// Writes a member of the reply to TS.MRANGE or TS.MREVRANGE: an array of its key, its requested labels and its rows.
/// Grows the output buffer as needed.
pub fn encode_member(
    key: &Word,
    labels: &Labels,
    show: &Show,
    rows: &[Row],
    out: &mut Out,
) -> Result<(), AllocError>
    ensures ok { OnOk result (out.new.bytes
        ≡ out.old.bytes ++ text (spec.member_reply (member_with show.now key.now labels.now (map row_of rows.now)))) }
    ensures room { length out.old.bytes + out.old.spare ≤ length out.new.bytes + out.new.spare }
{
    encode_head(key.bytes(), &SeriesLabels { labels, show }, out)?;
    encode_rows(rows, out)
}

/// Writes a member of the reply to TS.MGET: an array of its key, its requested labels and its last row, or an empty
/// array in place of the row. Grows the output buffer as needed.
pub fn encode_last_member(
    key: &Word,
    labels: &Labels,
    show: &Show,
    last: Option<Row>,
    out: &mut Out,
) -> Result<(), AllocError>
    ensures ok { OnOk result (out.new.bytes
        ≡ out.old.bytes
        ++ text (spec.last_member_reply (member_with show.now key.now labels.now
        (row_list (option_map row_of last))))) }
    ensures room { length out.old.bytes + out.old.spare ≤ length out.new.bytes + out.new.spare }
{
    encode_head(key.bytes(), &SeriesLabels { labels, show }, out)?;
    encode_row(last, out)
}

/// Writes the start of a member, up to its rows: the array header, the key and the requested labels. Grows the output
/// buffer as needed.
pub fn encode_head<S: ReplyLabelList>(
    key: &[u8],
    labels: &S,
    out: &mut Out,
) -> Result<(), AllocError>
    ensures ok { OnOk result (out.new.bytes ≡ out.old.bytes ++ head_text key.now (S.shown labels.now)) }
    ensures room { length out.old.bytes + out.old.spare ≤ length out.new.bytes + out.new.spare }
{
    encode_count(3, out)?;
    encode_bulk(key, out)?;
    encode_labels(labels, out)
}

// Writes the array of the labels that the reply shows.
fn encode_labels<S: ReplyLabelList>(labels: &S, out: &mut Out) -> Result<(), AllocError>
    ensures ok { OnOk result (out.new.bytes ≡ out.old.bytes ++ text (spec.labels_reply (S.shown labels.now))) }
    ensures room { length out.old.bytes + out.old.spare ≤ length out.new.bytes + out.new.spare }
{
    let count = labels.count();
    encode_count(count, out)?;
    for list_index in 0..count {
        encode_label(labels.label(list_index), out)?;
    }
    Ok(())
}

// Writes `[label, value]`, with nil for an absent value.
fn encode_label(label: ReplyLabel<'_>, out: &mut Out) -> Result<(), AllocError>
    ensures ok { OnOk result (out.new.bytes ≡ out.old.bytes ++ text (spec.shown_label_reply (label_of label.entry))) }
    ensures room { length out.old.bytes + out.old.spare ≤ length out.new.bytes + out.new.spare }
{
    encode_count(2, out)?;
    encode_bulk(label.name, out)?;
    encode_value(label.value, out)
}

// Writes a bulk string, or nil.
fn encode_value(value: Option<&[u8]>, out: &mut Out) -> Result<(), AllocError>
    ensures ok { OnOk result (out.new.bytes ≡ out.old.bytes ++ text (spec.bulk_or_nil (option_copied value.entry))) }
    ensures room { length out.old.bytes + out.old.spare ≤ length out.new.bytes + out.new.spare }
{
    match value {
        None => encode(&Reply::Nil, out),
        Some(value) => encode_bulk(value, out),
    }
}

/// Writes the array of the rows. On `Err` the output is unchanged.
pub fn encode_rows(rows: &[Row], out: &mut Out) -> Result<(), AllocError>
    ensures ok { OnOk result (out.new.bytes
        ≡ out.old.bytes ++ text (spec.array (map spec.row_reply (map row_of rows.now)))) }
    ensures err { OnErr result (out.new.bytes ≡ out.old.bytes) }
    ensures room { length out.old.bytes + out.old.spare ≤ length out.new.bytes + out.new.spare }
{
    reserve_items(rows.len(), out)?;
    begin_array(rows.len(), out);
    for row in rows {
        write_pair(row.time, row.value, out);
    }
    Ok(())
}

/// Writes a row, or an empty array if there is none. On `Err` the output is unchanged or ends in part of it.
pub(crate) fn encode_row(row: Option<Row>, out: &mut Out) -> Result<(), AllocError>
    ensures ok { OnOk result (out.new.bytes ≡ out.old.bytes ++ text (spec.last_row_reply (option_map row_of row))) }
    ensures room { length out.old.bytes + out.old.spare ≤ length out.new.bytes + out.new.spare }
{
    let Some(row) = row else {
        return encode_count(0, out);
    };
    out.reserve(PAIR_BYTES)?;
    write_pair(row.time, row.value, out);
    Ok(())
}

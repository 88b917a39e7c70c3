// Replies to queries over many series: the members, their replies, and the array of these.
ghost use Rattle.std.specs.Prelude.{◌≡◌, All, map, IfOk, [], ◌∷◌, pos};
ghost use Rattle.std.specs.Option.{option_copied};
ghost use Rattle.ts_spec.specs.Replies.{array as array_of, member_reply as shown_member};
ghost use Rattle.ts_spec.specs.Replies.{last_member_reply as shown_last};
ghost use Rattle.ts_spec.specs.Replies as spec;
ghost use Rattle.ts_spec.specs.Text.{Bulk};
ghost use Rattle.ts_resp.specs.Replies.{reply_of};
ghost use Rattle.ts_range.specs.Query.{row_of};
ghost use Rattle.ts_multi.specs.Members.{members_of, HasAtMostOneRow, label_of, member_showing};

use crate::shown::{ReplyLabel, ReplyLabelList, SeriesLabels};
use std::alloc::{AllocError, Global};
use ts_labels::{Labels, Show};
use ts_range::Row;
use ts_resp::{Reply, Word};

/// A series in the reply to a query over many series.
#[derive(Debug, Drop)]
pub struct Member {
    pub key: Word,
    /// All its labels. The reply shows the requested ones.
    pub labels: Labels,
    /// The rows of the query over this series.
    pub rows: Vec<Row>,
}

/// The reply to TS.MRANGE and TS.MREVRANGE: `[key, labels, rows]` for each member, in order. A label is `[name,
/// value]`, with nil if it was requested and the series lacks it. A row is `[time, value]`.
pub fn multi(alloc: Global, members: &[Member], show: &Show) -> Result<Reply, AllocError>
    ensures { IfOk result (λ reply. reply_of reply
        ≡ array_of (map shown_member (members_of show.now members.now))) }
{
    let mut replies = Vec::with_capacity(alloc, members.len())?;
    for member in members {
        let labels = SeriesLabels {
            labels: &member.labels,
            show,
        };
        replies.push_reserved(member_reply(alloc, member.key.bytes(), &labels, &member.rows)?);
    }
    Ok(array(replies))
}

/// The reply to TS.MGET: `[key, labels, row]` for each member, in order, with an empty array for a member without rows.
/// Labels are those of `multi`. Each member has at most one row.
pub fn multi_last(alloc: Global, members: &[Member], show: &Show) -> Result<Reply, AllocError>
    requires { All HasAtMostOneRow members.now }
    ensures { IfOk result (λ reply. reply_of reply
        ≡ array_of (map shown_last (members_of show.now members.now))) }
{
    let mut replies = Vec::with_capacity(alloc, members.len())?;
    for member in members {
        let labels = SeriesLabels {
            labels: &member.labels,
            show,
        };
        replies.push_reserved(last_member_reply(alloc, member.key.bytes(), &labels, &member.rows)?);
    }
    Ok(array(replies))
}

/// `[key, labels, rows]`.
pub fn member_reply<S: ReplyLabelList>(
    alloc: Global,
    key: &[u8],
    labels: &S,
    rows: &[Row],
) -> Result<Reply, AllocError>
    ensures { IfOk result (λ reply. reply_of reply
        ≡ spec.member_reply (member_showing key.now (S.shown labels.now) (map row_of rows.now))) }
{
    let mut replies = Vec::with_capacity(alloc, rows.len())?;
    for row in rows {
        replies.push_reserved(row_reply(alloc, *row)?);
    }
    reply_with(alloc, key, labels, array(replies))
}

// `[key, labels, row]`, with the first row, or an empty array if there is none.
pub(crate) fn last_member_reply<S: ReplyLabelList>(
    alloc: Global,
    key: &[u8],
    labels: &S,
    rows: &[Row],
) -> Result<Reply, AllocError>
    ensures { IfOk result (λ reply. reply_of reply
        ≡ spec.last_member_reply (member_showing key.now (S.shown labels.now) (map row_of rows.now))) }
{
    let row = match rows.first() {
        None => array(Vec::new(alloc)),
        Some(row) => row_reply(alloc, *row)?,
    };
    reply_with(alloc, key, labels, row)
}

// `[key, labels, last]`.
fn reply_with<S: ReplyLabelList>(
    alloc: Global,
    key: &[u8],
    labels: &S,
    last: Reply,
) -> Result<Reply, AllocError>
    ensures { IfOk result (λ reply. reply_of reply
        ≡ spec.array (Bulk key.now ∷ spec.labels_reply (S.shown labels.now) ∷ reply_of last ∷ [])) }
{
    let key = Reply::Bulk(Word::from_slice(alloc, key)?);
    let labels = labels_reply(alloc, labels)?;
    Ok(array(vec![in alloc; key, labels, last]?))
}

// The array of the labels that the reply shows.
fn labels_reply<S: ReplyLabelList>(alloc: Global, labels: &S) -> Result<Reply, AllocError>
    ensures { IfOk result (λ reply. reply_of reply ≡ spec.labels_reply (S.shown labels.now)) }
{
    let count = labels.count();
    let mut replies = Vec::with_capacity(alloc, count)?;
    for list_index in 0..count {
        replies.push_reserved(label_reply(alloc, labels.label(list_index))?);
    }
    Ok(array(replies))
}

// `[label, value]`, with nil for an absent value.
fn label_reply(alloc: Global, label: ReplyLabel<'_>) -> Result<Reply, AllocError>
    ensures { IfOk result (λ reply. reply_of reply ≡ spec.shown_label_reply (label_of label.entry)) }
{
    let name = Reply::Bulk(Word::from_slice(alloc, label.name)?);
    let value = bulk_or_nil(alloc, label.value)?;
    Ok(array(vec![in alloc; name, value]?))
}

// A bulk string, or nil.
fn bulk_or_nil(alloc: Global, value: Option<&[u8]>) -> Result<Reply, AllocError>
    ensures { IfOk result (λ reply. reply_of reply ≡ spec.bulk_or_nil (option_copied value.entry)) }
{
    match value {
        None => Ok(Reply::Nil),
        Some(value) => Ok(Reply::Bulk(Word::from_slice(alloc, value)?)),
    }
}

// `[time, value]`.
fn row_reply(alloc: Global, row: Row) -> Result<Reply, AllocError>
    ensures { IfOk result (λ reply. reply_of reply ≡ spec.row_reply (row_of row)) }
{
    let value = Reply::Value(row.value);
    Ok(array(vec![in alloc; Reply::Int(signed_time(row)), value]?))
}

// The time of a row as a reply integer.
fn signed_time(row: Row) -> i64
    ensures { result ≡ pos row.time }
{
    row.time as i64
}

// The array of these replies.
pub(crate) fn array(replies: Vec<Reply>) -> Reply
    ensures { reply_of result ≡ spec.array (map reply_of replies.items) }
{
    Reply::Array(replies)
}

// Builds the reply to a query with GROUPBY.
ghost use Rattle.std.specs.Prelude.{◌≡◌, ◌+◌, ◌≤◌, ◌++◌, List, length, map, IfOk, OnOk, ℕ, [], ◌∷◌, Some};
ghost use Rattle.ts_spec.specs.Groups as spec;
ghost use Rattle.ts_spec.specs.Groups.{Labelled};
ghost use Rattle.ts_spec.specs.Replies as replies;
ghost use Rattle.ts_spec.specs.Text.{text};
ghost use Rattle.ts_spec.specs.Filter.{value_of};
ghost use Rattle.ts_resp.specs.Replies.{reply_of};
ghost use Rattle.ts_labels.specs.Show.{show_of};
ghost use Rattle.ts_command.specs.GroupBy.{group_of};
ghost use Rattle.ts_group.specs.Grouped.{grouped, labelled_of, by_values};
ghost use Rattle.ts_group.specs.Labels.{member_with};

use crate::group_texts::group_key;
use crate::labels::{GroupLabels, LabelsShown};
use crate::one_group::Group;
use crate::options::GroupOptions;
use crate::rows::GroupRows;
use std::alloc::{AllocError, Global};
use std::collections::BTreeMap;
use ts_command::GroupBy;
use ts_labels::Show;
use ts_multi::{Member, member_reply};
use ts_resp::{Out, Reply, Word, encode};

/// The reply to TS.MRANGE and TS.MREVRANGE with GROUPBY: for each value of the label, in ascending order,
/// `[label=value, labels, rows]`. Labels are the requested ones of the group. There are at most `count` rows, newest
/// first if `reverse`. The members must be in the order of their keys.
pub fn group(
    alloc: Global,
    members: &[Member],
    by: &GroupBy,
    show: &Show,
    count: Option<u64>,
    reverse: bool,
) -> Result<Reply, AllocError>
    ensures { IfOk result (λ reply. reply_of reply
        ≡ replies.array
        (map replies.member_reply
        (spec.groups (group_of by.now) (show_of show.now) count reverse (map labelled_of members.now)))) }
{
    let groups = by_value(alloc, members, &by.label)?;
    let options = GroupOptions {
        by,
        show,
        count,
        reverse,
    };
    let mut shown = Vec::with_capacity(alloc, groups.len())?;
    for (value, group) in groups.iter() {
        shown.push_reserved(reply_to(alloc, group, value, &options)?);
    }
    Ok(array(shown))
}

// The array of these replies.
fn array(items: Vec<Reply>) -> Reply
    ensures { reply_of result ≡ replies.array (map reply_of items.items) }
{
    Reply::Array(items)
}

// The reply for the group of `value`.
fn reply_to<'a>(
    alloc: Global,
    group: &'a Group,
    value: &'a Word,
    options: &GroupOptions<'a>,
) -> Result<Reply, AllocError>
    ensures { (ms : List Labelled) → group.now ≡ grouped ms → IfOk result (λ reply. reply_of reply
        ≡ replies.member_reply
        (spec.group (group_of options.now.by.now) (show_of options.now.show.now) options.now.count
        options.now.reverse value.now ms)) }
{
    let (labels, rows) = group.reply_parts(value, options);
    group_reply(alloc, &labels, options.show, rows)
}

// `[label=value, labels, rows]`.
fn group_reply<'a>(
    alloc: Global,
    labels: &GroupLabels<'a>,
    show: &'a Show,
    rows: GroupRows<'_>,
) -> Result<Reply, AllocError>
    ensures { IfOk result (λ reply. reply_of reply
        ≡ replies.member_reply (member_with show.now labels.now rows.entry)) }
{
    let key = group_key(alloc, labels)?;
    let rows = rows.collect_rows(alloc)?;
    let labels = LabelsShown {
        labels: *labels,
        show,
    };
    member_reply(alloc, &key, &labels, &rows)
}

/// Writes the reply that `group` returns for the same arguments. Grows the output buffer as needed.
pub fn encode_groups(
    alloc: Global,
    members: &[Member],
    by: &GroupBy,
    show: &Show,
    count: Option<u64>,
    reverse: bool,
    out: &mut Out,
) -> Result<(), AllocError>
    ensures ok { OnOk result (out.new.bytes ≡ out.old.bytes
        ++ text (replies.array (map replies.member_reply
        (spec.groups (group_of by.now) (show_of show.now) count reverse (map labelled_of members.now))))) }
    ensures room { length out.old.bytes + out.old.spare ≤ length out.new.bytes + out.new.spare }
{
    let reply = group(alloc, members, by, show, count, reverse)?;
    encode(&reply, out)
}

// The group of each value.
pub(crate) type Groups = BTreeMap<Word, Group>;

// Groups members by their value of `label`. Members without the label are left out.
pub(crate) fn by_value(
    alloc: Global,
    members: &[Member],
    label: &Word,
) -> Result<Groups, AllocError>
    ensures { IfOk result (λ groups. groups.entries ≡ by_values label.now (map labelled_of members.now)) }
{
    let mut groups = BTreeMap::new(alloc);
    for member in members {
        add_member(alloc, &mut groups, label, member)?;
    }
    Ok(groups)
}

// Adds a member to its group, if it has the label.
fn add_member(
    alloc: Global,
    groups: &mut Groups,
    label: &Word,
    member: &Member,
) -> Result<(), AllocError>
    ensures { OnOk result ((ms : List Labelled) → groups.old.entries ≡ by_values label.now ms
        → groups.new.entries ≡ by_values label.now (ms ++ labelled_of member.now ∷ [])) }
{
    match member.labels.get(label) {
        None => Ok(()),
        Some(value) => add_to(alloc, groups, value, member),
    }
}

// Adds a member to the group of `value`.
fn add_to(
    alloc: Global,
    groups: &mut Groups,
    value: &Word,
    member: &Member,
) -> Result<(), AllocError>
    ensures { OnOk result ((label : List ℕ) (ms : List Labelled) → value_of label member.now.labels ≡ Some value.now
        → groups.old.entries ≡ by_values label ms
        → groups.new.entries ≡ by_values label (ms ++ labelled_of member.now ∷ [])) }
{
    match groups.get_mut(value) {
        Some(group) => group.add(member),
        None => {
            let mut group = Group::new(alloc);
            group.add(member)?;
            groups.insert(value.copy()?, group)?;
            Ok(())
        }
    }
}

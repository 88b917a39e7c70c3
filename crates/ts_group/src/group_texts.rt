// Writes a group as text. After an `Err` the output may end in part of a group.
ghost use Rattle.std.specs.Prelude.{◌≡◌, ◌+◌, ◌≤◌, ◌++◌, List, length, OnOk, IfOk, map, OnErr};
ghost use Rattle.ts_spec.specs.Groups.{Labelled};
ghost use Rattle.ts_spec.specs.Text.{text};
ghost use Rattle.ts_labels.specs.Show.{show_of};
ghost use Rattle.ts_command.specs.GroupBy.{group_of};
ghost use Rattle.ts_group.specs.Grouped.{grouped};
ghost use Rattle.ts_group.specs.Labels.{key_of, member_with};
ghost use Rattle.ts_spec.specs.Groups as groups;
ghost use Rattle.ts_spec.specs.Replies as spec;

use crate::labels::{GroupLabels, LabelsShown};
use crate::one_group::Group;
use crate::options::GroupOptions;
use crate::rows::GroupRows;
use std::alloc::{AllocError, Global};
use ts_labels::Show;
use ts_multi::encode_head;
use ts_resp::{Out, Word, begin_array, reserve_items, write_pair};

/// Writes the group of `value`. Grows the output buffer as needed.
pub fn encode_group_of<'a>(
    alloc: Global,
    group: &'a Group,
    value: &'a Word,
    options: &GroupOptions<'a>,
    out: &mut Out,
) -> Result<(), AllocError>
    ensures ok { (ms : List Labelled) → group.now ≡ grouped ms → OnOk result (out.new.bytes
        ≡ out.old.bytes ++ text (spec.member_reply
        (groups.group (group_of options.now.by.now) (show_of options.now.show.now) options.now.count
        options.now.reverse value.now ms))) }
    ensures room { length out.old.bytes + out.old.spare ≤ length out.new.bytes + out.new.spare }
{
    let (labels, rows) = group.reply_parts(value, options);
    encode_group(alloc, &labels, options.show, rows, out)
}

/// Writes a group of the reply to TS.MRANGE or TS.MREVRANGE: an array of `label=value`, its requested labels and its
/// rows. Grows the output buffer as needed.
pub fn encode_group<'a>(
    alloc: Global,
    labels: &GroupLabels<'a>,
    show: &'a Show,
    rows: GroupRows<'_>,
    out: &mut Out,
) -> Result<(), AllocError>
    ensures ok { OnOk result (out.new.bytes
        ≡ out.old.bytes ++ text (spec.member_reply (member_with show.now labels.now rows.entry))) }
    ensures room { length out.old.bytes + out.old.spare ≤ length out.new.bytes + out.new.spare }
{
    let key = group_key(alloc, labels)?;
    let labels = LabelsShown {
        labels: *labels,
        show,
    };
    encode_head(&key, &labels, out)?;
    encode_group_rows(rows, out)
}

// The key that a reply shows for a group: `label=value`.
pub(crate) fn group_key(alloc: Global, labels: &GroupLabels<'_>) -> Result<Vec<u8>, AllocError>
    ensures { IfOk result (λ key. key.items ≡ key_of labels.now) }
{
    let mut key = Vec::new(alloc);
    key.extend_from_slice(labels.label)?;
    key.push(b'=')?;
    key.extend_from_slice(labels.value)?;
    Ok(key)
}

/// Writes the array of the rows. On `Err` the output is unchanged.
pub fn encode_group_rows(mut rows: GroupRows<'_>, out: &mut Out) -> Result<(), AllocError>
    ensures ok { OnOk result (out.new.bytes ≡ out.old.bytes ++ text (spec.array (map spec.row_reply rows.entry))) }
    ensures err { OnErr result (out.new.bytes ≡ out.old.bytes) }
    ensures room { length out.old.bytes + out.old.spare ≤ length out.new.bytes + out.new.spare }
{
    let count = rows.len();
    reserve_items(count, out)?;
    begin_array(count, out);
    while let Some(row) = rows.next() {
        write_pair(row.time, row.value, out);
    }
    Ok(())
}

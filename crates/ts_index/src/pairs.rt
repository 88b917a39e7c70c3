// Adds and removes an id in the posting lists of all its labels.
ghost use Rattle.std.specs.Prelude.{◌≡◌, ◌≤◌, ◌==◌, ◌&&◌, ◌||◌, not, true, false, ℕ, List, length, take, OnOk, OnErr};
ghost use Rattle.ts_index.specs.Index.{has_pair};
ghost use Rattle.ts_index.specs.Numbers.{AreAscending, has_id};
ghost use Rattle.ts_index.specs.Pairs.{is_own};
ghost use Rattle.ts_index.specs.Postings.{alike, posting_in};

use crate::lists::{Lists, insert_pair, remove_pair};
use std::alloc::{AllocError, Global};
use ts_labels::Labels;
use ts_resp::Word;
use ts_sample::Id;

// Adds an id to the posting lists of the labels that `others` does not have. On error it is in no more lists than
// before.
pub(crate) fn insert_pairs(
    alloc: Global,
    lists: &mut Lists,
    id: Id,
    labels: &Labels,
    others: &Labels,
) -> Result<(), AllocError>
    requires ascending { (l v : List ℕ) → AreAscending (posting_in l v lists.old) }
    requires absent { (l v : List ℕ) → is_own l v labels.now others.now ≡ true
        → has_id id.0 (posting_in l v lists.old) ≡ false }
    ensures ascending { (l v : List ℕ) → AreAscending (posting_in l v lists.new) }
    ensures ok { OnOk result ((l v : List ℕ) (q : ℕ)
        → has_id q (posting_in l v lists.new)
        ≡ (((q == id.0) && is_own l v labels.now others.now) || has_id q (posting_in l v lists.old))) }
    ensures err { OnErr result ((l v : List ℕ) (q : ℕ)
        → has_id q (posting_in l v lists.new) ≡ has_id q (posting_in l v lists.old)) }
{
    labels.known();
    for i in 0..labels.len() {
        if let Err(error) = insert_unshared(
            alloc,
            lists,
            id,
            labels.label_at(i),
            labels.value_at(i),
            others,
        ) {
            remove_pairs(lists, id, labels, i, others);
            return Err(error);
        }
    }
    Ok(())
}

// Adds an id to the posting list of a label and value, unless `others` has the pair.
fn insert_unshared(
    alloc: Global,
    lists: &mut Lists,
    id: Id,
    label: &Word,
    value: &Word,
    others: &Labels,
) -> Result<(), AllocError>
    requires ascending { (l v : List ℕ) → AreAscending (posting_in l v lists.old) }
    ensures ascending { (l v : List ℕ) → AreAscending (posting_in l v lists.new) }
    ensures ok { OnOk result ((l v : List ℕ) (q : ℕ)
        → has_id q (posting_in l v lists.new)
        ≡ (((q == id.0) && ((alike label.now l && alike value.now v) && not (has_pair l v others.now))) || has_id q
        (posting_in l v lists.old))) }
    ensures err { OnErr result ((l v : List ℕ) → posting_in l v lists.new ≡ posting_in l v lists.old) }
{
    if has_pair(others, label, value) {
        return Ok(());
    }
    insert_pair(alloc, lists, label, value, id)
}

// Removes an id from the posting lists of the first `count` labels, except those that `others` has.
pub(crate) fn remove_pairs(
    lists: &mut Lists,
    id: Id,
    labels: &Labels,
    count: usize,
    others: &Labels,
)
    requires count { count ≤ length labels.now }
    requires ascending { (l v : List ℕ) → AreAscending (posting_in l v lists.old) }
    ensures ascending { (l v : List ℕ) → AreAscending (posting_in l v lists.new) }
    ensures lists { (l v : List ℕ) (q : ℕ)
        → has_id q (posting_in l v lists.new)
        ≡ (has_id q (posting_in l v lists.old) && not
        ((q == id.0) && is_own l v (take count labels.now) others.now)) }
{
    labels.known();
    for i in 0..count {
        remove_unshared(lists, id, labels.label_at(i), labels.value_at(i), others);
    }
}

// Removes an id from the posting list of a label and value, unless `others` has the pair.
fn remove_unshared(lists: &mut Lists, id: Id, label: &Word, value: &Word, others: &Labels)
    requires ascending { (l v : List ℕ) → AreAscending (posting_in l v lists.old) }
    ensures ascending { (l v : List ℕ) → AreAscending (posting_in l v lists.new) }
    ensures lists { (l v : List ℕ) (q : ℕ)
        → has_id q (posting_in l v lists.new)
        ≡ (has_id q (posting_in l v lists.old) && not
        ((q == id.0) && ((alike label.now l && alike value.now v) && not (has_pair l v others.now)))) }
{
    if has_pair(others, label, value) {
        return;
    }
    remove_pair(lists, label, value, id, &[id]);
}

// Whether the labels contain this label with this value.
fn has_pair(labels: &Labels, label: &Word, value: &Word) -> bool
    ensures { result ≡ has_pair label.now value.now labels.now }
{
    match labels.get(label) {
        Some(there) => there == value,
        None => false,
    }
}

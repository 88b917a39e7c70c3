// Leaves out filters that ask the same as another one.
ghost use Rattle.std.specs.Prelude.{◌≡◌, ◌≤◌, ◌+◌, ◌&&◌, true, List, length, IfOk, OnOk};
ghost use Rattle.ts_spec.specs.State.{Label};
ghost use Rattle.ts_spec.specs.Filter.{holds, all_hold};
ghost use Rattle.ts_index.specs.Selecting.{lent};

use std::alloc::{AllocError, Global};
use std::cmp::Ordering;
use ts_labels::Filter;

// Of the filters that ask the same, one each.
pub(crate) fn distinct(alloc: Global, filters: &[Filter]) -> Result<Vec<&Filter>, AllocError>
    ensures same { IfOk result
        (λ kept. (labels : List Label) → all_hold (lent kept.items) labels ≡ all_hold filters.now labels) }
    ensures few { IfOk result (λ kept. length kept.items ≤ length filters.now) }
{
    let all = in_order(alloc, filters)?;
    let mut kept = Vec::new(alloc);
    for filter in all.as_slice() {
        add(&mut kept, *filter)?;
    }
    Ok(kept)
}

// The filters, where those that ask the same stand together.
fn in_order(alloc: Global, filters: &[Filter]) -> Result<Vec<&Filter>, AllocError>
    ensures same { IfOk result
        (λ sorted. (labels : List Label) → all_hold (lent sorted.items) labels ≡ all_hold filters.now labels) }
    ensures len { IfOk result (λ sorted. length sorted.items ≡ length filters.now) }
{
    let mut sorted = Vec::with_capacity(alloc, filters.len())?;
    for filter in filters {
        sorted.push(filter)?;
    }
    sorted.sort_unstable_by(|one, other| one.compare(*other));
    Ok(sorted)
}

// Adds a filter, unless it asks the same as the last one.
fn add<'a>(kept: &mut Vec<&'a Filter>, filter: &'a Filter) -> Result<(), AllocError>
    ensures same { OnOk result ((labels : List Label)
        → all_hold (lent kept.new.items) labels ≡ (all_hold (lent kept.old.items) labels && holds filter.now labels)) }
    ensures few { OnOk result (length kept.new.items ≤ length kept.old.items + 1) }
{
    if repeats_last(kept.as_slice(), filter) {
        return Ok(());
    }
    kept.push(filter)?;
    Ok(())
}

// Whether a filter asks the same as the last one.
fn repeats_last(kept: &[&Filter], filter: &Filter) -> bool
    ensures { result ≡ true → (labels : List Label) → all_hold (lent kept.now) labels ≡ true
        → holds filter.now labels ≡ true }
{
    let Some((last, _)) = kept.split_last() else {
        return false;
    };
    matches!(last.compare(filter), Ordering::Equal)
}

// Aggregates of rows by time. After an `Err` it may have part of a row.
ghost use Rattle.std.specs.Prelude.{◌≡◌, ◌++◌, ℕ, None, Some, List, [], ◌∷◌, length, MatchOption, OnOk, OnErr};
ghost use Rattle.std.specs.BTreeMap.{insert_entry, is_at};
ghost use Rattle.std.specs.Map.{lookup};
ghost use Rattle.std.specs.Ordering.{nat_cmp};
ghost use Rattle.ts_spec.specs.Answer.{Row as TheRow};
ghost use Rattle.ts_range.specs.Query.{row_of};
ghost use Rattle.ts_group.specs.SlotIndices.{AreSlotEntries};
ghost use Rattle.ts_group.specs.Summaries.{AreTimely, summaries};

use crate::slots::{Slot, is_slot_of};
use std::alloc::{AllocError, Global};
use std::collections::BTreeMap;
use std::collections::btree_map::Iter;
use std::marker::Model;
use ts_agg::Running;
use ts_range::Row;

// The aggregate of each time. A series that has the same times as the previous one needs no search.
#[derive(Drop)]
pub(crate) struct Summaries {
    // the index of the slot of each time
    slot_indices: BTreeMap<u64, usize>,
    // the slots, in the order in which their times first arrived
    slots: Vec<Slot>,
    // the index of the last row's slot; the next row often belongs to the slot after it
    last: usize,
}

impl Model for Summaries {
    ghost use Rattle.ts_group.specs.Summaries.{Summaries as TheSummaries};
    ghost use Rattle.ts_group.specs.SlotIndices.{summaries_in, AreSlotEntries};

    ghost Value = { TheSummaries };

    ghost view = { λ s. summaries_in s.slots.items s.slot_indices.entries };

    ghost invariant = { λ s. AreSlotEntries s.slots.items s.slot_indices.entries };
}

impl Summaries {
    // No rows yet. Allocates nothing.
    pub(crate) fn new(alloc: Global) -> Summaries
        ensures { result ≡ [] }
    {
        Summaries {
            slot_indices: BTreeMap::new(alloc),
            slots: Vec::new(alloc),
            last: 0,
        }
    }

    // Adds a row.
    pub(crate) fn add(&mut self, row: Row) -> Result<(), AllocError>
        requires timely { AreTimely self.old }
        ensures added { OnOk result ((rows : List TheRow) → self.old ≡ summaries rows
            → self.new ≡ summaries (rows ++ row_of row ∷ [])) }
        ensures timely { AreTimely self.new }
    {
        let next = self.last.saturating_add(1);
        match slot_index_of(&self.slot_indices, &self.slots, next, row.time) {
            Some(list_index) => {
                self.last = list_index;
                self.slots[list_index].count(row)
            }
            None => {
                let slot = Slot::of_row(row)?;
                self.last = add_slot(&mut self.slot_indices, &mut self.slots, slot)?;
                Ok(())
            }
        }
    }

    // The number of times.
    pub(crate) fn len(&self) -> usize
        ensures { result ≡ length self.now }
    {
        self.slot_indices.len()
    }

    // The times in ascending order, with their aggregates.
    pub(crate) fn iter(&self) -> SummaryIter<'_>
        ensures { result ≡ self.now }
    {
        SummaryIter {
            slot_indices: self.slot_indices.iter(),
            slots: &self.slots,
        }
    }
}

// The index of the slot of `time`, if there is one. Tries index `next` before searching.
fn slot_index_of(
    slot_indices: &BTreeMap<u64, usize>,
    slots: &[Slot],
    next: usize,
    time: u64,
) -> Option<usize>
    requires { AreSlotEntries slots.now slot_indices.now.entries }
    ensures { result ≡ lookup (is_at (nat_cmp time)) slot_indices.now.entries }
{
    if is_slot_of(slots, next, time) {
        return Some(next);
    }
    slot_indices.get(&time).copied()
}

// Adds a slot for a new time and returns its index. On `Err` nothing changes.
fn add_slot(
    slot_indices: &mut BTreeMap<u64, usize>,
    slots: &mut Vec<Slot>,
    slot: Slot,
) -> Result<usize, AllocError>
    requires { lookup (is_at (nat_cmp slot.time)) slot_indices.old.entries ≡ None }
    ensures slot_indices { OnOk result (slot_indices.new.entries
        ≡ insert_entry nat_cmp slot_indices.old.entries slot.time (length slots.old.items)) }
    ensures slots { OnOk result (slots.new.items ≡ slots.old.items ++ slot ∷ []) }
    ensures same_places { OnErr result (slot_indices.new.entries ≡ slot_indices.old.entries) }
    ensures same_slots { OnErr result (slots.new.items ≡ slots.old.items) }
{
    let list_index = slots.len();
    let time = slot.time;
    slots.push(slot)?;
    if slot_indices.insert(time, list_index).is_err() {
        slots.pop();
        return Err(AllocError);
    }
    Ok(list_index)
}

// An iterator over times and aggregates, from both ends.
#[derive(Drop)]
pub(crate) struct SummaryIter<'a> {
    slot_indices: Iter<'a, u64, usize>,
    slots: &'a [Slot],
}

impl<'a> Model for SummaryIter<'a> {
    ghost use Rattle.ts_group.specs.Summaries.{Summaries as TheSummaries};
    ghost use Rattle.ts_group.specs.SlotIndices.{summaries_in, AreWithin};

    ghost Value = { TheSummaries };

    ghost view = { λ i. summaries_in i.slots.now i.slot_indices };

    ghost invariant = { λ i. AreWithin i.slots.now i.slot_indices };
}

impl<'a> SummaryIter<'a> {
    // The first remaining one.
    pub(crate) fn next(&mut self) -> Option<(u64, &'a Running)>
        ensures { MatchOption result ((self.old ≡ []) × (self.new ≡ [])) (λ e. self.old ≡ (e.0, e.1.now) ∷ self.new) }
    {
        let (time, list_index) = self.slot_indices.next()?;
        Some((*time, &self.slots[*list_index].running))
    }

    // The last remaining one.
    pub(crate) fn next_back(&mut self) -> Option<(u64, &'a Running)>
        ensures { MatchOption result ((self.old ≡ []) × (self.new ≡ [])) (λ e. self.old
            ≡ self.new ++ (e.0, e.1.now) ∷ []) }
    {
        let (time, list_index) = self.slot_indices.next_back()?;
        Some((*time, &self.slots[*list_index].running))
    }
}

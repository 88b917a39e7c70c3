// Replaces a range of items in a ring buffer without allocating. If the count changes by one, the shorter side of the
// ring moves by one. The ring is rotated only if the count changes by more.
ghost use Rattle.std.specs.Prelude.{◌≡◌, ◌<◌, ◌≤◌, ◌+◌, ◌-◌, [], length, take, drop};
ghost use Rattle.std.specs.VecDeque.{deque_capacity};
ghost use Rattle.ts_series.specs.Stored.{replaced};

use std::collections::VecDeque;

// Replaces the items `start..end`. If there are as many new ones, no other item moves.
pub(crate) fn replace_between<T: Drop>(
    ring: &mut VecDeque<T>,
    start: usize,
    end: usize,
    mut items: Vec<T>,
)
    requires ordered { start ≤ end }
    requires within { end ≤ length ring.old.items }
    requires room { length (replaced start end items.items ring.old.items) ≤ deque_capacity ring.old }
    ensures items { ring.new.items ≡ replaced start end items.items ring.old.items }
    ensures capacity { deque_capacity ring.old ≤ deque_capacity ring.new }
{
    resize_gap(ring, start, end, &mut items);
    overwrite_items(ring, start, items);
}

// Makes the gap `start..end` as long as `items`. If it is too short, moves the last items into the ring behind it.
fn resize_gap<T: Drop>(ring: &mut VecDeque<T>, start: usize, end: usize, items: &mut Vec<T>)
    requires ordered { start ≤ end }
    requires within { end ≤ length ring.old.items }
    requires room { length (replaced start end items.old.items ring.old.items) ≤ deque_capacity ring.old }
    ensures within { start + length items.new.items ≤ length ring.new.items }
    ensures left { replaced start (start + length items.new.items) items.new.items ring.new.items
        ≡ replaced start end items.old.items ring.old.items }
    ensures capacity { deque_capacity ring.old ≤ deque_capacity ring.new }
{
    let (places, wanted) = (end - start, items.len());
    if places < wanted {
        return insert_before(ring, end, items, places);
    }
    if wanted < places {
        remove_interval(ring, start + wanted, end);
    }
}

// Moves the last of `items` into the ring at index `place`, until `left` of them remain.
fn insert_before<T: Drop>(ring: &mut VecDeque<T>, place: usize, items: &mut Vec<T>, left: usize)
    requires within { place ≤ length ring.old.items }
    requires enough { left ≤ length items.old.items }
    requires room { length ring.old.items + length items.old.items ≤ deque_capacity ring.old + left }
    ensures ring { ring.new.items ≡ replaced place place (drop left items.old.items) ring.old.items }
    ensures items { items.new.items ≡ take left items.old.items }
    ensures capacity { deque_capacity ring.old ≤ deque_capacity ring.new }
{
    if items.len() - left == 1 {
        return insert_last(ring, place, items);
    }
    ring.rotate_left(place);
    while left < items.len() {
        if let Some(item) = items.pop() {
            ring.push_front_reserved(item);
        }
    }
    ring.rotate_right(place);
}

// Moves the last of `items` into the ring at index `place`.
fn insert_last<T: Drop>(ring: &mut VecDeque<T>, place: usize, items: &mut Vec<T>)
    requires within { place ≤ length ring.old.items }
    requires some { 0 < length items.old.items }
    requires room { length ring.old.items < deque_capacity ring.old }
    ensures ring { ring.new.items
        ≡ replaced place place (drop (length items.old.items - 1) items.old.items) ring.old.items }
    ensures items { items.new.items ≡ take (length items.old.items - 1) items.old.items }
    ensures capacity { deque_capacity ring.old ≤ deque_capacity ring.new }
{
    if let Some(item) = items.pop() {
        // The ring has capacity for it.
        ring.insert(place, item).unwrap();
    }
}

// Removes the items `start..end`.
fn remove_interval<T: Drop>(ring: &mut VecDeque<T>, start: usize, end: usize)
    requires ordered { start ≤ end }
    requires within { end ≤ length ring.old.items }
    ensures items { ring.new.items ≡ replaced start end [] ring.old.items }
    ensures capacity { deque_capacity ring.new ≡ deque_capacity ring.old }
{
    if end - start == 1 {
        ring.remove(start);
        return;
    }
    ring.rotate_left(start);
    for _ in start..end {
        ring.pop_front();
    }
    ring.rotate_right(start);
}

// Overwrites the items from index `start` on with `items`. No other item moves.
fn overwrite_items<T: Drop>(ring: &mut VecDeque<T>, start: usize, mut items: Vec<T>)
    requires within { start + length items.items ≤ length ring.old.items }
    ensures items { ring.new.items ≡ replaced start (start + length items.items) items.items ring.old.items }
    ensures capacity { deque_capacity ring.new ≡ deque_capacity ring.old }
{
    while let Some(item) = items.pop() {
        ring[start + items.len()] = item;
    }
}

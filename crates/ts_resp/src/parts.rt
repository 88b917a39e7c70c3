// Writes replies piece by piece: bulk strings, array headers, and a sample as a two-item array, `[time, value]`.
ghost use Rattle.std.specs.Prelude.{◌≡◌, ◌+◌, ◌*◌, ◌^◌, ◌<◌, ◌≤◌, ◌++◌, length, OnOk, OnErr, drop, replicate, take};
ghost use Rattle.std.specs.Prelude.{pos, slice_range};
ghost use Rattle.std.specs.Fmt.{decimal};
ghost use Rattle.ts_spec.specs.Text.{Bulk, text, line_text, CRLF, Int, Value, Array, Item, Empty, shown_cell};
ghost use Rattle.ts_resp.specs.Replies.{value_of};

use crate::Out;
use crate::reply::{begin_array, bulk_len, count_len, write_bulk};
use itoa::{Buffer, write_digits};
use std::alloc::AllocError;
use std::ops::Range;
use ts_decimal::put_value;
use ts_sample::Cell;

/// Reserves capacity for an array of `count` items of at most `PAIR_BYTES` bytes each.
pub fn reserve_items(count: usize, out: &mut Out) -> Result<(), AllocError>
    ensures room { OnOk result (64 * count + 64 ≤ out.new.spare) }
    ensures few { OnOk result (count < 2 ^ 64) }
    ensures bytes { out.new.bytes ≡ out.old.bytes }
    ensures kept { out.old.spare ≤ out.new.spare }
{
    let Some(items) = count.checked_mul(PAIR_BYTES) else {
        return Err(AllocError);
    };
    let Some(room) = items.checked_add(PAIR_BYTES) else {
        return Err(AllocError);
    };
    out.reserve(room)
}

/// Appends a bulk string, reserving the capacity it needs. On error the bytes are unchanged.
pub fn encode_bulk(bytes: &[u8], out: &mut Out) -> Result<(), AllocError>
    ensures ok { OnOk result (out.new.bytes ≡ out.old.bytes ++ text (Bulk bytes.now)) }
    ensures err { OnErr result (out.new.bytes ≡ out.old.bytes) }
    ensures full { OnErr result (out.old.spare < length (text (Bulk bytes.now))) }
    ensures room { length out.old.bytes + out.old.spare ≤ length out.new.bytes + out.new.spare }
{
    let room = out.spare();
    match bulk_len(bytes) {
        Some(size) if size <= room => {}
        Some(size) => out.reserve(size)?,
        None => return Err(AllocError),
    }
    write_bulk(bytes, out);
    Ok(())
}

/// Appends the header of an array of `count` items, reserving the capacity it needs. On error the bytes are unchanged.
pub fn encode_count(count: usize, out: &mut Out) -> Result<(), AllocError>
    ensures ok { OnOk result (out.new.bytes ≡ out.old.bytes ++ line_text 42 (decimal count)) }
    ensures err { OnErr result (out.new.bytes ≡ out.old.bytes) }
    ensures full { OnErr result (out.old.spare < length (line_text 42 (decimal count))) }
    ensures room { length out.old.bytes + out.old.spare ≤ length out.new.bytes + out.new.spare }
{
    out.reserve(count_len(count))?;
    begin_array(count, out);
    Ok(())
}

/// The maximum size of an array header, in bytes.
pub const GAP: usize = 24;

/// Leaves a gap of `GAP` bytes for the header of an array whose length is not known yet. Allocates nothing.
pub fn open_array(out: &mut Out)
    requires { 24 ≤ out.old.spare }
    ensures bytes { out.new.bytes ≡ out.old.bytes ++ replicate 24 0 }
    ensures total { length out.new.bytes + out.new.spare ≡ length out.old.bytes + out.old.spare }
{
    out.add(&[0; GAP]);
}

/// Writes the header of an array of `count` items into the gap at the front of the buffer. The unused part of the gap
/// is lost until the buffer is cleared. Allocates nothing.
pub fn close_array(count: usize, out: &mut Out)
    requires { 24 ≤ length out.old.bytes }
    ensures bytes { out.new.bytes ≡ line_text 42 (decimal count) ++ drop 24 out.old.bytes }
    ensures total { length out.old.bytes + out.old.spare ≤ length out.new.bytes + out.new.spare + 24 }
{
    let mut buffer = Buffer::new();
    out.end_gap(GAP, b'*', buffer.format(count).as_bytes());
}

// Writes a line to the front of a slice.
pub(crate) fn write_line(first: u8, others: &[u8], room: &mut [u8])
    requires { length others.now + 3 ≤ length room.old }
    ensures { room.new ≡ line_text first others.now ++ drop (length others.now + 3) room.old }
{
    let end = others.len() + 1;
    room[0] = first;
    room[1..end].copy_from_slice(others);
    room[end..end + 2].copy_from_slice(b"\r\n");
}

/// The maximum size of an encoded pair, in bytes.
pub const PAIR_BYTES: usize = 64;

// Size of the scratch block, in bytes. Large enough to copy `PAIR_BYTES` bytes from any start.
const BLOCK: usize = 128;

// The offset in the block at which the integer part of the value ends.
const POINT: usize = 56;

/// Appends the array `[number, value]` to `out`. Needs `PAIR_BYTES` bytes of reserved capacity. Allocates nothing.
pub fn write_pair(number: u64, cell: Cell, out: &mut Out)
    requires { 64 ≤ out.old.spare }
    ensures bytes { out.new.bytes
        ≡ out.old.bytes ++ text (Array (Item (Int (pos number)) (Item (Value (value_of cell)) Empty))) }
    ensures room { out.old.spare ≤ out.new.spare + 64 }
    ensures total { length out.new.bytes + out.new.spare ≡ length out.old.bytes + out.old.spare }
{
    let mut block = [0; BLOCK];
    let value = write_cell(cell, &mut block);
    write_line_end(value.end, &mut block);
    let start = write_before(b"\r\n+", value.start, &mut block);
    let start = write_digits(number, &mut block, start);
    let start = write_before(b"*2\r\n:", start, &mut block);
    // Copying a fixed number of bytes compiles to a few moves.
    out.add_front(&block[start..start + PAIR_BYTES], value.end + 2 - start);
}

// Writes a value, or `NaN` if there is none. Returns its range in the block.
#[inline]
fn write_cell(cell: Cell, block: &mut [u8; BLOCK]) -> Range<usize>
    ensures text { slice_range block.new result.start result.end ≡ shown_cell (value_of cell) }
    ensures from { 36 ≤ result.start }
    ensures start { result.start ≤ 56 }
    ensures end { 56 ≤ result.end }
    ensures to { result.end ≤ 63 }
{
    match cell {
        Cell::Number(value) => put_value(value, block, POINT),
        Cell::Nan => write_before(b"NaN", POINT, block)..POINT,
    }
}

// Writes CRLF at offset `place`.
#[inline]
fn write_line_end(place: usize, block: &mut [u8; BLOCK])
    requires { place ≤ 126 }
    ensures { take (place + 2) block.new ≡ take place block.old ++ CRLF }
{
    block[place] = b'\r';
    block[place + 1] = b'\n';
}

// Writes bytes so that they end at offset `place`. Returns where they start.
#[inline]
fn write_before(bytes: &[u8], place: usize, block: &mut [u8; BLOCK]) -> usize
    requires from { length bytes.now ≤ place }
    requires to { place ≤ 128 }
    ensures text { drop result block.new ≡ bytes.now ++ drop place block.old }
    ensures start { result + length bytes.now ≡ place }
{
    let start = place - bytes.len();
    block[start..place].copy_from_slice(bytes);
    start
}

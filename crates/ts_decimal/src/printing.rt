// Formats a value around a fixed position for its decimal point.
ghost use Rattle.std.specs.Prelude.{◌≡◌, ◌+◌, ◌/◌, ◌%◌, ◌^◌, ◌<◌, ◌≤◌, ◌++◌, ◌∷◌, [], length, drop, take, slice_range};
ghost use Rattle.ts_spec.specs.Value.{places, shown_value, shown_fraction};
ghost use Rattle.ts_decimal.specs.Printing.{sign_text};

use itoa::write_digits;
use std::ops::Range;
use ts_sample::Units;

/// The offset in the buffer where the whole part ends.
const POINT: usize = 20;

/// Splits a magnitude in millionths into its whole part and the remaining millionths.
#[inline]
fn split_magnitude(magnitude: u128) -> (u64, u32)
    requires { magnitude ≤ 10 ^ 24 }
    ensures whole { result.0 ≡ magnitude / 10 ^ 6 }
    ensures part { result.1 ≡ magnitude % 10 ^ 6 }
    ensures small { result.0 ≤ 10 ^ 18 }
{
    if magnitude <= u64::MAX as u128 {
        let few = magnitude as u64;
        return (few / 1_000_000, (few % 1_000_000) as u32);
    }
    (
        (magnitude / 1_000_000) as u64,
        (magnitude % 1_000_000) as u32,
    )
}

/// Writes `-` before offset `place` if `negative`. Returns the offset where the text starts.
#[inline]
fn write_sign(negative: bool, place: usize, room: &mut [u8]) -> usize
    requires from { 1 ≤ place }
    requires to { place ≤ length room.old }
    ensures text { drop result room.new ≡ sign_text negative ++ drop place room.old }
    ensures start { result + length (sign_text negative) ≡ place }
    ensures before { place ≤ result + 1 }
{
    if negative {
        room[place - 1] = b'-';
        place - 1
    } else {
        place
    }
}

/// Writes two digits at offset `place`.
#[inline]
fn write_two_digits(number: u32, room: &mut [u8], place: usize)
    requires small { number < 100 }
    requires fits { place + 2 ≤ length room.old }
    ensures text { take (place + 2) room.new ≡ take place room.old ++ (48 + number / 10) ∷ (48 + number % 10) ∷ [] }
{
    room[place] = b'0' + (number / 10) as u8;
    room[place + 1] = b'0' + (number % 10) as u8;
}

/// Writes up to two decimal places at offset `place`, without trailing zeros. Returns the offset after them.
#[inline]
fn write_last_two(number: u32, room: &mut [u8], place: usize) -> usize
    requires small { number < 100 }
    requires fits { place + 2 ≤ length room.old }
    ensures text { take result room.new ≡ take place room.old ++ places 2 number }
    ensures from { place ≤ result }
    ensures to { result ≤ place + 2 }
{
    write_two_digits(number, room, place);
    if number % 10 != 0 {
        return place + 2;
    }
    if number != 0 { place + 1 } else { place }
}

/// Writes up to four decimal places at offset `place`, without trailing zeros. Returns the offset after them.
#[inline]
fn write_last_four(number: u32, room: &mut [u8], place: usize) -> usize
    requires small { number < 10000 }
    requires fits { place + 4 ≤ length room.old }
    ensures text { take result room.new ≡ take place room.old ++ places 4 number }
    ensures from { place ≤ result }
    ensures to { result ≤ place + 4 }
{
    let rest = number % 100;
    if rest == 0 {
        return write_last_two(number / 100, room, place);
    }
    write_two_digits(number / 100, room, place);
    write_last_two(rest, room, place + 2)
}

/// Writes the point and the fraction, unless the fraction is 0. Returns the offset after the last digit.
#[inline]
fn write_fraction(millionths: u32, room: &mut [u8], point: usize) -> usize
    requires small { millionths < 10 ^ 6 }
    requires fits { point + 7 ≤ length room.old }
    ensures text { take result room.new ≡ take point room.old ++ shown_fraction millionths }
    ensures from { point ≤ result }
    ensures to { result ≤ point + 7 }
{
    if millionths == 0 {
        return point;
    }
    room[point] = b'.';
    let rest = millionths % 10_000;
    if rest == 0 {
        return write_last_two(millionths / 10_000, room, point + 1);
    }
    write_two_digits(millionths / 10_000, room, point + 1);
    write_last_four(rest, room, point + 3)
}

/// Writes the value's text so that its whole part ends at offset `point`. Returns the range of the text.
#[inline]
pub fn put_value(value: Units, room: &mut [u8], point: usize) -> Range<usize>
    requires before { 20 ≤ point }
    requires after { point + 7 ≤ length room.old }
    ensures text { slice_range room.new result.start result.end ≡ shown_value value }
    ensures from { point ≤ result.start + 20 }
    ensures start { result.start ≤ point }
    ensures end { point ≤ result.end }
    ensures to { result.end ≤ point + 7 }
{
    let number = value.get();
    let (whole, millionths) = split_magnitude(number.unsigned_abs());
    let end = write_fraction(millionths, room, point);
    let place = write_digits(whole, room, point);
    let start = write_sign(number < 0, place, room);
    start..end
}

/// The text of a value, written into `room`: `-` if it is negative, the whole part without leading zeros, and, unless
/// the fraction is zero, a point and the fraction without trailing zeros. At most 27 bytes.
pub fn print(value: Units, room: &mut [u8; 32]) -> &[u8]
    ensures text { result.now ≡ shown_value value }
    ensures short { length result.now ≤ 27 }
{
    let place = put_value(value, room, POINT);
    &room[place.start..place.end]
}

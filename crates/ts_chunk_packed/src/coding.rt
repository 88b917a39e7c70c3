// Codes a sample as its differences from the sample before it.
ghost use Rattle.std.specs.Prelude.{◌≡◌, ◌+◌, ◌^◌, ◌≤◌, pos, ◌+ℤ◌, ◌-ℤ◌, ◌≤ℤ◌, ◌<ℤ◌, ◌++◌, length, unsigned_abs};
ghost use Rattle.std.specs.Prelude.{vec_len, vec_capacity, ℕ, List};
ghost use Rattle.ts_spec.specs.Sample.{MAX_TIME, Point};
ghost use Rattle.ts_spec.specs.Value.{bound};
ghost use Rattle.ts_chunk_packed.specs.Packed.{coded, gap, number_of, sample_of, zigzag, unzigzag, packed, decoded};
ghost use Rattle.ts_chunk_packed.specs.Reading.{Begins, Follows};

use crate::context::Context;
use crate::varint::{put, read, width, width_wide, write_wide};
use crate::zigzag::{add_delta, add_narrow, add_wide, apart, apart_wide};
use ts_sample::{Sample, Units};

/// The largest coded sample, in bytes.
pub const MAX_SAMPLE_BYTES: usize = 27;

/// The size of the coded sample, in bytes.
pub fn width_of(context: &Context, sample: &Sample) -> usize
    requires { context.now.before.time ≤ sample.now.time }
    ensures { result ≡ length (coded context.now sample.now) }
{
    let numbers = numbers_of(context, sample);
    width(numbers.time) + width_wide(numbers.value) + width(numbers.made)
}

/// Appends the coded sample. Allocates nothing.
pub fn encode(bytes: &mut Vec<u8>, context: &Context, sample: &Sample)
    requires later { context.now.before.time ≤ sample.now.time }
    requires room { vec_len bytes.old + length (coded context.now sample.now) ≤ vec_capacity bytes.old }
    ensures items { bytes.new.items ≡ bytes.old.items ++ coded context.now sample.now }
    ensures capacity { vec_capacity bytes.new ≡ vec_capacity bytes.old }
{
    let numbers = numbers_of(context, sample);
    put(bytes, numbers.time);
    write_wide(bytes, numbers.value);
    put(bytes, numbers.made);
}

/// Decodes the first sample of `bytes`. Returns it and the remaining bytes.
#[inline(always)]
pub fn decode<'a>(context: &Context, bytes: &'a [u8]) -> (Sample, &'a [u8])
    requires { Follows context.now bytes.now }
    ensures sample { result.0 ≡ (sample_of context.now bytes.now).0 }
    ensures rest { result.1.now ≡ (sample_of context.now bytes.now).1 }
{
    context.known();
    let before = context.before();
    let (time, bytes) = time_after(context, bytes);
    let (value, bytes) = value_after(before.value.get(), bytes);
    let (made, bytes) = made_after(before.made, bytes);
    let value = Units::of_millionths(value);
    (Sample { value, time, made }, bytes)
}

// The three numbers that code a sample.
#[derive(Clone, Copy)]
struct Numbers {
    time: u64,
    value: u128,
    made: u64,
}

fn numbers_of(context: &Context, sample: &Sample) -> Numbers
    requires { context.now.before.time ≤ sample.now.time }
    ensures time { result.time ≡ zigzag (gap context.now sample.now.time -ℤ context.now.step) }
    ensures value { result.value ≡ zigzag (sample.now.value -ℤ context.now.before.value) }
    ensures made { result.made ≡ zigzag (pos sample.now.made -ℤ pos context.now.before.made) }
{
    context.known();
    sample.known();
    let before = context.before();
    Numbers {
        time: apart(context.step(), sample.time - before.time),
        value: apart_wide(before.value.get(), sample.value.get()),
        made: apart(before.made as u64, sample.made as u64),
    }
}

// Decodes a time from the first number of `bytes`. Returns it and the remaining bytes.
#[inline(always)]
fn time_after<'a>(context: &Context, bytes: &'a [u8]) -> (u64, &'a [u8])
    requires begins { Begins (2 ^ 64) bytes.now }
    requires least { pos 0 ≤ℤ (context.now.step +ℤ unzigzag (number_of bytes.now).0) }
    requires most { (pos context.now.before.time +ℤ (context.now.step +ℤ unzigzag (number_of bytes.now).0)) ≤ℤ pos
        MAX_TIME }
    ensures time { pos result.0
        ≡ pos context.now.before.time +ℤ (context.now.step +ℤ unzigzag (number_of bytes.now).0) }
    ensures rest { result.1.now ≡ (number_of bytes.now).1 }
{
    let (number, rest) = read(bytes);
    let gap = add_delta(context.step(), number);
    (context.before().time + gap, rest)
}

// Decodes a value from the first number of `bytes`. Returns it and the remaining bytes. A number of up to six bytes
// needs no loop.
#[inline(always)]
fn value_after(from: i128, bytes: &[u8]) -> (i128, &[u8])
    requires from { unsigned_abs from ≤ bound }
    requires begins { Begins (2 ^ 120) bytes.now }
    ensures value { result.0 ≡ from +ℤ unzigzag (number_of bytes.now).0 }
    ensures rest { result.1.now ≡ (number_of bytes.now).1 }
{
    let first = bytes[0] as u64;
    if first < 128 {
        return (add_narrow(from, first), &bytes[1..]);
    }
    let one = first - 128;
    let second = bytes[1] as u64;
    if second < 128 {
        return (add_narrow(from, one + second * 128), &bytes[2..]);
    }
    let two = one + (second - 128) * 128;
    let third = bytes[2] as u64;
    if third < 128 {
        return (add_narrow(from, two + third * 16_384), &bytes[3..]);
    }
    let three = two + (third - 128) * 16_384;
    let fourth = bytes[3] as u64;
    if fourth < 128 {
        return (add_narrow(from, three + fourth * 2_097_152), &bytes[4..]);
    }
    let four = three + (fourth - 128) * 2_097_152;
    let fifth = bytes[4] as u64;
    if fifth < 128 {
        return (add_narrow(from, four + fifth * 268_435_456), &bytes[5..]);
    }
    let five = four + (fifth - 128) * 268_435_456;
    let sixth = bytes[5] as u64;
    if sixth < 128 {
        return (add_narrow(from, five + sixth * 34_359_738_368), &bytes[6..]);
    }
    value_after_long(from, bytes)
}

// Decodes a value byte by byte. A number of up to nine bytes is computed in 64 bits.
#[inline(always)]
fn value_after_long(from: i128, bytes: &[u8]) -> (i128, &[u8])
    requires from { unsigned_abs from ≤ bound }
    requires begins { Begins (2 ^ 120) bytes.now }
    ensures value { result.0 ≡ from +ℤ unzigzag (number_of bytes.now).0 }
    ensures rest { result.1.now ≡ (number_of bytes.now).1 }
{
    let mut number: u64 = 0;
    let mut weight: u64 = 1;
    let mut at = 0;
    while weight <= 1 << 56 {
        let byte = bytes[at];
        if byte < 128 {
            let near = number + byte as u64 * weight;
            return (add_narrow(from, near), &bytes[at + 1..]);
        }
        number += (byte - 128) as u64 * weight;
        weight *= 128;
        at += 1;
    }
    let (higher, rest) = read(&bytes[at..]);
    let far = number as u128 + higher as u128 * weight as u128;
    (add_wide(from, far), rest)
}

// Decodes a rule count from the first number of `bytes`. Returns it and the remaining bytes. It mostly equals the
// count before it.
#[inline(always)]
fn made_after(from: u32, bytes: &[u8]) -> (u32, &[u8])
    requires begins { Begins (2 ^ 64) bytes.now }
    requires least { pos 0 ≤ℤ (pos from +ℤ unzigzag (number_of bytes.now).0) }
    requires most { (pos from +ℤ unzigzag (number_of bytes.now).0) <ℤ pos (2 ^ 32) }
    ensures made { pos result.0 ≡ pos from +ℤ unzigzag (number_of bytes.now).0 }
    ensures rest { result.1.now ≡ (number_of bytes.now).1 }
{
    if bytes[0] == 0 {
        return (from, &bytes[1..]);
    }
    let (number, rest) = read(bytes);
    (add_delta(from as u64, number) as u32, rest)
}

/// Decoding the coded samples gives them back, in whatever order their times are, and leaves the bytes that follow.
pub fn packed_samples_read_back()
    ensures { (ps : List Point) (rest : List ℕ) → decoded (length ps) (packed ps ++ rest) ≡ (ps, rest) }
{}

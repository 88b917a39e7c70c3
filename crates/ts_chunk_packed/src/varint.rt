// Variable-length integers: seven bits a byte, the lowest first, as in LEB128.
#![tactic(auto, using(crate::proofs::Grouping::group_written, crate::proofs::Grouping::length_large, crate::proofs::Grouping::length_small, crate::specs::Numbers::some_bytes))]

ghost use Rattle.std.specs.Prelude.{◌≡◌, ◌+◌, ◌*◌, ◌^◌, ◌<◌, ◌≤◌, ◌++◌, drop, length, vec_len, vec_capacity};
ghost use Rattle.ts_chunk_packed.specs.Packed.{number, number_of};
ghost use Rattle.ts_chunk_packed.specs.Reading.{Begins};

/// The size of a 64-bit number, in bytes.
pub fn width(natural: u64) -> usize
    ensures { result ≡ length (number natural) }
{
    let mut rest = natural;
    let mut width = 1;
    while rest >= 128 {
        rest /= 128;
        width += 1;
    }
    width
}

/// The size of a 128-bit number, in bytes.
pub fn width_wide(natural: u128) -> usize
    ensures { result ≡ length (number natural) }
{
    let mut rest = natural;
    let mut width = 0;
    while rest >= 1 << 64 {
        rest /= 128;
        width += 1;
    }
    width + self::width(rest as u64)
}

/// Appends a 64-bit number. Allocates nothing.
pub fn put(bytes: &mut Vec<u8>, natural: u64)
    requires room { vec_len bytes.old + length (number natural) ≤ vec_capacity bytes.old }
    ensures items { bytes.new.items ≡ bytes.old.items ++ number natural }
    ensures len { vec_len bytes.new ≡ vec_len bytes.old + length (number natural) }
    ensures capacity { vec_capacity bytes.new ≡ vec_capacity bytes.old }
{
    let mut rest = natural;
    while rest >= 128 {
        bytes.push_reserved((128 + rest % 128) as u8);
        rest /= 128;
    }
    bytes.push_reserved(rest as u8);
}

/// Appends a 128-bit number. Allocates nothing.
pub fn write_wide(bytes: &mut Vec<u8>, natural: u128)
    requires room { vec_len bytes.old + length (number natural) ≤ vec_capacity bytes.old }
    ensures items { bytes.new.items ≡ bytes.old.items ++ number natural }
    ensures len { vec_len bytes.new ≡ vec_len bytes.old + length (number natural) }
    ensures capacity { vec_capacity bytes.new ≡ vec_capacity bytes.old }
{
    let mut rest = natural;
    while rest >= 1 << 64 {
        bytes.push_reserved((128 + rest % 128) as u8);
        rest /= 128;
    }
    put(bytes, rest as u64);
}

/// Reads the first number of `bytes`. Returns it and the remaining bytes. A number of one byte needs no loop.
#[inline(always)]
pub fn read(bytes: &[u8]) -> (u64, &[u8])
    requires { Begins (2 ^ 64) bytes.now }
    ensures number { result.0 ≡ (number_of bytes.now).0 }
    ensures rest { result.1.now ≡ (number_of bytes.now).1 }
{
    let first = bytes[0];
    if first < 128 {
        return (first as u64, &bytes[1..]);
    }
    read_long(bytes)
}

// Reads a number byte by byte.
#[inline(always)]
fn read_long(bytes: &[u8]) -> (u64, &[u8])
    requires { Begins (2 ^ 64) bytes.now }
    ensures number { result.0 ≡ (number_of bytes.now).0 }
    ensures rest { result.1.now ≡ (number_of bytes.now).1 }
{
    let mut number = 0;
    let mut weight = 1;
    let mut at = 0;
    while bytes[at] >= 128 {
        number += (bytes[at] - 128) as u64 * weight;
        weight *= 128;
        at += 1;
    }
    (number + bytes[at] as u64 * weight, &bytes[at + 1..])
}

// Zigzag coding: signed differences as unsigned numbers, as in Protocol Buffers.
#![tactic(auto, using(std::proofs::lemmas::Int::ints, crate::proofs::Zigzags::zigzag_up, crate::proofs::Zigzags::unzigzag_even, crate::proofs::Zigzags::unzigzag_odd))]

ghost use Rattle.std.specs.Prelude.{◌≡◌, ◌+◌, ◌*◌, ◌^◌, ◌<◌, ◌≤◌, pos, ◌+ℤ◌, ◌-ℤ◌, ◌≤ℤ◌, ◌<ℤ◌, unsigned_abs};
ghost use Rattle.ts_chunk_packed.specs.Packed.{zigzag, unzigzag};

/// The zigzag code of `to - from`.
pub fn apart(from: u64, to: u64) -> u64
    requires from { from < 2 ^ 63 }
    requires to { to < 2 ^ 63 }
    ensures { result ≡ zigzag (pos to -ℤ pos from) }
{
    let difference = to as i64 - from as i64;
    if difference < 0 {
        2 * (-(difference + 1)) as u64 + 1
    } else {
        2 * difference as u64
    }
}

/// The zigzag code of a difference of values.
pub fn apart_wide(from: i128, to: i128) -> u128
    requires from { unsigned_abs from ≤ 10 ^ 24 }
    requires to { unsigned_abs to ≤ 10 ^ 24 }
    ensures { result ≡ zigzag (to -ℤ from) }
{
    let difference = to - from;
    if difference < 0 {
        2 * (-(difference + 1)) as u128 + 1
    } else {
        2 * difference as u128
    }
}

/// `from` plus a zigzag-coded difference, for times and rule counts.
#[inline(always)]
pub fn add_delta(from: u64, difference: u64) -> u64
    requires least { pos 0 ≤ℤ (pos from +ℤ unzigzag difference) }
    requires most { (pos from +ℤ unzigzag difference) <ℤ pos (2 ^ 63) }
    ensures { pos result ≡ pos from +ℤ unzigzag difference }
{
    let half = difference / 2;
    if difference % 2 == 0 {
        from + half
    } else {
        from - half - 1
    }
}

/// `from` plus a zigzag-coded difference of at most 64 bits.
#[inline(always)]
pub fn add_narrow(from: i128, difference: u64) -> i128
    requires { unsigned_abs from ≤ 10 ^ 24 }
    ensures { result ≡ from +ℤ unzigzag difference }
{
    from + signed(difference) as i128
}

// Decodes a zigzag-coded difference.
#[inline(always)]
fn signed(number: u64) -> i64
    ensures { result ≡ unzigzag number }
{
    let half = (number / 2) as i64;
    if number % 2 == 0 { half } else { -half - 1 }
}

/// `from` plus a zigzag-coded difference, for values.
#[inline(always)]
pub fn add_wide(from: i128, difference: u128) -> i128
    requires from { unsigned_abs from ≤ 10 ^ 24 }
    requires difference { difference < 2 ^ 120 }
    ensures { result ≡ from +ℤ unzigzag difference }
{
    let half = (difference / 2) as i128;
    if difference % 2 == 0 {
        from + half
    } else {
        from - half - 1
    }
}

// Compares byte strings eight bytes at a time.
ghost use Rattle.std.specs.Prelude.{◌≡◌, ◌+◌, ◌≤◌, min, length, drop};
ghost use Rattle.std.specs.Ordering.{nat_cmp};
ghost use Rattle.std.specs.Cmp.Lexicographic.{slice_cmp};
ghost use Rattle.ts_resp.specs.Words.{big_endian};

use std::cmp::Ordering;

// Same result as `a.cmp(b)`. Compares eight bytes as one big-endian number.
#[inline]
pub(crate) fn order(a: &[u8], b: &[u8]) -> Ordering
    ensures { result ≡ slice_cmp nat_cmp a.now b.now }
{
    let both = a.len().min(b.len());
    let mut at = 0;
    while both - at >= 8 {
        let (x, y) = (eight(a, at), eight(b, at));
        if x != y {
            return x.cmp(&y);
        }
        at += 8;
    }
    order_from(a, b, at, both)
}

// Reads the eight bytes at `at` as a big-endian number.
#[inline]
fn eight(bytes: &[u8], at: usize) -> u64
    requires { at + 8 ≤ length bytes.now }
    ensures { result ≡ big_endian 0 8 (drop at bytes.now) }
{
    u64::from_be_bytes([
        bytes[at],
        bytes[at + 1],
        bytes[at + 2],
        bytes[at + 3],
        bytes[at + 4],
        bytes[at + 5],
        bytes[at + 6],
        bytes[at + 7],
    ])
}

// Compares the bytes from index `from` on. `both` is the length of the shorter one.
#[inline]
fn order_from(a: &[u8], b: &[u8], from: usize, both: usize) -> Ordering
    requires { (from ≤ both) × (both ≡ min (length a.now) (length b.now)) }
    ensures { result ≡ slice_cmp nat_cmp (drop from a.now) (drop from b.now) }
{
    for at in from..both {
        if a[at] != b[at] {
            return a[at].cmp(&b[at]);
        }
    }
    a.len().cmp(&b.len())
}

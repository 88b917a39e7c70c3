// Encoded samples: 28 bytes each, one after another.
ghost use Rattle.std.specs.Prelude.{◌≡◌, ◌+◌, ◌≤◌, take, drop, nat_lt, nat_le, ◌++◌, map, length, IfOk, vec_capacity};
ghost use Rattle.ts_chunk_plain.specs.Plain.{bytes_of, sample_of};
ghost use Rattle.ts_sample.specs.Sample.{IsInBounds};
ghost use Rattle.ts_sample.specs.Chunk.{AreInBounds};
ghost use Rattle.ts_sample.specs.Visit.{visited};
ghost use Rattle.ts_spec.specs.Sample.{IsAscending, at_times};

use std::alloc::{AllocError, Global};
use std::sync::ledger::Ledger;
use ts_sample::{Sample, Steps, Units, Visit};

/// The size of an encoded sample, in bytes.
pub const SAMPLE_BYTES: usize = 28;

/// Encodes a sample: 8 bytes of time, 16 of value and 4 of rule count, little-endian.
pub fn encode(sample: &Sample) -> [u8; SAMPLE_BYTES]
    ensures { result ≡ bytes_of sample.now }
{
    // Writes each half of the value as one 64-bit word. Writing all 16 bytes at once compiles to single-byte stores.
    let value = sample.value.get().cast_unsigned();
    let low = (value % (1 << 64)) as u64;
    let high = (value >> 64) as u64;
    let mut piece = [0; SAMPLE_BYTES];
    piece[..8].copy_from_slice(&sample.time.to_le_bytes());
    piece[8..16].copy_from_slice(&low.to_le_bytes());
    piece[16..24].copy_from_slice(&high.to_le_bytes());
    piece[24..].copy_from_slice(&sample.made.to_le_bytes());
    piece
}

/// The time of an encoded sample, in milliseconds.
pub fn time_of(piece: &[u8; SAMPLE_BYTES]) -> u64
    ensures { result ≡ (sample_of piece.now).time }
{
    u64::from_le_bytes(part(piece, 0))
}

/// Decodes a sample.
pub fn decode(piece: &[u8; SAMPLE_BYTES]) -> Sample
    requires { IsInBounds (sample_of piece.now) }
    ensures { result ≡ sample_of piece.now }
{
    Sample {
        value: Units::new(i128::from_le_bytes(part(piece, 8))).unwrap(),
        time: time_of(piece),
        made: u32::from_le_bytes(part(piece, 24)),
    }
}

// `N` bytes starting at offset `at`.
fn part<const N: usize>(piece: &[u8; SAMPLE_BYTES], at: usize) -> [u8; N]
    requires { at + N ≤ 28 }
    ensures { result ≡ take N (drop at piece.now) }
{
    let mut part = [0; N];
    part.copy_from_slice(&piece[at..at + N]);
    part
}

/// The number of samples before `time`. Reads only their times.
pub fn lower_bound(pieces: &[[u8; SAMPLE_BYTES]], time: u64) -> usize
    requires { IsAscending (map sample_of pieces.now) }
    ensures within { result ≤ length pieces.now }
    ensures before { map sample_of (take result pieces.now) ≡ at_times (λ t. nat_lt t time) (map sample_of pieces.now) }
    ensures after { map sample_of (drop result pieces.now) ≡ at_times (nat_le time) (map sample_of pieces.now) }
{
    pieces.partition_point(|piece| time_of(piece) < time)
}

/// The number of samples at or before `time`. Reads only their times.
pub fn upper_bound(pieces: &[[u8; SAMPLE_BYTES]], time: u64) -> usize
    requires { IsAscending (map sample_of pieces.now) }
    ensures within { result ≤ length pieces.now }
    ensures past { map sample_of (drop result pieces.now) ≡ at_times (nat_lt time) (map sample_of pieces.now) }
{
    pieces.partition_point(|piece| time_of(piece) <= time)
}

/// Passes the samples at or before `to` to `visit`, oldest first. Each sample read is one step.
pub fn scan_pieces<V: Visit, L: Ledger>(
    pieces: &[[u8; SAMPLE_BYTES]],
    to: u64,
    visit: &mut V,
    steps: &mut Steps<L>,
)
    requires ascending { IsAscending (map sample_of pieces.now) }
    requires fine { AreInBounds (map sample_of pieces.now) }
    requires room { length (at_times (λ t. nat_le t to) (map sample_of pieces.now)) ≤ V.room visit.old }
    ensures visited { visit.new ≡ visited V.step visit.old (at_times (λ t. nat_le t to) (map sample_of pieces.now)) }
    ensures counted { steps.old + length (at_times (λ t. nat_le t to) (map sample_of pieces.now)) ≤ steps.new }
    ensures bounded { steps.new ≤ steps.old + length pieces.now }
{
    for piece in pieces {
        steps.tick();
        if time_of(piece) > to {
            return;
        }
        visit.sample(&decode(piece));
    }
}

/// The bytes `before`, the encoded sample and the bytes `after`, in a buffer with capacity for `limit` bytes.
pub fn joined(
    alloc: Global,
    limit: u32,
    before: &[u8],
    sample: &Sample,
    after: &[u8],
) -> Result<Vec<u8>, AllocError>
    ensures items { IfOk result (λ v. v.items ≡ before.now ++ (bytes_of sample.now ++ after.now)) }
    ensures room { IfOk result (λ v. limit ≤ vec_capacity v) }
{
    let mut bytes = Vec::with_capacity(alloc, limit as usize)?;
    bytes.extend_from_slice(before)?;
    bytes.extend_from_slice(&encode(sample))?;
    bytes.extend_from_slice(after)?;
    Ok(bytes)
}

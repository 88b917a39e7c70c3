// Decodes bytes that may be anything.
#![tactic(auto, using(std::proofs::lemmas::Int::ints))]

ghost use Rattle.std.specs.Prelude.{◌≡◌, ◌↔◌, ℕ, ℤ, ◌^◌, ◌<◌, ◌≤◌, pos, ◌+ℤ◌, unsigned_abs, List, ◌++◌, length};
ghost use Rattle.std.specs.Prelude.{Some, None, IfSome, IfNone, IsTrue, if◌then◌else◌};
ghost use Rattle.ts_spec.specs.Sample.{MAX_TIME, Point};
ghost use Rattle.ts_spec.specs.Value.{bound};
ghost use Rattle.ts_sample.specs.Chunk.{IsPast};
ghost use Rattle.ts_sample.specs.Sample.{IsInBounds};
ghost use Rattle.ts_chunk_packed.specs.Packed.{coded, number, unzigzag};
ghost use Rattle.ts_chunk_packed.specs.Reading.{Begins, Follows};
ghost use Rattle.ts_chunk_packed.specs.Restoring.{AreCodedAs, HasRead, IsCodedBy};

use crate::chunk::keep_first;
use crate::context::Context;
use crate::zigzag::add_wide;
use ts_sample::{MAX_TIME, Sample, Units};

/// What the samples of some bytes are, as far as a chunk keeps it beside the bytes, and their greatest rule count.
#[derive(Drop)]
pub struct ReadSamples {
    pub first: Option<Sample>,
    pub context: Context,
    pub count: u32,
    pub made: u32,
}

/// Decodes all samples of `bytes`, which are shorter than 4 GiB. `None` if they are not the bytes of samples in
/// ascending time.
pub fn read_samples(bytes: &[u8]) -> Option<ReadSamples>
    requires { length bytes.now < 2 ^ 32 }
    ensures some { IfSome result (λ r. HasRead bytes.now r.first r.context r.count r.made) }
    ensures none { IfNone result ((ps : List Point) → AreCodedAs bytes.now ps → ⊥) }
{
    let mut first = None;
    let mut context = Context::new(None, 0);
    let mut count = 0;
    let mut made = 0;
    let mut rest = bytes;
    while !rest.is_empty() {
        let Some((sample, after)) = read_sample(&context, rest) else {
            return None;
        };
        sample.known();
        keep_first(&mut first, &sample);
        context = context.after(&sample);
        count += 1;
        made = sample.made.max(made);
        rest = after;
    }
    Some(ReadSamples {
        first,
        context,
        count,
        made,
    })
}

// Decodes the first sample of `bytes`. Returns it and the remaining bytes, or `None` if they start with no sample that
// is later than the last one.
#[inline(always)]
fn read_sample<'a>(context: &Context, bytes: &'a [u8]) -> Option<(Sample, &'a [u8])>
    ensures is { IfSome result (λ r. bytes.now ≡ coded context.now r.0 ++ r.1.now) }
    ensures past { IfSome result
        (λ r. IsPast (if context.now.begun then Some context.now.before else None) r.0.time) }
    ensures none { IfNone result ((f : Follows context.now bytes.now)
        → IsPast (if context.now.begun then Some context.now.before else None) f.sample.time → ⊥) }
{
    context.known();
    let (time, bytes) = read_number(bytes)?;
    let (value, bytes) = read_number(bytes)?;
    let (made, bytes) = read_number(bytes)?;
    let sample = sample_after(context, time, value, made)?;
    if !is_past(context, &sample) {
        return None;
    }
    Some((sample, bytes))
}

// Whether the sample is later than the last one.
#[inline(always)]
fn is_past(context: &Context, sample: &Sample) -> bool
    ensures { IsTrue result
        ↔ IsPast (if context.now.begun then Some context.now.before else None) sample.now.time }
{
    match context.last() {
        Some(last) => last.time < sample.time,
        None => true,
    }
}

// The sample that three numbers code, if it is within its bounds.
#[inline(always)]
fn sample_after(context: &Context, time: u128, value: u128, made: u128) -> Option<Sample>
    requires time { time < 2 ^ 120 }
    requires value { value < 2 ^ 120 }
    requires made { made < 2 ^ 120 }
    ensures is { IfSome result (λ p. IsCodedBy context.now time value made p) }
    ensures all { (p : Point) → IsInBounds p → IsCodedBy context.now time value made p → result ≡ Some p }
{
    let time = time_after(context, time)?;
    let value = value_after(context, value)?;
    let made = made_after(context, made)?;
    Some(Sample { value, time, made })
}

// The time that a number codes, if it is within its bounds.
#[inline(always)]
fn time_after(context: &Context, number: u128) -> Option<u64>
    requires { number < 2 ^ 120 }
    ensures is { IfSome result
        (λ t. pos t ≡ pos context.now.before.time +ℤ (context.now.step +ℤ unzigzag number)) }
    ensures all { (t : ℕ) → t ≤ MAX_TIME
        → pos t ≡ pos context.now.before.time +ℤ (context.now.step +ℤ unzigzag number) → result ≡ Some t }
    ensures bounded { IfSome result (λ t. t ≤ MAX_TIME) }
{
    context.known();
    let from = context.before().time as i128 + context.step() as i128;
    let time = add_wide(from, number);
    if time < 0 || time > MAX_TIME as i128 {
        return None;
    }
    Some(time as u64)
}

// The value that a number codes, if it is within its bounds.
#[inline(always)]
fn value_after(context: &Context, number: u128) -> Option<Units>
    requires { number < 2 ^ 120 }
    ensures is { IfSome result (λ v. v ≡ context.now.before.value +ℤ unzigzag number) }
    ensures all { (v : ℤ) → unsigned_abs v ≤ bound → v ≡ context.now.before.value +ℤ unzigzag number
        → result ≡ Some v }
{
    context.known();
    Units::new(add_wide(context.before().value.get(), number))
}

// The rule count that a number codes, if it is within its bounds.
#[inline(always)]
fn made_after(context: &Context, number: u128) -> Option<u32>
    requires { number < 2 ^ 120 }
    ensures is { IfSome result (λ n. pos n ≡ pos context.now.before.made +ℤ unzigzag number) }
    ensures all { (n : ℕ) → n < 2 ^ 32 → pos n ≡ pos context.now.before.made +ℤ unzigzag number → result ≡ Some n }
{
    context.known();
    let made = add_wide(context.before().made as i128, number);
    if made < 0 || made > u32::MAX as i128 {
        return None;
    }
    Some(made as u32)
}

// Reads the first number of `bytes`. Returns it and the remaining bytes, or `None` if it does not end within 17 bytes
// or takes more bytes than it needs. A number of one byte needs no loop.
#[inline(always)]
fn read_number(bytes: &[u8]) -> Option<(u128, &[u8])>
    ensures is { IfSome result (λ r. bytes.now ≡ number r.0 ++ r.1.now) }
    ensures small { IfSome result (λ r. r.0 < 2 ^ 120) }
    ensures none { IfNone result (Begins (2 ^ 113) bytes.now → ⊥) }
{
    if bytes.is_empty() {
        return None;
    }
    let first = bytes[0];
    if first < 128 {
        return Some((first as u128, &bytes[1..]));
    }
    read_long(bytes)
}

// Reads a number of up to nine bytes in 64 bits.
#[inline(always)]
fn read_long(bytes: &[u8]) -> Option<(u128, &[u8])>
    ensures is { IfSome result (λ r. bytes.now ≡ number r.0 ++ r.1.now) }
    ensures small { IfSome result (λ r. r.0 < 2 ^ 120) }
    ensures none { IfNone result (Begins (2 ^ 113) bytes.now → ⊥) }
{
    let mut number: u64 = 0;
    let mut weight: u64 = 1;
    let mut at = 0;
    while at < bytes.len() && weight <= 1 << 56 {
        let byte = bytes[at];
        if byte < 128 {
            if byte == 0 && at > 0 {
                return None;
            }
            let all = number + byte as u64 * weight;
            return Some((all as u128, &bytes[at + 1..]));
        }
        number += (byte - 128) as u64 * weight;
        weight *= 128;
        at += 1;
    }
    read_wide(bytes)
}

// Reads a number of any size.
fn read_wide(bytes: &[u8]) -> Option<(u128, &[u8])>
    ensures is { IfSome result (λ r. bytes.now ≡ number r.0 ++ r.1.now) }
    ensures small { IfSome result (λ r. r.0 < 2 ^ 120) }
    ensures none { IfNone result (Begins (2 ^ 113) bytes.now → ⊥) }
{
    let mut number: u128 = 0;
    let mut weight: u128 = 1;
    let mut at = 0;
    while at < bytes.len() && weight < 1 << 113 {
        let byte = bytes[at];
        if byte < 128 {
            if at > 0 && byte == 0 {
                return None;
            }
            return Some((number + byte as u128 * weight, &bytes[at + 1..]));
        }
        number += (byte - 128) as u128 * weight;
        weight *= 128;
        at += 1;
    }
    None
}

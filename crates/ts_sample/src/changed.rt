// Builds the new chunks of a chunk whose samples change, the same way for all formats.
ghost use Rattle.std.specs.Prelude.{◌≡◌, ◌/◌, ◌<◌, List, length, map, take, drop, IfOk, vec_len, vec_capacity, IfSome};
ghost use Rattle.std.specs.Prelude.{IfNone};
ghost use Rattle.ts_spec.specs.Sample.{Point, IsAscending, outside, put};
ghost use Rattle.ts_sample.specs.Chunk.{IsCut, HaveLimit, IsLimit};
ghost use Rattle.ts_sample.specs.Steps.{Takes};

use crate::chunk::Chunk;
use crate::sample::{MAX_TIME, Sample, find, index_range};
use crate::steps::Steps;
use crate::visit::SampleCollector;
use std::alloc::{AllocError, Global};
use std::sync::ledger::Ledger;

/// Returns chunks of the same limit with the sample at its time. It replaces a sample at the same time.
pub(crate) fn with_sample<C: Chunk, L: Ledger>(
    chunk: &C,
    alloc: Global,
    sample: &Sample,
    steps: &mut Steps<L>,
) -> Result<Vec<C>, AllocError>
    ensures cut { IfOk result
        (λ v. IsCut C.format (C.most chunk.now) (put sample.now (C.list chunk.now)) (map C.list v.items)) }
    ensures limits { IfOk result (λ v. HaveLimit C.most (C.most chunk.now) v.items) }
    ensures steps { Takes steps.old steps.new (length (C.list chunk.now)) }
{
    chunk.known();
    if let Some(spliced) = chunk.spliced(alloc, sample, steps)? {
        return alone(alloc, spliced);
    }
    sample.known();
    if let Some((first, second)) = chunk.halved(alloc, sample, steps)? {
        return both(alloc, first, second);
    }
    let mut samples = decoded(chunk, alloc, steps)?;
    insert_or_replace(&mut samples, sample)?;
    cut_into(alloc, chunk.limit(), &samples)
}

/// Returns chunks of the same limit without the samples from `from` to `to`, both included.
pub(crate) fn without_interval<C: Chunk, L: Ledger>(
    chunk: &C,
    alloc: Global,
    from: u64,
    to: u64,
    steps: &mut Steps<L>,
) -> Result<Vec<C>, AllocError>
    ensures cut { IfOk result
        (λ v. IsCut C.format (C.most chunk.now) (outside from to (C.list chunk.now)) (map C.list v.items)) }
    ensures limits { IfOk result (λ v. HaveLimit C.most (C.most chunk.now) v.items) }
    ensures steps { Takes steps.old steps.new (length (C.list chunk.now)) }
{
    chunk.known();
    let mut samples = decoded(chunk, alloc, steps)?;
    drop_interval(&mut samples, from, to);
    cut_into(alloc, chunk.limit(), &samples)
}

// A list of one non-empty chunk.
fn alone<C: Chunk>(alloc: Global, chunk: C) -> Result<Vec<C>, AllocError>
    requires { 0 < length (C.list chunk) }
    ensures cut { IfOk result (λ v. IsCut C.format (C.most chunk) (C.list chunk) (map C.list v.items)) }
    ensures limits { IfOk result (λ v. HaveLimit C.most (C.most chunk) v.items) }
{
    chunk.known();
    let mut chunks = Vec::new(alloc);
    chunks.push(chunk)?;
    Ok(chunks)
}

// A list of two chunks, with the halves of samples that exceed the limit of one.
fn both<C: Chunk>(alloc: Global, first: C, second: C) -> Result<Vec<C>, AllocError>
    requires first { 0 < length (C.list first) }
    requires second { 0 < length (C.list second) }
    requires alike { C.most second ≡ C.most first }
    ensures cut { (ps : List Point) → C.most first < length (C.format ps) → C.list first ≡ take (length ps / 2) ps
        → C.list second ≡ drop (length ps / 2) ps
        → IfOk result (λ v. IsCut C.format (C.most first) ps (map C.list v.items)) }
    ensures limits { IfOk result (λ v. HaveLimit C.most (C.most first) v.items) }
{
    let mut chunks = alone(alloc, first)?;
    let mut seconds = alone(alloc, second)?;
    chunks.append(&mut seconds)?;
    Ok(chunks)
}

// Decodes a chunk into a list with capacity for one more sample.
fn decoded<C: Chunk, L: Ledger>(
    chunk: &C,
    alloc: Global,
    steps: &mut Steps<L>,
) -> Result<Vec<Sample>, AllocError>
    ensures list { IfOk result (λ v. v.items ≡ C.list chunk.now) }
    ensures steps { Takes steps.old steps.new (length (C.list chunk.now)) }
{
    chunk.known();
    let mut gathered = SampleCollector::with_reserved(alloc, chunk.len() + 1)?;
    chunk.scan(0, MAX_TIME, &mut gathered, steps);
    Ok(gathered.into_samples())
}

// Inserts a sample into an ascending list, or replaces the one at its time.
fn insert_or_replace(samples: &mut Vec<Sample>, sample: &Sample) -> Result<(), AllocError>
    requires { IsAscending samples.old.items }
    ensures { IfOk result (λ _. samples.new.items ≡ put sample.now samples.old.items) }
{
    match find(samples, sample.time) {
        Ok(place) => samples[place] = *sample,
        Err(place) => samples.insert(place, *sample)?,
    }
    Ok(())
}

// Removes the samples from `from` to `to`, both included, from an ascending list.
fn drop_interval(samples: &mut Vec<Sample>, from: u64, to: u64)
    requires { IsAscending samples.old.items }
    ensures { samples.new.items ≡ outside from to samples.old.items }
{
    let places = index_range(samples, from, to);
    samples.drain(places);
}

/// Returns chunks of this limit with the samples: none for no samples, and one if they fit. Otherwise it splits the
/// samples in two halves, the first one rounded down, and splits each half the same way.
pub(crate) fn cut_into<C: Chunk>(
    alloc: Global,
    limit: u32,
    samples: &[Sample],
) -> Result<Vec<C>, AllocError>
    requires limit { IsLimit limit }
    requires ascending { IsAscending samples.now }
    ensures cut { IfOk result (λ v. IsCut C.format limit samples.now (map C.list v.items)) }
    ensures limits { IfOk result (λ v. HaveLimit C.most limit v.items) }
{
    let mut chunks = Vec::new(alloc);
    let Some(first) = samples.first() else {
        return Ok(chunks);
    };
    if let Some(chunk) = whole::<C>(alloc, limit, samples)? {
        chunk.known();
        chunks.push(chunk)?;
        return Ok(chunks);
    }
    first.known();
    let half = samples.len() / 2;
    chunks = cut_into(alloc, limit, &samples[..half])?;
    let mut rest = cut_into(alloc, limit, &samples[half..])?;
    chunks.append(&mut rest)?;
    Ok(chunks)
}

// Returns one chunk of this limit with the samples, or `None` if they do not fit.
fn whole<C: Chunk>(alloc: Global, limit: u32, samples: &[Sample]) -> Result<Option<C>, AllocError>
    requires limit { IsLimit limit }
    requires ascending { IsAscending samples.now }
    ensures list { IfOk result (λ o. IfSome o (λ c. C.list c ≡ samples.now)) }
    ensures limit { IfOk result (λ o. IfSome o (λ c. C.most c ≡ limit)) }
    ensures full { IfOk result (λ o. IfNone o (limit < length (C.format samples.now))) }
{
    let mut chunk = C::new(alloc, limit)?;
    for sample in samples {
        if !chunk.try_append(sample) {
            return Ok(None);
        }
    }
    Ok(Some(chunk))
}

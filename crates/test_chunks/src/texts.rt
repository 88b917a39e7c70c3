// Chunks and samples as text.
ghost use Rattle.std.specs.Prelude.{◌≤◌};

use std::alloc::{AllocError, Global};
use std::sync::ledger::Ledger;
use ts_sample::{Chunk, MAX_TIME, Sample, SampleCollector, Steps, Units};

// Parses a sample, such as `1000:-3:1`.
pub(crate) fn sample_of(text: &str) -> Option<Sample> {
    let (time, rest) = text.split_once(':')?;
    let (value, made) = rest.split_once(':')?;
    let (Ok(time), Ok(value), Ok(made)) = (
        time.parse::<u64>(),
        value.parse::<i128>(),
        made.parse::<u32>(),
    ) else {
        return None;
    };
    if MAX_TIME < time {
        return None;
    }
    let value = Units::new(value)?;
    Some(Sample { time, value, made })
}

// Parses two numbers.
pub(crate) fn interval_of(text: &str) -> Option<(u64, u64)> {
    let (from, to) = text.split_once(' ')?;
    match (from.parse::<u64>(), to.parse::<u64>()) {
        (Ok(from), Ok(to)) => Some((from, to)),
        _ => None,
    }
}

// The samples of a chunk in an interval.
pub(crate) fn between<C: Chunk, L: Ledger>(
    alloc: Global,
    chunk: &C,
    from: u64,
    to: u64,
    steps: &mut Steps<L>,
) -> Result<Vec<Sample>, AllocError> {
    let mut gathered = SampleCollector::with_reserved(alloc, chunk.len())?;
    chunk.scan(from, to, &mut gathered, steps);
    Ok(gathered.into_samples())
}

// What a chunk holds.
pub(crate) fn chunk_text<C: Chunk, L: Ledger>(
    alloc: Global,
    chunk: &C,
    steps: &mut Steps<L>,
) -> Result<String, AllocError> {
    let (limit, count, bytes) = (chunk.limit(), chunk.len(), chunk.bytes());
    let first = one_text(alloc, chunk.first())?;
    let last = one_text(alloc, chunk.last())?;
    let seen = samples_text(alloc, &between(alloc, chunk, 0, MAX_TIME, steps)?)?;
    let raw = bytes_text(alloc, chunk.raw())?;
    format!(in alloc;
        "{bytes} of {limit} bytes, {count} samples, {first} to {last}: ({seen}) [{raw}]"
    )
}

// What each of these chunks holds.
pub(crate) fn chunks_text<C: Chunk, L: Ledger>(
    alloc: Global,
    chunks: &[C],
    steps: &mut Steps<L>,
) -> Result<String, AllocError> {
    let mut list = String::from_str(alloc, "chunks")?;
    for chunk in chunks {
        list.push_str(" | ")?;
        list.push_str(&chunk_text(alloc, chunk, steps)?)?;
    }
    Ok(list)
}

// A sample, or that there is none.
fn one_text(alloc: Global, sample: Option<Sample>) -> Result<String, AllocError> {
    match sample {
        Some(sample) => sample_text(alloc, &sample),
        None => String::from_str(alloc, "none"),
    }
}

fn sample_text(alloc: Global, sample: &Sample) -> Result<String, AllocError> {
    let (time, value, made) = (sample.time, sample.value.get(), sample.made);
    format!(in alloc; "{time}:{value}:{made}")
}

// Samples, separated by spaces.
pub(crate) fn samples_text(alloc: Global, samples: &[Sample]) -> Result<String, AllocError> {
    let mut list = String::new(alloc);
    for sample in samples {
        if !list.is_empty() {
            list.push(' ')?;
        }
        list.push_str(&sample_text(alloc, sample)?)?;
    }
    Ok(list)
}

// Two hexadecimal digits for each byte.
fn bytes_text(alloc: Global, bytes: &[u8]) -> Result<String, AllocError> {
    let mut list = String::new(alloc);
    for byte in bytes {
        let digits = format!(in alloc; "{byte:02x}")?;
        list.push_str(&digits)?;
    }
    Ok(list)
}

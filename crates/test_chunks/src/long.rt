// Chunks that are long enough to have marks.
ghost use Rattle.std.specs.Prelude.{◌≡◌};

use crate::texts::{between, sample_of};
use crate::trial::append;
use std::alloc::{AllocError, Global};
use std::sync::ledger::Ledger;
use ts_chunk_packed::PackedChunk;
use ts_sample::{Chunk, Sample, Steps, Units};

const COUNT: u64 = 780;

// Runs the test in a line. Returns `None` if it is not one.
pub(crate) fn long_text<L: Ledger>(
    alloc: Global,
    text: &str,
    steps: &mut Steps<L>,
) -> Result<Option<String>, AllocError> {
    let list = samples(alloc)?;
    let holds = match text {
        "look-ups" => look_ups(alloc, &list, steps)?,
        "late" => late(alloc, &list, steps)?,
        _ => match text.strip_prefix("order ") {
            Some(factor) => order(alloc, &list, factor.parse::<usize>().unwrap_or(0), steps)?,
            None => return Ok(None),
        },
    };
    Ok(Some(format!(in alloc; "{holds}")?))
}

// Samples that fill most of a chunk of 4,096 bytes.
fn samples(alloc: Global) -> Result<Vec<Sample>, AllocError> {
    let mut list = Vec::new(alloc);
    for index in 0..COUNT {
        let time = 1_000 + 10 * index + index % 7;
        let value = (index * index % 1_009) as i128 * 1_000 - 500_000;
        let value = Units::new(value).unwrap_or(Units::ZERO);
        let made = (index / 300) as u32;
        list.push(Sample { time, value, made })?;
    }
    Ok(list)
}

// A chunk of these samples, as far as they are in order and fit.
fn chunk_of(alloc: Global, list: &[Sample]) -> Result<PackedChunk, AllocError> {
    let mut chunk = PackedChunk::new(alloc, 4_096)?;
    for sample in list {
        append(&mut chunk, sample);
    }
    Ok(chunk)
}

// A chunk of these samples, which has marks. The last but one of them comes late.
fn chunk_with_marks<L: Ledger>(
    alloc: Global,
    list: &[Sample],
    steps: &mut Steps<L>,
) -> Result<PackedChunk, AllocError> {
    let Some(index) = list.len().checked_sub(2) else {
        return PackedChunk::new(alloc, 4_096);
    };
    let mut chunk = chunk_of(alloc, &list[..index])?;
    append(&mut chunk, &list[index + 1]);
    with_one(alloc, chunk, &list[index], steps)
}

// Inserts a late sample. The chunk stays unchanged if the sample does not fit.
fn with_one<L: Ledger>(
    alloc: Global,
    chunk: PackedChunk,
    late: &Sample,
    steps: &mut Steps<L>,
) -> Result<PackedChunk, AllocError> {
    match chunk.spliced(alloc, late, steps)? {
        Some(one) => Ok(one),
        None => Ok(chunk),
    }
}

// Whether each lookup finds what the list has.
fn look_ups<L: Ledger>(
    alloc: Global,
    list: &[Sample],
    steps: &mut Steps<L>,
) -> Result<bool, AllocError> {
    let chunk = chunk_with_marks(alloc, list, steps)?;
    let marks = chunk.marks();
    let mut holds = chunk.raw() == chunk_of(alloc, list)?.raw() && 3_400 <= chunk.bytes();
    holds = holds && 0 < marks && marks <= chunk.raw().len() / 256;
    for from in 0..9_000 {
        let to = from + 150;
        let mut wanted = Vec::new(alloc);
        for sample in list {
            if from <= sample.time && sample.time <= to {
                wanted.push(*sample)?;
            }
        }
        let seen = between(alloc, &chunk, from, to, steps)?;
        holds = holds && seen.as_slice() == wanted.as_slice();
    }
    Ok(holds)
}

// Whether the bytes are those of the format if samples come in the order of multiples of a number.
fn order<L: Ledger>(
    alloc: Global,
    list: &[Sample],
    factor: usize,
    steps: &mut Steps<L>,
) -> Result<bool, AllocError> {
    let mut chunk = PackedChunk::new(alloc, 4_096)?;
    let mut holds = true;
    for turn in 0..list.len() {
        chunk = with_one(
            alloc,
            chunk,
            &list[turn.wrapping_mul(factor) % list.len()],
            steps,
        )?;
        let all = between(alloc, &chunk, 0, 9_000, steps)?;
        let same = chunk_of(alloc, &all)?;
        holds = holds && all.len() == turn + 1 && chunk.raw() == same.raw();
    }
    Ok(holds && chunk.raw() == chunk_of(alloc, list)?.raw())
}

// Whether they are if one sample comes late, at each position, with and without marks.
fn late<L: Ledger>(
    alloc: Global,
    list: &[Sample],
    steps: &mut Steps<L>,
) -> Result<bool, AllocError> {
    let whole = chunk_of(alloc, list)?;
    let mut holds = true;
    for place in 0..list.len() {
        let mut others = Vec::from_slice(alloc, list)?;
        others.remove(place);
        let chunk = chunk_of(alloc, &others)?;
        let one = with_one(alloc, chunk, &list[place], steps)?;
        let marked = chunk_with_marks(alloc, &others, steps)?;
        let other = with_one(alloc, marked, &list[place], steps)?;
        holds = holds && one.raw() == whole.raw() && other.raw() == whole.raw();
    }
    Ok(holds)
}

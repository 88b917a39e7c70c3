// The chunks of a series: restored from bytes, and as text.
use crate::texts::{push_word, split};
use std::alloc::{AllocError, Global};
use std::io;
use std::sync::ledger::Ledger;
use test_script::{answer_of, numbers_of};
use ts_sample::Steps;
use ts_series::Series;

/// Adds the chunk in a text such as `88 20 0 0`: its limit, and the bytes of its samples. Returns whether it is valid.
pub(crate) fn restore(
    alloc: Global,
    series: &mut Series,
    text: &str,
) -> io::Result<Option<String>> {
    let (limit, numbers) = split(text);
    let Ok(limit) = limit.parse::<u32>() else {
        return Ok(None);
    };
    if limit < 48 || 1_048_576 < limit {
        return Ok(None);
    }
    let mut bytes = Vec::new(alloc);
    for number in &numbers_of(alloc, numbers)? {
        bytes.push((*number & 255) as u8)?;
    }
    answer_of(alloc, series.restore_chunk(limit, &bytes)?)
}

/// The series that is made from the chunks of another. `None` if one of them is not valid.
pub(crate) fn made_again(alloc: Global, series: &Series) -> Result<Option<Series>, AllocError> {
    let mut again = Series::restored(alloc, series.options(), series.high(), series.born());
    for index in 0..series.chunk_count() {
        let chunk = series.packed_chunk(alloc, index)?;
        if !again.restore_chunk(series.chunk_limit(index), chunk.bytes())? {
            return Ok(None);
        }
    }
    Ok(Some(again))
}

/// For each chunk, its limit and its bytes.
pub(crate) fn chunks_text(alloc: Global, series: &Series) -> Result<String, AllocError> {
    let mut text = String::new(alloc);
    for index in 0..series.chunk_count() {
        let limit = series.chunk_limit(index);
        let chunk = series.packed_chunk(alloc, index)?;
        push_word(
            &mut text,
            &format!(in alloc; "{limit} {:?}", chunk.bytes())?,
        )?;
    }
    Ok(text)
}

/// The first 1,000 samples, such as `10:0:1`: the time, the value, and how many rules had been created.
pub(crate) fn seen_text<L: Ledger>(
    alloc: Global,
    series: &Series,
    steps: &mut Steps<L>,
) -> Result<String, AllocError> {
    let mut text = String::new(alloc);
    let mut samples = series.read_from(0, steps);
    for _ in 0..1000 {
        let Some(sample) = samples.next(steps) else {
            break;
        };
        let (time, value, made) = (sample.time, sample.value.get(), sample.made);
        push_word(&mut text, &format!(in alloc; "{time}:{value}:{made}")?)?;
    }
    Ok(text)
}

// Samples, keys and limits as text.
ghost use Rattle.std.specs.Prelude.{◌≤◌, IfSome};
ghost use Rattle.ts_spec.specs.Sample.{MAX_TIME};

use std::alloc::{AllocError, Global};
use std::fmt::Debug;
use std::io;
use ts_resp::Word;
use ts_sample::{MAX_TIME, Sample, Units};
use ts_spec::Limits;

/// What stands before the first space, and what stands behind it.
pub(crate) fn split(text: &str) -> (&str, &str) {
    text.split_once(' ').unwrap_or((text, ""))
}

/// A number, or 0 if the text is none that fits.
pub(crate) fn small(text: &str) -> u32 {
    text.parse::<u32>().unwrap_or(0)
}

/// A key.
pub(crate) fn word(alloc: Global, key: &str) -> Result<Word, AllocError> {
    Word::from_slice(alloc, key.as_bytes())
}

pub(crate) fn time_of(text: &str) -> Option<u64>
    ensures { IfSome result (λ t. t ≤ MAX_TIME) }
{
    let time = text.parse::<u64>().ok()?;
    if time <= MAX_TIME { Some(time) } else { None }
}

/// Two numbers.
pub(crate) fn pair_of(text: &str) -> Option<(u64, u64)> {
    let (first, second) = text.split_once(' ')?;
    Some((first.parse::<u64>().ok()?, second.parse::<u64>().ok()?))
}

pub(crate) fn sample_of(text: &str) -> Option<Sample> {
    let (time, value) = text.split_once(':')?;
    sample_at(time_of(time)?, value.parse::<i128>().ok()?)
}

/// A sample that was written after one rule was created.
pub(crate) fn sample_at(time: u64, millionths: i128) -> Option<Sample>
    requires { time ≤ MAX_TIME }
{
    let value = Units::new(millionths)?;
    Some(Sample {
        time,
        value,
        made: 1,
    })
}

/// Samples, or `none`.
pub(crate) fn samples_text(alloc: Global, samples: &[Sample]) -> Result<String, AllocError> {
    if samples.is_empty() {
        return String::from_str(alloc, "none");
    }
    let mut text = String::new(alloc);
    for sample in samples {
        let (time, value) = (sample.time, sample.value.get());
        push_word(&mut text, &format!(in alloc; "{time}:{value}")?)?;
    }
    Ok(text)
}

/// Appends a word, after a space if it is not the first.
pub(crate) fn push_word(text: &mut String, word: &str) -> Result<(), AllocError> {
    if !text.is_empty() {
        text.push(' ')?;
    }
    text.push_str(word)
}

/// A sample, or `none`.
pub(crate) fn last_text(alloc: Global, last: Option<Sample>) -> Result<String, AllocError> {
    match last {
        Some(sample) => samples_text(alloc, &[sample]),
        None => samples_text(alloc, &[]),
    }
}

/// A fault.
pub(crate) fn fault_text<F: Debug>(alloc: Global, fault: &F) -> io::Result<Option<String>> {
    Ok(Some(format!(in alloc; "{fault:?}")?))
}

/// The usual limits, but for those in the text, such as `keys=2 samples=3`.
pub(crate) fn limits_of(text: &str) -> Limits
    ensures { 1 ≤ result.samples }
{
    let mut limits = Limits::usual();
    for word in text.split(' ') {
        let (name, count) = word.split_once('=').unwrap_or((word, ""));
        let count = small(count);
        match name {
            "keys" => limits.keys = count,
            "samples" => limits.samples = count,
            "rules" => limits.rules = count,
            "born" => limits.born = count,
            _ => {}
        }
    }
    limits.samples = limits.samples.max(1);
    limits
}

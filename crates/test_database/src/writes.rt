// Series, and writes to them.
use crate::texts::{fault_text, sample_of};
use std::alloc::Global;
use std::io;
use std::sync::ledger::Ledger;
use test_script::silent;
use ts_sample::{Sample, Steps};
use ts_series::{Encoding, Ignore, Merge, Options, Policy, PutFault, Series};

/// The options of a series, in the order of its text.
pub(crate) fn options(encoding: Encoding, chunk_size: u32, retention: u64) -> Options {
    Options {
        retention,
        encoding,
        chunk_size,
        policy: Policy::Block,
        ignore: Ignore::EQUAL,
    }
}

/// A series without samples.
pub(crate) fn empty(alloc: Global) -> Series {
    Series::new(alloc, options(Encoding::Compressed, 4096, 0))
}

/// Writes a sample. The series may have 1,000.
pub(crate) fn write<L: Ledger>(
    series: &mut Series,
    sample: &Sample,
    steps: &mut Steps<L>,
) -> Result<(), PutFault> {
    let plan = series.put(sample.time, sample.value, Merge::Set, 1000, steps)?;
    series.commit(plan);
    Ok(())
}

/// Writes these samples. The answer is empty, or the first fault.
pub(crate) fn write_all<L: Ledger>(
    alloc: Global,
    series: &mut Series,
    text: &str,
    steps: &mut Steps<L>,
) -> io::Result<Option<String>> {
    for word in text.split(' ') {
        let Some(sample) = sample_of(word) else {
            return Ok(None);
        };
        if let Err(fault) = write(series, &sample, steps) {
            return fault_text(alloc, &fault);
        }
    }
    silent(alloc)
}

/// Counts a rule that was created on a series, if none was before.
pub(crate) fn count_rule(series: &mut Series) {
    if series.born() == 0 {
        series.raise_born();
    }
}

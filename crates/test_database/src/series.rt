// A series: how it stores its samples in chunks, also once it is made again from them.
use crate::chunks::{chunks_text, made_again, restore, seen_text};
use crate::texts::{fault_text, pair_of, push_word, sample_at, small, split};
use crate::writes::{options, write};
use std::alloc::Global;
use std::io;
use std::sync::ledger::Ledger;
use test_script::{Device, answer_of, number_of, numbers_of, silent};
use ts_sample::{MAX_TIME, Steps};
use ts_series::{Encoding, PutFault, Series, SeriesPlan};

/// `Series Uncompressed 88 0` has chunks of 88 bytes, and no retention. `Restored Compressed 4096 900 30` keeps 900
/// milliseconds, and once had a sample at 30, the highest time. Neither has samples.
#[derive(Drop)]
pub(crate) struct SeriesCalls<L: Ledger> {
    alloc: Global,
    series: Series,
    again: Option<Series>,
    steps: Steps<L>,
}

// `put 10` writes a sample of value 0, and `put 10 2000 5` one every five milliseconds from 10 to 2,000. `cut 20 80`
// deletes an interval, `retention 30` and `chunk-size 48` alter an option. `restore-chunk 88 20 0 0` adds a chunk of
// this limit with these bytes, and `make-again` makes the series again from its chunks. Later samples are written to
// both, and `is-alike` tells whether both have the same chunks and samples.
impl<L: Ledger> Device for SeriesCalls<L> {
    fn answer(&mut self, alloc: Global, verb: &str, text: &str) -> io::Result<Option<String>> {
        match verb {
            "put" => self.put_all(text),
            "cut" => self.cut(text),
            "retention" => self.alter(Some(number_of(text)), None),
            "chunk-size" => self.alter(None, Some(small(text))),
            "restore-chunk" => restore(alloc, &mut self.series, text),
            "make-again" => {
                self.again = made_again(alloc, &self.series)?;
                silent(alloc)
            }
            "is-alike" => self.is_alike(),
            _ => self.query(verb, text),
        }
    }
}

impl<L: Ledger> SeriesCalls<L> {
    /// `None` if the kind or the encoding is none.
    pub(crate) fn new(alloc: Global, kind: &str, text: &str, steps: Steps<L>) -> Option<Self> {
        let (encoding, numbers) = split(text);
        let encoding = match encoding {
            "Compressed" => Encoding::Compressed,
            "Uncompressed" => Encoding::Uncompressed,
            _ => return None,
        };
        let series = series_of(alloc, kind, encoding, numbers)?;
        Some(SeriesCalls {
            alloc,
            series,
            again: None,
            steps,
        })
    }

    fn put_all(&mut self, text: &str) -> io::Result<Option<String>> {
        let numbers = numbers_of(self.alloc, text)?;
        let (from, to, step) = match numbers.as_slice() {
            [time] => (*time, *time, 1),
            [from, to, step] => (*from, *to, *step),
            _ => return Ok(None),
        };
        for time in from..=to {
            if time.wrapping_sub(from).checked_rem(step) == Some(0)
                && let Err(fault) = self.put(time)
            {
                return fault_text(self.alloc, &fault);
            }
        }
        silent(self.alloc)
    }

    fn put(&mut self, time: u64) -> Result<(), PutFault> {
        if time <= MAX_TIME
            && let Some(sample) = sample_at(time, 0)
        {
            write(&mut self.series, &sample, &mut self.steps)?;
            if let Some(again) = &mut self.again {
                write(again, &sample, &mut self.steps)?;
            }
        }
        Ok(())
    }

    fn cut(&mut self, text: &str) -> io::Result<Option<String>> {
        let Some((from, to)) = pair_of(text) else {
            return Ok(None);
        };
        let plan = self.series.cut(from, to, &mut self.steps)?;
        self.series.commit(plan);
        silent(self.alloc)
    }

    fn alter(&mut self, retention: Option<u64>, size: Option<u32>) -> io::Result<Option<String>> {
        let steps = &mut self.steps;
        let plan = self.series.alter(retention, size, None, None, steps)?;
        self.series.commit(plan);
        silent(self.alloc)
    }

    fn is_alike(&mut self) -> io::Result<Option<String>> {
        let Some(again) = &self.again else {
            return Ok(None);
        };
        let (alloc, steps) = (self.alloc, &mut self.steps);
        let have_same_chunks = chunks_text(alloc, &self.series)? == chunks_text(alloc, again)?;
        let same = have_same_chunks
            && seen_text(alloc, &self.series, steps)? == seen_text(alloc, again, steps)?;
        answer_of(alloc, same)
    }

    // `chunk-count`; `has-more-chunks-than 5`; `chunks`, each with its limit and the bytes of its samples in the packed
    // format; `seen`, the samples, each with the count of rules when it was written. `end 0 1000 4` is an end time that
    // leaves four samples in this interval, and `start 0 1000 4` a start time. `ends` are the times at which the first
    // nine chunks end, and at last 1,000. `is-plan-small`: a planned change takes at most 384 bytes.
    fn query(&mut self, verb: &str, text: &str) -> io::Result<Option<String>> {
        let alloc = self.alloc;
        let count = self.series.chunk_count();
        match verb {
            "chunk-count" => answer_of(alloc, count),
            "has-more-chunks-than" => answer_of(alloc, count as u64 > number_of(text)),
            "chunks" => Ok(Some(chunks_text(alloc, &self.series)?)),
            "seen" => Ok(Some(seen_text(alloc, &self.series, &mut self.steps)?)),
            "ends" => self.ends(),
            "is-plan-small" => answer_of(alloc, size_of::<SeriesPlan>() <= 384),
            _ => self.time_for_count(verb, text),
        }
    }

    fn time_for_count(&self, verb: &str, text: &str) -> io::Result<Option<String>> {
        let numbers = numbers_of(self.alloc, text)?;
        let [from, to, count] = *numbers.as_slice() else {
            return Ok(None);
        };
        match verb {
            "end" if from <= to => {
                answer_of(self.alloc, self.series.end_for_count(from, to, count))
            }
            "start" if from <= to => {
                answer_of(self.alloc, self.series.start_for_count(from, to, count))
            }
            _ => Ok(None),
        }
    }

    // They are found by lookups: past the end of a chunk, one more sample is found, at the end of the next.
    fn ends(&self) -> io::Result<Option<String>> {
        let mut text = String::new(self.alloc);
        let mut from = 0;
        for _ in 0..9 {
            if from <= 1000 {
                let end = self.series.end_for_count(from, 1000, 1);
                push_word(&mut text, &format!(in self.alloc; "{end}")?)?;
                from = end.saturating_add(1);
            }
        }
        Ok(Some(text))
    }
}

// The series of this kind with the chunk size, the retention and, if it is restored, the highest time in a text.
fn series_of(alloc: Global, kind: &str, encoding: Encoding, text: &str) -> Option<Series> {
    let (chunk_size, rest) = split(text);
    let (retention, high) = split(rest);
    let options = options(
        encoding,
        chunk_size.parse::<u32>().ok()?,
        number_of(retention),
    );
    match kind {
        "Restored" => Some(Series::restored(alloc, options, Some(number_of(high)), 0)),
        _ => Some(Series::new(alloc, options)),
    }
}

// The record of a series, and which series read back from theirs.
use crate::words::{joined, small, text, word};
use std::alloc::{AllocError, Global};
use std::io;
use test_script::{Device, Script, answer_of, number_of, silent};
use ts_checkpoint::{SeriesHead, series_head, series_record};
use ts_labels::Labels;
use ts_resp::Word;
use ts_spec::{Encoding, Ignore, Options, Policy, Units};

/// `series`, the series s with plain chunks, the policy `Last` and one piece, in which three rules were made. These
/// calls set the rest: `retention 60000`, `chunk-size 128`, `ignore 5 500000` (a time and millionths), `high 12` and
/// `labels room=hall`. `record` is the words of its record. `head` is what `series_head` makes of it: the key, whether
/// the options are the same, the number of labels, the highest time, rules and pieces. Both are `none` if no record can
/// say this series.
pub(crate) fn run(script: &mut Script) -> io::Result<()> {
    let alloc = script.alloc();
    let options = Options {
        retention: 0,
        encoding: Encoding::Uncompressed,
        chunk_size: 0,
        policy: Policy::Last,
        ignore: Ignore::EQUAL,
    };
    script.run(&mut SeriesCalls {
        key: word(alloc, "s")?,
        options,
        labels: Labels::new(alloc),
        high: None,
    })
}

#[derive(Drop)]
struct SeriesCalls {
    key: Word,
    options: Options,
    labels: Labels,
    high: Option<u64>,
}

impl Device for SeriesCalls {
    fn answer(&mut self, alloc: Global, verb: &str, text: &str) -> io::Result<Option<String>> {
        match verb {
            "retention" => self.options.retention = number_of(text),
            "chunk-size" => self.options.chunk_size = small(text),
            "ignore" => self.options.ignore = ignore_of(text),
            "high" => self.high = Some(number_of(text)),
            "labels" => self.labels = labels_of(alloc, text)?,
            "record" => return self.record(alloc),
            "head" => return self.shown_head(alloc),
            _ => return Ok(None),
        }
        silent(alloc)
    }
}

impl SeriesCalls {
    fn head(&self, alloc: Global) -> Result<Option<SeriesHead>, AllocError> {
        series_head(
            alloc,
            &self.key,
            &self.options,
            &self.labels,
            self.high,
            3,
            1,
        )
    }

    fn record(&self, alloc: Global) -> io::Result<Option<String>> {
        match self.head(alloc)? {
            Some(head) => joined(alloc, &series_record(alloc, &head)?),
            None => answer_of(alloc, "none"),
        }
    }

    fn shown_head(&self, alloc: Global) -> io::Result<Option<String>> {
        let Some(head) = self.head(alloc)? else {
            return answer_of(alloc, "none");
        };
        let (key, same) = (text(&head.key), head.spec.options == self.options);
        let (labels, high) = (head.spec.labels.len(), head.high);
        let (born, pieces) = (head.born, head.pieces);
        Ok(Some(format!(in alloc; "{key} {same} {labels} {high:?} {born} {pieces}")?))
    }
}

fn ignore_of(text: &str) -> Ignore {
    let (time, value) = text.split_once(' ').unwrap_or((text, ""));
    let value = Units::new(i128::from(number_of(value))).unwrap_or(Units::ZERO);
    Ignore {
        time: number_of(time),
        value,
    }
}

fn labels_of(alloc: Global, text: &str) -> Result<Labels, AllocError> {
    let mut labels = Labels::new(alloc);
    for pair in text.split(' ') {
        let (label, value) = pair.split_once('=').unwrap_or((pair, ""));
        labels.set(word(alloc, label)?, word(alloc, value)?)?;
    }
    Ok(labels)
}

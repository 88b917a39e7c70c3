// The current chunk of each format, and the commands on it.
ghost use Rattle.std.specs.Prelude.{◌≡◌, true};
ghost use Rattle.ts_sample.specs.Chunk.{IsPast};
ghost use Rattle.ts_spec.specs.Sample.{last_of};

use crate::long::long_text;
use crate::restored::restored_text;
use crate::texts::{between, chunk_text, chunks_text, interval_of, sample_of, samples_text};
use std::alloc::{AllocError, Global};
use std::sync::ledger::Ledger;
use ts_chunk_packed::PackedChunk;
use ts_chunk_plain::PlainChunk;
use ts_sample::{Chunk, Sample, Steps};

#[derive(Drop)]
pub(crate) struct ChunkUnderTest<C: Chunk> {
    alloc: Global,
    chunk: C,
}

impl<C: Chunk> ChunkUnderTest<C> {
    // Starts with an empty chunk of the smallest limit.
    pub(crate) fn new(alloc: Global) -> Result<Self, AllocError> {
        let chunk = C::new(alloc, 48)?;
        Ok(ChunkUnderTest { alloc, chunk })
    }

    // Runs the command in a line. Returns `None` if it is not one.
    pub(crate) fn answer<L: Ledger>(
        &mut self,
        line: &str,
        steps: &mut Steps<L>,
    ) -> Result<Option<String>, AllocError> {
        let (verb, rest) = line.split_once(' ').unwrap_or((line, ""));
        match verb {
            "chunk" => self.begin(rest, steps),
            "more" => self.more(rest, steps),
            "without" | "seen" => self.parted(verb, rest, steps),
            _ => match sample_of(rest) {
                Some(sample) => self.changed(verb, &sample, steps),
                None => Ok(None),
            },
        }
    }

    // Creates a chunk with this limit and these samples. Returns `None` if the limit is out of range.
    fn begin<L: Ledger>(
        &mut self,
        text: &str,
        steps: &mut Steps<L>,
    ) -> Result<Option<String>, AllocError> {
        let (limit, samples) = text.split_once(' ').unwrap_or((text, ""));
        let Ok(limit) = limit.parse::<u32>() else {
            return Ok(None);
        };
        if limit < 48 || 1_048_576 < limit {
            return Ok(None);
        }
        self.chunk = C::new(self.alloc, limit)?;
        self.more(samples, steps)
    }

    // Appends the samples, up to one that does not fit.
    fn more<L: Ledger>(
        &mut self,
        text: &str,
        steps: &mut Steps<L>,
    ) -> Result<Option<String>, AllocError> {
        for word in text.split(' ') {
            if let Some(sample) = sample_of(word)
                && !append(&mut self.chunk, &sample)
            {
                return Ok(Some(format!(in self.alloc; "full before {word}")?));
            }
        }
        Ok(Some(chunk_text(self.alloc, &self.chunk, steps)?))
    }

    // The chunks after writing one more sample.
    fn changed<L: Ledger>(
        &self,
        verb: &str,
        sample: &Sample,
        steps: &mut Steps<L>,
    ) -> Result<Option<String>, AllocError> {
        match verb {
            "with" => {
                let chunks = self.chunk.upsert(self.alloc, sample, steps)?;
                Ok(Some(chunks_text(self.alloc, &chunks, steps)?))
            }
            "late" => match self.chunk.spliced(self.alloc, sample, steps)? {
                Some(one) => Ok(Some(chunk_text(self.alloc, &one, steps)?)),
                None => Ok(Some(String::from_str(self.alloc, "none")?)),
            },
            _ => Ok(None),
        }
    }

    // The chunks after deleting an interval, or what a lookup finds there.
    fn parted<L: Ledger>(
        &self,
        verb: &str,
        text: &str,
        steps: &mut Steps<L>,
    ) -> Result<Option<String>, AllocError> {
        let Some((from, to)) = interval_of(text) else {
            return Ok(None);
        };
        if verb == "seen" {
            let seen = between(self.alloc, &self.chunk, from, to, steps)?;
            return Ok(Some(samples_text(self.alloc, &seen)?));
        }
        let chunks = self.chunk.without(self.alloc, from, to, steps)?;
        Ok(Some(chunks_text(self.alloc, &chunks, steps)?))
    }
}

// Appends a sample if it is later than the last one and fits. Returns whether it did.
pub(crate) fn append<C: Chunk>(chunk: &mut C, sample: &Sample) -> bool {
    is_past(chunk, sample.time) && chunk.try_append(sample)
}

// Whether a time is past the last sample.
fn is_past<C: Chunk>(chunk: &C, time: u64) -> bool
    ensures { result ≡ true → IsPast (last_of (C.list chunk.now)) time }
{
    match chunk.last() {
        Some(last) => last.time < time,
        None => true,
    }
}

#[derive(Drop)]
pub(crate) struct BothFormats {
    alloc: Global,
    packed: ChunkUnderTest<PackedChunk>,
    plain: ChunkUnderTest<PlainChunk>,
}

impl BothFormats {
    pub(crate) fn new(alloc: Global) -> Result<BothFormats, AllocError> {
        let (packed, plain) = (ChunkUnderTest::new(alloc)?, ChunkUnderTest::new(alloc)?);
        Ok(BothFormats {
            alloc,
            packed,
            plain,
        })
    }

    // Runs the command in a line. Returns `None` if it is not one.
    pub(crate) fn answer<L: Ledger>(
        &mut self,
        line: &str,
        steps: &mut Steps<L>,
    ) -> Result<Option<String>, AllocError> {
        if let Some(rest) = line.strip_prefix("plain ") {
            return self.plain.answer(rest, steps);
        }
        if let Some(rest) = line.strip_prefix("long ") {
            return long_text(self.alloc, rest, steps);
        }
        if let Some(rest) = line.strip_prefix("bytes ") {
            return restored_text(self.alloc, rest, steps);
        }
        if line == "small" {
            let small = size_of::<PackedChunk>() <= 160;
            return Ok(Some(format!(in self.alloc; "{small}")?));
        }
        self.packed.answer(line, steps)
    }
}

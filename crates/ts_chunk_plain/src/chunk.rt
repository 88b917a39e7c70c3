// The plain chunk format: 28 bytes per sample, so any sample can be found without decoding the others.
ghost use Rattle.std.specs.Prelude.{⊤};
ghost use Rattle.ts_chunk_plain.specs.Plain.{plain};

mod parts;

use crate::pieces::{SAMPLE_BYTES, decode, encode, joined, lower_bound, scan_pieces, upper_bound};
use std::alloc::{AllocError, Global};
use std::marker::Model;
use std::sync::ledger::Ledger;
use ts_sample::{Chunk, Sample, Steps, Visit};

/// A chunk that stores each sample in 28 bytes. It allocates only when it is created.
#[derive(Drop)]
pub struct PlainChunk {
    limit: u32,
    bytes: Vec<u8>,
    first: Option<Sample>,
    last: Option<Sample>,
}

impl Model for PlainChunk {
    ghost use Rattle.std.specs.Prelude.{vec_capacity};
    ghost use Rattle.ts_chunk_plain.specs.Chunk.{Samples, IsPlain};
    ghost use Rattle.ts_chunk_plain.specs.Plain.{samples_of};

    ghost Value = { Samples };

    ghost view = { λ c. record { limit = c.limit; list = samples_of c.bytes.items } };

    ghost invariant = { λ c. IsPlain c.limit (vec_capacity c.bytes) c.bytes.items c.first c.last };
}

impl Chunk for PlainChunk {
    ghost use Rattle.ts_chunk_plain.specs.Laws.{three_or_more, no_fewer, one_within};

    ghost list = { λ c. c.list };

    ghost most = { λ c. c.limit };

    ghost format = { plain };

    // The index of the next sample.
    type Place = usize;

    ghost passed = { λ place. place };

    ghost is_place = { λ _ _. ⊤ };

    fn new(alloc: Global, limit: u32) -> Result<PlainChunk, AllocError> {
        Ok(PlainChunk {
            limit,
            bytes: Vec::with_capacity(alloc, limit as usize)?,
            first: None,
            last: None,
        })
    }

    fn known(&self) {
        let _limit = self.limit;
    }

    fn limit(&self) -> u32 {
        self.limit
    }

    fn len(&self) -> usize {
        self.bytes.len() / SAMPLE_BYTES
    }

    fn first(&self) -> Option<Sample> {
        self.first
    }

    fn last(&self) -> Option<Sample> {
        self.last
    }

    fn bytes(&self) -> u32 {
        self.bytes.len() as u32
    }

    fn raw(&self) -> &[u8] {
        &self.bytes
    }

    fn scan<V: Visit, L: Ledger>(&self, from: u64, to: u64, visit: &mut V, steps: &mut Steps<L>) {
        let pieces = self.pieces();
        let start = lower_bound(pieces, from);
        scan_pieces(&pieces[start..], to, visit, steps);
    }

    fn start() -> usize {
        0
    }

    fn place_from<L: Ledger>(&self, time: u64, _steps: &mut Steps<L>) -> usize {
        lower_bound(self.pieces(), time)
    }

    fn read<L: Ledger>(&self, place: &mut usize, steps: &mut Steps<L>) -> Option<Sample> {
        let piece = self.pieces().get(*place)?;
        steps.tick();
        *place += 1;
        Some(decode(piece))
    }

    fn fits(&self, _sample: &Sample) -> bool {
        self.bytes.len() + SAMPLE_BYTES <= self.limit as usize
    }

    fn try_append(&mut self, sample: &Sample) -> bool {
        if !self.fits(sample) {
            return false;
        }
        sample.known();
        self.bytes.extend_from_slice(&encode(sample)).unwrap();
        self.first = self.first.or(Some(*sample));
        self.last = Some(*sample);
        true
    }

    fn spliced<L: Ledger>(
        &self,
        alloc: Global,
        sample: &Sample,
        _steps: &mut Steps<L>,
    ) -> Result<Option<PlainChunk>, AllocError> {
        let limit = self.limit;
        let pieces = self.pieces();
        let start = lower_bound(pieces, sample.time);
        let end = upper_bound(pieces, sample.time);
        if (start + 1 + (pieces.len() - end)) * SAMPLE_BYTES > limit as usize {
            return Ok(None);
        }
        sample.known();
        Ok(Some(PlainChunk {
            limit,
            bytes: joined(alloc, limit, self.before(start), sample, self.past(end))?,
            first: self.first_with(start, sample),
            last: self.last_with(end, sample),
        }))
    }

    // A plain chunk never splits: rebuilding 28-byte samples costs about as much as moving them.
    fn halved<L: Ledger>(
        &self,
        _alloc: Global,
        _sample: &Sample,
        _steps: &mut Steps<L>,
    ) -> Result<Option<(PlainChunk, PlainChunk)>, AllocError> {
        Ok(None)
    }

    ghost at_least = { three_or_more };

    ghost grows = { no_fewer };

    ghost one_fits = { one_within };
}

// Fails to compile if a field is added, such as a second copy of the samples.
fn fields(it: &PlainChunk) {
    let PlainChunk {
        limit: _,
        bytes: _,
        first: _,
        last: _,
    } = it;
}

// The packed chunk format.
ghost use Rattle.std.specs.Prelude.{◌≡◌, Some};
ghost use Rattle.std.specs.Option.{unwrap_or};

mod parts;
mod restored;
mod splice;

use crate::chunk::splice::are_halves;
use crate::coding::{MAX_SAMPLE_BYTES, encode, width_of};
use crate::interval_scan::walk;
use crate::late_marks::LateMarks;
use crate::mark::{Mark, MarkPosition};
pub use restored::RestoredChunk;
use std::alloc::{AllocError, Global};
use std::marker::Model;
use std::sync::ledger::Ledger;
use ts_sample::{Chunk, Sample, Steps, Visit};

/// A chunk that stores each sample in 3 to 27 bytes, as differences from the samples before it. It allocates only
/// when it is created.
#[derive(Drop)]
pub struct PackedChunk {
    limit: u32,
    bytes: Vec<u8>,
    count: u32,
    step: u64,
    first: Option<Sample>,
    last: Option<Sample>,
    marks: LateMarks,
}

impl Model for PackedChunk {
    ghost use Rattle.std.specs.Prelude.{vec_capacity};
    ghost use Rattle.ts_chunk_packed.specs.Chunk.{Samples, IsMarked};
    ghost use Rattle.ts_chunk_packed.specs.Packed.{samples_of};

    ghost Value = { Samples };

    ghost view = { λ c. record { limit = c.limit; list = samples_of c.count c.bytes.items } };

    ghost invariant = { λ c. IsMarked c.limit (vec_capacity c.bytes) c.bytes.items c.count c.step c.first c.last
        c.marks };
}

impl Chunk for PackedChunk {
    ghost use Rattle.ts_chunk_packed.specs.Laws.{three_or_more, no_fewer, one_within};
    ghost use Rattle.ts_chunk_packed.specs.Marks.{IsPlace, passed};
    ghost use Rattle.ts_chunk_packed.specs.Packed.{packed};

    ghost list = { λ c. c.list };

    ghost most = { λ c. c.limit };

    ghost format = { packed };

    // A mark after the samples already read, or `None` at the front.
    type Place = Option<Mark>;

    ghost passed = { passed };

    ghost is_place = { IsPlace };

    fn new(alloc: Global, limit: u32) -> Result<PackedChunk, AllocError> {
        Ok(PackedChunk {
            limit,
            bytes: Vec::with_capacity(alloc, limit as usize)?,
            count: 0,
            step: 0,
            first: None,
            last: None,
            marks: LateMarks::new(),
        })
    }

    fn known(&self) {
        let _limit = self.limit;
    }

    fn limit(&self) -> u32 {
        self.limit
    }

    fn len(&self) -> usize {
        self.count as usize
    }

    fn first(&self) -> Option<Sample> {
        self.first
    }

    fn last(&self) -> Option<Sample> {
        self.last
    }

    fn bytes(&self) -> u32 {
        self.bytes.len() as u32
    }

    fn raw(&self) -> &[u8] {
        &self.bytes
    }

    fn scan<V: Visit, L: Ledger>(&self, from: u64, to: u64, visit: &mut V, steps: &mut Steps<L>) {
        walk(self.rest_from(from), from, to, visit, steps);
    }

    fn start() -> Option<Mark> {
        None
    }

    fn place_from<L: Ledger>(&self, time: u64, steps: &mut Steps<L>) -> Option<Mark> {
        self.known();
        let mut rest = self.rest_from(time);
        let count = rest.len();
        rest.pass_before(time);
        let unread = rest.len().saturating_sub(1);
        steps.add((count - unread) as u64);
        self.place_before(&rest)
    }

    fn read<L: Ledger>(&self, place: &mut Option<Mark>, steps: &mut Steps<L>) -> Option<Sample> {
        let mut rest = self.rest_at(place.as_ref());
        let sample = rest.next()?;
        steps.tick();
        *place = self.place_before(&rest);
        Some(sample)
    }

    fn fits(&self, sample: &Sample) -> bool {
        let room = self.limit as usize - self.bytes.len();
        if MAX_SAMPLE_BYTES <= room {
            sample.known();
            return true;
        }
        width_of(&self.context(), sample) <= room
    }

    fn try_append(&mut self, sample: &Sample) -> bool {
        if !self.fits(sample) {
            return false;
        }
        sample.known();
        let context = self.context();
        let place = MarkPosition {
            at: self.bytes.len() as u32,
            count: self.count,
        };
        self.marks.set(&context, place);
        encode(&mut self.bytes, &context, sample);
        keep_first(&mut self.first, sample);
        self.count += 1;
        self.step = context.step_to(sample);
        self.last = Some(*sample);
        true
    }

    fn spliced<L: Ledger>(
        &self,
        alloc: Global,
        sample: &Sample,
        steps: &mut Steps<L>,
    ) -> Result<Option<PackedChunk>, AllocError> {
        let Some((chunk, decoded)) = self.with_sample(alloc, sample)? else {
            return Ok(None);
        };
        steps.add(decoded as u64);
        Ok(Some(chunk))
    }

    fn halved<L: Ledger>(
        &self,
        alloc: Global,
        sample: &Sample,
        steps: &mut Steps<L>,
    ) -> Result<Option<(PackedChunk, PackedChunk)>, AllocError> {
        let Some((first, second)) = self.split_with(alloc, sample)? else {
            return Ok(None);
        };
        if !are_halves(first.len(), second.len()) {
            return Ok(None);
        }
        steps.add(self.count as u64);
        Ok(Some((first, second)))
    }

    ghost at_least = { three_or_more };

    ghost grows = { no_fewer };

    ghost one_fits = { one_within };
}

/// Sets `first` if it is not set yet.
pub(crate) fn keep_first(first: &mut Option<Sample>, sample: &Sample)
    ensures { first.new ≡ Some (unwrap_or first.old sample.now) }
{
    if first.is_none() {
        *first = Some(*sample);
    }
}

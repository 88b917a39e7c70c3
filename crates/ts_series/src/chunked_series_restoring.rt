// Restores a series of one kind of chunk, chunk by chunk.
ghost use Rattle.std.specs.Prelude.{◌≡◌, ◌↔◌, ◌≤◌, ◌<◌, ℕ, Option, [], nat_le, IsTrue, Ok};
ghost use Rattle.std.specs.Prelude.{true, false, ◌≢◌};
ghost use Rattle.ts_spec.specs.Sample.{at_times};
ghost use Rattle.ts_spec.specs.Valid.{Every, IsUpTo};
ghost use Rattle.ts_sample.specs.Chunk.{AreMade};
ghost use Rattle.ts_series.specs.History.{list_of, low, IsKeptIn};
ghost use Rattle.ts_series.specs.Restoring.{CanFollow, with_chunk};

use crate::chunked_series::ChunkedSeries;
use crate::chunks::Chunks;
use std::alloc::{AllocError, Global};
use std::marker::{Brand, Model};
use std::sync::ledger::{Blank, Ledger};
use ts_sample::{Chunk, Sample, Steps, Visit};
use ts_spec::Options;

impl<C: Chunk> ChunkedSeries<C> {
    // A series without samples, with this highest time and this number of rules ever created on it.
    pub(crate) fn restored(
        alloc: Global,
        options: Options,
        high: Option<u64>,
        born: u32,
    ) -> ChunkedSeries<C>
        ensures options { result.options ≡ options }
        ensures high { result.high ≡ high }
        ensures born { result.born ≡ born }
        ensures empty { list_of result ≡ [] }
        ensures pieces { result.held.pieces ≡ [] }
        ensures limits { result.held.limits ≡ [] }
        ensures kept { IsKeptIn C.format result }
    {
        ChunkedSeries {
            alloc,
            options,
            chunks: Chunks::new(alloc),
            high,
            born,
        }
    }

    // Adds a chunk after the others if it can follow them, and returns whether it can. Its samples were written when at
    // most `made` rules had been created.
    pub(crate) fn restore_chunk(&mut self, chunk: C, made: u32) -> Result<bool, AllocError>
        requires { AreMade made (C.list chunk) }
        ensures follows { result ≡ Ok true → CanFollow self.old (C.list chunk) }
        ensures added { result ≡ Ok true
            → self.new ≡ with_chunk self.old (C.most chunk) (C.list chunk) self.new.held.room }
        ensures refused { result ≡ Ok false → CanFollow self.old (C.list chunk) → ⊥ }
        ensures unchanged { (result ≡ Ok true → ⊥) → self.new ≡ self.old }
        ensures options { self.new.options ≡ self.old.options }
        ensures kept { IsKeptIn C.format self.new }
    {
        if !self.accepts(&chunk, made) {
            return Ok(false);
        }
        chunk.known();
        self.chunks.push(chunk)?;
        Ok(true)
    }

    // Whether a chunk can follow the others.
    fn accepts(&self, chunk: &C, made: u32) -> bool
        requires { AreMade made (C.list chunk.now) }
        ensures { IsTrue result ↔ CanFollow self.now (C.list chunk.now) }
    {
        let Some(last) = chunk.last() else {
            return false;
        };
        if !is_up_to(self.high, last.time) {
            return false;
        }
        if !self.chunks.are_before(chunk) {
            return false;
        }
        if !self.shows_first(chunk) {
            return false;
        }
        were_made_by(chunk, made, self.edge(), self.born)
    }

    // Whether there are chunks, or the series would show a sample of this one.
    fn shows_first(&self, chunk: &C) -> bool
        ensures { IsTrue result
            ↔ (self.now.held.pieces ≡ [] → at_times (nat_le (low self.now)) (C.list chunk.now) ≢ []) }
    {
        if self.chunks.chunk_count() > 0 {
            return true;
        }
        chunk.known();
        match chunk.last() {
            Some(last) => self.edge() <= last.time,
            None => false,
        }
    }
}

// Whether a time is at most the highest one.
fn is_up_to(high: Option<u64>, time: u64) -> bool
    ensures { IsTrue result ↔ IsUpTo high time }
{
    match high {
        Some(high) => time <= high,
        None => false,
    }
}

// Whether a chunk's samples at or after `from` were all written when at most `born` rules had been created. It decodes
// none if `made` says so of all samples.
fn were_made_by<C: Chunk>(chunk: &C, made: u32, from: u64, born: u32) -> bool
    requires { AreMade made (C.list chunk.now) }
    ensures { IsTrue result ↔ Every (λ p. p.made ≤ born) (at_times (nat_le from) (C.list chunk.now)) }
{
    chunk.known();
    made <= born || greatest_made::<C, Brand>(chunk, from, Blank::new(1)) <= born
}

// The greatest number of rules that any of a chunk's samples at or after `from` was written after, or 0.
fn greatest_made<C: Chunk, L: Ledger>(chunk: &C, from: u64, blank: Blank) -> u32
    requires name { blank.name ≡ L.name }
    requires parts { blank.parts ≡ L.parts }
    requires some { 0 < blank.parts }
    ensures { (born : ℕ)
        → (result ≤ born) ↔ Every (λ p. p.made ≤ born) (at_times (nat_le from) (C.list chunk.now)) }
{
    chunk.known();
    let mut steps: Steps<L> = Steps::new(blank);
    let mut greatest = GreatestMade { made: 0 };
    chunk.scan(from, u64::MAX, &mut greatest, &mut steps);
    greatest.made
}

// Finds the greatest `made` of samples.
#[derive(Drop)]
pub(crate) struct GreatestMade {
    pub(crate) made: u32,
}

impl Visit for GreatestMade {
    ghost use Rattle.std.specs.Prelude.{◌^◌, max};
    ghost use Rattle.std.proofs.Common.{arith};

    ghost step = { λ g p. record { made = max g.made p.made } };

    ghost room = { λ g. 2 ^ 64 };

    fn sample(&mut self, sample: &Sample) {
        self.made = self.made.max(sample.made);
    }

    ghost lowers = { λ g p. Prim.omega arith };
}

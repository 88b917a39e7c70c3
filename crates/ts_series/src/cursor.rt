// A cursor over the samples of a series. It decodes each sample it reads once.
ghost use Rattle.std.specs.Prelude.{◌≡◌, ◌≢◌, ◌+◌, ◌<◌, ◌≤◌, nat_le, [], length, take, drop, slice_index_or};
ghost use Rattle.ts_spec.specs.Sample.{at_times, first_of};
ghost use Rattle.ts_sample.specs.Steps.{Takes};
ghost use Rattle.ts_series.specs.Stored.{points, longest};
ghost use Rattle.ts_series.specs.History.{list_of, reach};

use crate::chunks::Chunks;
use crate::series::{Series, SeriesByEncoding};
use std::marker::Model;
use std::sync::ledger::Ledger;
use ts_chunk_packed::PackedChunk;
use ts_chunk_plain::PlainChunk;
use ts_sample::{Chunk, Sample, Steps};

// The samples of the chunks that are not read yet.
#[derive(Drop)]
pub(crate) struct ChunkedSeriesCursor<'a, C: Chunk> {
    chunks: &'a Chunks<C>,
    // The index of the current chunk.
    at: usize,
    // The position in the current chunk.
    place: C::Place,
}

impl<'a, C: Chunk> Model for ChunkedSeriesCursor<'a, C> {
    ghost use Rattle.std.specs.Prelude.{List};
    ghost use Rattle.ts_spec.specs.Sample.{Point};
    ghost use Rattle.ts_series.specs.Reading.{left_at, IsReading};

    ghost Value = { List Point };

    ghost view = { λ c. left_at c.at (C.passed c.place) c.chunks.now.pieces };

    ghost invariant = { λ c. IsReading (λ ps. C.is_place ps c.place) c.chunks.now.pieces c.at (C.passed c.place) };
}

impl<'a, C: Chunk> ChunkedSeriesCursor<'a, C> {
    // The next sample. Each call is one step.
    pub(crate) fn next<L: Ledger>(&mut self, steps: &mut Steps<L>) -> Option<Sample>
        ensures next { result ≡ first_of self.old }
        ensures left { self.new ≡ drop 1 self.old }
        ensures steps { Takes steps.old steps.new 1 }
    {
        let next = self.chunks.read_at(self.at, &mut self.place, steps);
        if next.is_some() {
            return next;
        }
        if self.at == self.chunks.chunk_count() {
            return None;
        }
        self.at += 1;
        self.place = C::start();
        self.chunks.read_at(self.at, &mut self.place, steps)
    }
}

impl<C: Chunk> Chunks<C> {
    // A cursor over the samples at or after `time`.
    pub(crate) fn read_from<L: Ledger>(
        &self,
        time: u64,
        steps: &mut Steps<L>,
    ) -> ChunkedSeriesCursor<'_, C>
        ensures left { result ≡ at_times (nat_le time) (points self.now) }
        ensures steps { Takes steps.old steps.new (longest self.now.pieces) }
    {
        // Does nothing at run time: reading the field tells the proof that the chunks are in order.
        let _ = &self.chunks;
        let at = self.before(time);
        let place = self.place_from(at, time, steps);
        ChunkedSeriesCursor {
            chunks: self,
            at,
            place,
        }
    }

    // The position in front of the first sample at or after `time` in chunk `at`, if there is such a chunk.
    fn place_from<L: Ledger>(&self, at: usize, time: u64, steps: &mut Steps<L>) -> C::Place
        ensures place { C.is_place (slice_index_or self.now.pieces at []) result }
        ensures left { drop (C.passed result) (slice_index_or self.now.pieces at [])
            ≡ at_times (nat_le time) (slice_index_or self.now.pieces at []) }
        ensures within { C.passed result ≤ length (slice_index_or self.now.pieces at []) }
        ensures steps { Takes steps.old steps.new (longest self.now.pieces) }
    {
        match self.chunks.get(at) {
            None => C::start(),
            Some(chunk) => chunk.place_from(time, steps),
        }
    }

    // Reads the sample at `place` in chunk `at`, and moves the position past it.
    fn read_at<L: Ledger>(
        &self,
        at: usize,
        place: &mut C::Place,
        steps: &mut Steps<L>,
    ) -> Option<Sample>
        requires { C.is_place (slice_index_or self.now.pieces at []) place.old }
        ensures next { result ≡ first_of (drop (C.passed place.old) (slice_index_or self.now.pieces at [])) }
        ensures place { C.is_place (slice_index_or self.now.pieces at []) place.new }
        ensures passed { C.passed place.new
            ≡ C.passed place.old + length (take 1 (drop (C.passed place.old) (slice_index_or self.now.pieces at []))) }
        ensures counted { steps.new ≡ steps.old
            + length (take 1 (drop (C.passed place.old) (slice_index_or self.now.pieces at []))) }
        ensures filled { at < length self.now.pieces → slice_index_or self.now.pieces at [] ≢ [] }
    {
        let chunk = self.chunks.get(at)?;
        chunk.read(place, steps)
    }

    // The number of chunks.
    pub(crate) fn chunk_count(&self) -> usize
        ensures { result ≡ length self.now.pieces }
    {
        self.chunks.len()
    }
}

/// A cursor over a series' samples, oldest first.
#[derive(Drop)]
pub struct Cursor<'a> {
    cursors: CursorByEncoding<'a>,
}

// A cursor for either encoding.
#[derive(Drop)]
enum CursorByEncoding<'a> {
    Plain(ChunkedSeriesCursor<'a, PlainChunk>),
    Packed(ChunkedSeriesCursor<'a, PackedChunk>),
}

impl<'a> Model for Cursor<'a> {
    ghost use Rattle.std.specs.Prelude.{List};
    ghost use Rattle.ts_spec.specs.Sample.{Point};
    ghost use Rattle.ts_series.specs.Cursor.{left_in};

    ghost Value = { List Point };

    ghost view = { λ c. left_in c.cursors };
}

impl<'a> Cursor<'a> {
    /// The next sample. Each call is one step.
    pub fn next<L: Ledger>(&mut self, steps: &mut Steps<L>) -> Option<Sample>
        ensures next { result ≡ first_of self.old }
        ensures left { self.new ≡ drop 1 self.old }
        ensures steps { Takes steps.old steps.new 1 }
    {
        match &mut self.cursors {
            CursorByEncoding::Plain(line) => line.next(steps),
            CursorByEncoding::Packed(line) => line.next(steps),
        }
    }
}

impl Series {
    /// A cursor over the samples at or after `from`, in milliseconds. Allocates nothing.
    pub fn read_from<L: Ledger>(&self, from: u64, steps: &mut Steps<L>) -> Cursor<'_>
        ensures left { result ≡ at_times (nat_le from) (list_of self.now) }
        ensures steps { Takes steps.old steps.new (reach self.now) }
    {
        let cursors = match &self.by_encoding {
            SeriesByEncoding::Plain(line) => CursorByEncoding::Plain(line.read_from(from, steps)),
            SeriesByEncoding::Packed(line) => CursorByEncoding::Packed(line.read_from(from, steps)),
        };
        Cursor { cursors }
    }

    /// The number of samples at or after `time`, in milliseconds.
    pub fn count_from<L: Ledger>(&self, time: u64, steps: &mut Steps<L>) -> usize
        ensures count { result ≡ length (at_times (nat_le time) (list_of self.now)) }
        ensures steps { Takes steps.old steps.new (reach self.now) }
    {
        match &self.by_encoding {
            SeriesByEncoding::Plain(line) => line.count_from(time, steps),
            SeriesByEncoding::Packed(line) => line.count_from(time, steps),
        }
    }
}

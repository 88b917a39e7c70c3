// Helpers of `PlainChunk`: its samples as 28-byte pieces, and the bytes before and after an index.
ghost use Rattle.std.specs.Prelude.{◌≡◌, ◌≤◌, [], ◌∷◌, ◌++◌, map, take, drop, length};
ghost use Rattle.ts_chunk_plain.specs.Plain.{plain, sample_of};
ghost use Rattle.ts_sample.specs.Chunk.{AreInBounds};
ghost use Rattle.ts_spec.specs.Sample.{IsAscending, first_of, last_of};

use super::PlainChunk;
use crate::pieces::SAMPLE_BYTES;
use ts_sample::{Chunk, Sample};

impl PlainChunk {
    // Each sample's bytes.
    pub(super) fn pieces(&self) -> &[[u8; SAMPLE_BYTES]]
        ensures list { map sample_of result.now ≡ self.now.list }
        ensures ascending { IsAscending (map sample_of result.now) }
        ensures fine { AreInBounds (map sample_of result.now) }
    {
        let (pieces, _) = self.bytes.as_slice().as_chunks::<SAMPLE_BYTES>();
        pieces
    }

    // The bytes of the first `count` samples.
    pub(super) fn before(&self, count: usize) -> &[u8]
        requires { count ≤ length self.now.list }
        ensures { result.now ≡ plain (take count self.now.list) }
    {
        self.bytes.split_at(count * SAMPLE_BYTES).0
    }

    // The bytes of the samples after the first `count`.
    pub(super) fn past(&self, count: usize) -> &[u8]
        requires { count ≤ length self.now.list }
        ensures { result.now ≡ plain (drop count self.now.list) }
    {
        self.bytes.split_at(count * SAMPLE_BYTES).1
    }

    // The first sample once `sample` follows the first `count` samples.
    pub(super) fn first_with(&self, count: usize, sample: &Sample) -> Option<Sample>
        requires { count ≤ length self.now.list }
        ensures { result ≡ first_of (take count self.now.list ++ sample.now ∷ []) }
    {
        if count == 0 {
            Some(*sample)
        } else {
            self.first
        }
    }

    // The last sample once `sample` precedes the samples after the first `count`.
    pub(super) fn last_with(&self, count: usize, sample: &Sample) -> Option<Sample>
        requires { count ≤ length self.now.list }
        ensures { result ≡ last_of (sample.now ∷ drop count self.now.list) }
    {
        if count == self.len() {
            Some(*sample)
        } else {
            self.last
        }
    }
}

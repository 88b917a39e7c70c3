// Restores a series chunk by chunk, and gives its chunks out to be restored. Both encodings use the packed format for
// this.
ghost use Rattle.std.specs.Prelude.{◌≡◌, ◌<◌, List, [], length, slice_index, slice_index_or, nat_le};
ghost use Rattle.std.specs.Prelude.{IfOk, Ok, true, false};
ghost use Rattle.ts_spec.specs.Sample.{Point, at_times};
ghost use Rattle.ts_sample.specs.Chunk.{IsChunk, IsLimit};
ghost use Rattle.ts_chunk_packed.specs.Packed.{packed};
ghost use Rattle.ts_spec.specs.declared.series.Encoding.TheVariants.{Compressed, Uncompressed};
ghost use Rattle.ts_chunk_plain.specs.Plain.{plain};
ghost use Rattle.ts_series.specs.History.{list_of, low, IsKept, IsKeptIn};
ghost use Rattle.ts_series.specs.Restoring.{IsNextChunk, RestoresChunk};
ghost use Rattle.ts_series.specs.Stored.{points};

use crate::chunked_series::ChunkedSeries;
use crate::recoding::{repacked, unpacked};
use crate::series::{Series, SeriesByEncoding};
use std::alloc::{AllocError, Global};
use std::marker::Model;
use ts_chunk_packed::PackedChunk;
use ts_chunk_plain::PlainChunk;
use ts_sample::Chunk;
use ts_spec::{Encoding, Options};

impl Series {
    /// A series without samples. The highest time that it ever had a sample at is `high`, in milliseconds, and `born`
    /// rules were ever created on it. `restore_chunk` adds the samples.
    pub fn restored(alloc: Global, options: Options, high: Option<u64>, born: u32) -> Series
        ensures options { result.options ≡ options }
        ensures high { result.high ≡ high }
        ensures born { result.born ≡ born }
        ensures empty { list_of result ≡ [] }
        ensures pieces { result.held.pieces ≡ [] }
        ensures limits { result.held.limits ≡ [] }
        ensures kept { IsKept result }
    {
        let by_encoding = match options.encoding {
            Encoding::Uncompressed => {
                SeriesByEncoding::Plain(ChunkedSeries::restored(alloc, options, high, born))
            }
            Encoding::Compressed => {
                SeriesByEncoding::Packed(ChunkedSeries::restored(alloc, options, high, born))
            }
        };
        Series { by_encoding }
    }

    /// Adds a chunk of this limit after the others. `bytes` are its samples in the packed format, for either encoding,
    /// and may come from anyone: returns `false` if they are not valid or their samples can't follow those of the
    /// series. The limit is 48 to 1,048,576 bytes, all reserved at once. Unless the result is `Ok(true)`, the series
    /// is unchanged.
    pub fn restore_chunk(&mut self, limit: u32, bytes: &[u8]) -> Result<bool, AllocError>
        requires { IsLimit limit }
        ensures restored { result ≡ Ok true → RestoresChunk self.old limit bytes.now self.new }
        ensures refused { result ≡ Ok false
            → (ps : List Point) → packed ps ≡ bytes.now → IsNextChunk self.old limit ps → ⊥ }
        ensures unchanged { (result ≡ Ok true → ⊥) → self.new ≡ self.old }
        ensures kept { IsKept self.new }
    {
        match &mut self.by_encoding {
            SeriesByEncoding::Plain(line) => restore_plain(line, limit, bytes),
            SeriesByEncoding::Packed(line) => restore_packed(line, limit, bytes),
        }
    }

    /// The number of chunks. The contract also tells callers that the series shows the samples of its chunks from the
    /// retention edge on.
    pub fn chunk_count(&self) -> usize
        ensures count { result ≡ length self.now.held.pieces }
        ensures shown { list_of self.now ≡ at_times (nat_le (low self.now)) (points self.now.held) }
    {
        match &self.by_encoding {
            SeriesByEncoding::Plain(line) => line.chunks.chunk_count(),
            SeriesByEncoding::Packed(line) => line.chunks.chunk_count(),
        }
    }

    /// The size limit of a chunk, in bytes.
    pub fn chunk_limit(&self, index: usize) -> u32
        requires { index < length self.now.held.pieces }
        ensures limit { result ≡ slice_index self.now.held.limits index }
        ensures bounds { IsLimit result }
    {
        match &self.by_encoding {
            SeriesByEncoding::Plain(line) => line.chunks.chunk(index).limit(),
            SeriesByEncoding::Packed(line) => line.chunks.chunk(index).limit(),
        }
    }

    /// A chunk's samples in the packed format. An uncompressed series packs them into a new chunk of the same limit; a
    /// compressed one allocates nothing.
    pub fn packed_chunk(&self, alloc: Global, index: usize) -> Result<PackedBytes<'_>, AllocError>
        requires { index < length self.now.held.pieces }
        ensures bytes { IfOk result (λ b. b ≡ packed (slice_index_or self.now.held.pieces index [])) }
        ensures chunk { IfOk result (λ _. IsChunk packed (slice_index self.now.held.limits index)
            (slice_index_or self.now.held.pieces index [])) }
    {
        match &self.by_encoding {
            SeriesByEncoding::Plain(line) => {
                let chunk = StoredOrMade::Made(repacked(alloc, line.chunks.chunk(index))?);
                Ok(PackedBytes { chunk })
            }
            SeriesByEncoding::Packed(line) => {
                let chunk = StoredOrMade::Stored(line.chunks.chunk(index));
                Ok(PackedBytes { chunk })
            }
        }
    }
}

// Restores a chunk of an uncompressed series.
fn restore_plain(
    line: &mut ChunkedSeries<PlainChunk>,
    limit: u32,
    bytes: &[u8],
) -> Result<bool, AllocError>
    requires limit { IsLimit limit }
    requires encoding { line.old.options.encoding ≡ Uncompressed }
    ensures restored { result ≡ Ok true → RestoresChunk line.old limit bytes.now line.new }
    ensures refused { result ≡ Ok false
        → (ps : List Point) → packed ps ≡ bytes.now → IsNextChunk line.old limit ps → ⊥ }
    ensures unchanged { (result ≡ Ok true → ⊥) → line.new ≡ line.old }
    ensures options { line.new.options ≡ line.old.options }
    ensures kept { IsKeptIn plain line.new }
{
    let Some(restored) = unpacked(line.alloc, limit, bytes)? else {
        return Ok(false);
    };
    restored.chunk.known();
    line.restore_chunk(restored.chunk, restored.made)
}

// Restores a chunk of a compressed series.
fn restore_packed(
    line: &mut ChunkedSeries<PackedChunk>,
    limit: u32,
    bytes: &[u8],
) -> Result<bool, AllocError>
    requires limit { IsLimit limit }
    requires encoding { line.old.options.encoding ≡ Compressed }
    ensures restored { result ≡ Ok true → RestoresChunk line.old limit bytes.now line.new }
    ensures refused { result ≡ Ok false
        → (ps : List Point) → packed ps ≡ bytes.now → IsNextChunk line.old limit ps → ⊥ }
    ensures unchanged { (result ≡ Ok true → ⊥) → line.new ≡ line.old }
    ensures options { line.new.options ≡ line.old.options }
    ensures kept { IsKeptIn packed line.new }
{
    let Some(restored) = PackedChunk::of_bytes(line.alloc, limit, bytes)? else {
        return Ok(false);
    };
    restored.chunk.known();
    line.restore_chunk(restored.chunk, restored.made)
}

/// A chunk's samples in the packed format.
#[derive(Drop)]
pub struct PackedBytes<'a> {
    chunk: StoredOrMade<'a>,
}

// A chunk of the series, or one that was made for its bytes alone.
#[derive(Drop)]
enum StoredOrMade<'a> {
    Stored(&'a PackedChunk),
    Made(PackedChunk),
}

impl<'a> Model for PackedBytes<'a> {
    ghost use Rattle.std.specs.Prelude.{List, ℕ};
    ghost use Rattle.ts_chunk_packed.specs.Packed.{packed};
    ghost use Rattle.ts_series.specs.Recoded.{samples_in};

    ghost Value = { List ℕ };

    ghost view = { λ b. packed (samples_in b.chunk) };
}

impl<'a> PackedBytes<'a> {
    /// The bytes.
    pub fn bytes(&self) -> &[u8]
        ensures { result.now ≡ self.now }
    {
        match &self.chunk {
            StoredOrMade::Stored(chunk) => chunk.raw(),
            StoredOrMade::Made(chunk) => chunk.raw(),
        }
    }
}

// Copies chunks from one format into the other.
ghost use Rattle.std.specs.Prelude.{◌≡◌, ◌≢◌, ◌<◌, List, [], length, IfOk, IfSome, IfNone};
ghost use Rattle.ts_spec.specs.Sample.{Point};
ghost use Rattle.ts_sample.specs.Chunk.{AreMade, IsChunk, IsLimit};
ghost use Rattle.ts_chunk_packed.specs.Packed.{packed};
ghost use Rattle.ts_chunk_plain.specs.Plain.{plain};

use std::alloc::{AllocError, Global};
use std::marker::Brand;
use std::sync::ledger::{Blank, Ledger};
use ts_chunk_packed::PackedChunk;
use ts_chunk_plain::PlainChunk;
use ts_sample::{Chunk, Steps};

// A plain chunk made from packed bytes, and the greatest rule count of its samples.
#[derive(Drop)]
pub(crate) struct UnpackedChunk {
    pub(crate) chunk: PlainChunk,
    pub(crate) made: u32,
}

// The plain chunk of this limit whose samples have these packed bytes, or `None` if there is none or it would be
// empty. The bytes may be anything.
pub(crate) fn unpacked(
    alloc: Global,
    limit: u32,
    bytes: &[u8],
) -> Result<Option<UnpackedChunk>, AllocError>
    requires { IsLimit limit }
    ensures limit { IfOk result (λ o. IfSome o (λ r. r.chunk.limit ≡ limit)) }
    ensures bytes { IfOk result (λ o. IfSome o (λ r. packed r.chunk.list ≡ bytes.now)) }
    ensures packs { IfOk result (λ o. IfSome o (λ r. IsChunk packed limit r.chunk.list)) }
    ensures made { IfOk result (λ o. IfSome o (λ r. AreMade r.made r.chunk.list)) }
    ensures none { IfOk result (λ o. IfNone o ((ps : List Point) → IsChunk packed limit ps → IsChunk plain limit ps
        → ps ≢ [] → packed ps ≡ bytes.now → ⊥)) }
{
    let Some(packed) = PackedChunk::of_bytes(alloc, limit, bytes)? else {
        return Ok(None);
    };
    packed.chunk.known();
    let copy = recoded::<PackedChunk, PlainChunk, Brand>(alloc, &packed.chunk, Blank::new(1))?;
    let Some(chunk) = copy else {
        return Ok(None);
    };
    Ok(Some(UnpackedChunk {
        chunk,
        made: packed.made,
    }))
}

// The samples of a plain chunk in a packed one of the same limit. They always fit: a plain sample takes 28 bytes, and
// a packed one at most 27.
pub(crate) fn repacked(alloc: Global, chunk: &PlainChunk) -> Result<PackedChunk, AllocError>
    ensures { IfOk result (λ c. c.list ≡ chunk.now.list) }
{
    chunk.known();
    let copy = recoded::<PlainChunk, PackedChunk, Brand>(alloc, chunk, Blank::new(1))?;
    Ok(copy.unwrap())
}

// A chunk of another format with the same limit and samples, or `None` if they do not fit in it.
fn recoded<C: Chunk, D: Chunk, L: Ledger>(
    alloc: Global,
    chunk: &C,
    blank: Blank,
) -> Result<Option<D>, AllocError>
    requires name { blank.name ≡ L.name }
    requires parts { blank.parts ≡ L.parts }
    requires some { 0 < blank.parts }
    ensures list { IfOk result (λ o. IfSome o (λ d. D.list d ≡ C.list chunk.now)) }
    ensures limit { IfOk result (λ o. IfSome o (λ d. D.most d ≡ C.most chunk.now)) }
    ensures full { IfOk result (λ o. IfNone o (C.most chunk.now < length (D.format (C.list chunk.now)))) }
{
    chunk.known();
    let mut steps: Steps<L> = Steps::new(blank);
    let mut copy = D::new(alloc, chunk.limit())?;
    let mut place = C::start();
    while let Some(sample) = chunk.read(&mut place, &mut steps) {
        if !copy.try_append(&sample) {
            return Ok(None);
        }
    }
    Ok(Some(copy))
}

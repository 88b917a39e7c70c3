// A chunk made again from its bytes, which may be anything.
ghost use Rattle.std.specs.Prelude.{◌≡◌, ◌≢◌, List, [], IfOk, IfSome, IfNone};
ghost use Rattle.ts_spec.specs.Sample.{Point};
ghost use Rattle.ts_sample.specs.Chunk.{AreMade, IsChunk, IsLimit};
ghost use Rattle.ts_chunk_packed.specs.Packed.{packed};

use super::PackedChunk;
use crate::late_marks::LateMarks;
use crate::untrusted::read_samples;
use std::alloc::{AllocError, Global};

/// A chunk made again, and the greatest rule count of its samples.
#[derive(Drop)]
pub struct RestoredChunk {
    pub chunk: PackedChunk,
    pub made: u32,
}

impl PackedChunk {
    /// Returns the chunk of this limit whose encoded bytes are these, or `None` if there is none or it would be
    /// empty. The bytes may be anything. The limit is 48 to 1,048,576 bytes, all reserved at once for a chunk, and
    /// nothing else is allocated.
    pub fn of_bytes(
        alloc: Global,
        limit: u32,
        bytes: &[u8],
    ) -> Result<Option<RestoredChunk>, AllocError>
        requires { IsLimit limit }
        ensures limit { IfOk result (λ o. IfSome o (λ r. r.chunk.limit ≡ limit)) }
        ensures some { IfOk result (λ o. IfSome o (λ r. r.chunk.list ≢ [])) }
        ensures bytes { IfOk result (λ o. IfSome o (λ r. packed r.chunk.list ≡ bytes.now)) }
        ensures made { IfOk result (λ o. IfSome o (λ r. AreMade r.made r.chunk.list)) }
        ensures none { IfOk result (λ o. IfNone o ((ps : List Point) → IsChunk packed limit ps → ps ≢ []
            → packed ps ≡ bytes.now → ⊥)) }
    {
        if bytes.is_empty() || bytes.len() > limit as usize {
            return Ok(None);
        }
        let Some(read) = read_samples(bytes) else {
            return Ok(None);
        };
        let mut copy = Vec::with_capacity(alloc, limit as usize)?;
        copy.extend_from_slice(bytes)?;
        let chunk = PackedChunk {
            limit,
            bytes: copy,
            count: read.count,
            step: read.context.step(),
            first: read.first,
            last: read.context.last(),
            marks: LateMarks::new(),
        };
        Ok(Some(RestoredChunk {
            chunk,
            made: read.made,
        }))
    }
}

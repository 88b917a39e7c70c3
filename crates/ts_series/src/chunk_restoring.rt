// Adds whole chunks after the others.
ghost use Rattle.std.specs.Prelude.{◌≡◌, ◌≢◌, ◌↔◌, ◌<◌, [], ◌∷◌, ◌++◌, length, IsTrue, OnOk, OnErr};
ghost use Rattle.std.specs.Prelude.{slice_index, slice_index_or};
ghost use Rattle.ts_spec.specs.Sample.{IsAscending};
ghost use Rattle.ts_sample.specs.Chunk.{IsChunk};
ghost use Rattle.ts_series.specs.Stored.{points};

use crate::chunks::Chunks;
use std::alloc::AllocError;
use ts_sample::Chunk;

impl<C: Chunk> Chunks<C> {
    // Adds a chunk after the others. If memory runs out, nothing changes.
    pub(crate) fn push(&mut self, chunk: C) -> Result<(), AllocError>
        requires some { C.list chunk ≢ [] }
        requires ascending { IsAscending (points self.old ++ C.list chunk) }
        ensures pieces { OnOk result (self.new.pieces ≡ self.old.pieces ++ C.list chunk ∷ []) }
        ensures limits { OnOk result (self.new.limits ≡ self.old.limits ++ C.most chunk ∷ []) }
        ensures failed { OnErr result (self.new ≡ self.old) }
    {
        self.reserve_one()?;
        chunk.known();
        self.count += chunk.len();
        self.chunks.push_back_reserved(chunk);
        Ok(())
    }

    // Makes sure that one more chunk can be added without allocating. If memory runs out, nothing changes.
    fn reserve_one(&mut self) -> Result<(), AllocError>
        ensures pieces { self.new.pieces ≡ self.old.pieces }
        ensures limits { self.new.limits ≡ self.old.limits }
        ensures room { OnOk result (0 < self.new.room) }
        ensures failed { OnErr result (self.new ≡ self.old) }
    {
        let len = self.chunks.len();
        if len < self.chunks.capacity() {
            return Ok(());
        }
        self.chunks.reserve_exact(len.max(4))?;
        Ok(())
    }

    // Whether all samples of a chunk are later than these.
    pub(crate) fn are_before(&self, chunk: &C) -> bool
        ensures { IsTrue result ↔ IsAscending (points self.now ++ C.list chunk.now) }
    {
        chunk.known();
        let Some(first) = chunk.first() else {
            // Does nothing at run time: reading the field tells the proof that the chunks are in order.
            let _ = &self.chunks;
            return true;
        };
        match self.last() {
            Some(last) => last.time < first.time,
            None => true,
        }
    }

    // The chunk at an index.
    pub(crate) fn chunk(&self, index: usize) -> &C
        requires { index < length self.now.pieces }
        ensures list { C.list result.now ≡ slice_index_or self.now.pieces index [] }
        ensures limit { C.most result.now ≡ slice_index self.now.limits index }
        ensures chunk { IsChunk C.format (slice_index self.now.limits index)
            (slice_index_or self.now.pieces index []) }
    {
        &self.chunks[index]
    }
}

// A series of a checkpoint whose chunks are still to come.
ghost use Rattle.std.specs.Prelude.{◌≡◌, ◌==◌, [], length, None, Ok, true, false};
ghost use Rattle.ts_spec.specs.State.{State};
ghost use Rattle.ts_spec.specs.declared.limits.Limits.{Limits};
ghost use Rattle.ts_sample.specs.Chunk.{IsLimit};
ghost use Rattle.ts_db.specs.DbState.{Simulates};
ghost use Rattle.ts_checkpoint.specs.Loading.{with_open, with_samples, with_whole, series_so_far};
ghost use Rattle.ts_checkpoint.specs.Parts.{series_of};
ghost use Rattle.ts_checkpoint.specs.Restoring.{shown_series};
ghost use Rattle.ts_checkpoint.specs.Unpacked.{unpacked};

use std::alloc::{AllocError, Global};
use std::marker::Model;
use std::sync::ledger::Ledger;
use ts_checkpoint::{Piece, SeriesHead};
use ts_db::Db;
use ts_labels::{Labels, Spec};
use ts_resp::Word;
use ts_sample::Steps;
use ts_series::Series;

/// A series, and its chunks so far.
#[derive(Drop)]
pub(crate) struct OpenSeries {
    key: Word,
    labels: Labels,
    // how many chunks it has in all
    pieces: u32,
    series: Series,
}

impl Model for OpenSeries {
    ghost use Rattle.ts_checkpoint.specs.Loading as spec;
    ghost use Rattle.ts_execution.specs.SeriesChunks.{open_series, IsRestored};

    ghost Value = { spec.OpenSeries };

    ghost view = { λ s. open_series s.key s.labels s.pieces s.series };

    ghost invariant = { λ s. IsRestored s.series };
}

impl OpenSeries {
    ghost use Rattle.ts_execution.specs.Stages.{GivesRestored, part_result_of};

    /// A series without chunks.
    pub(crate) fn new(alloc: Global, head: SeriesHead) -> OpenSeries
        ensures { result ≡ record { head = series_of head; chunks = [] } }
    {
        let SeriesHead {
            key,
            spec,
            high,
            born,
            pieces,
        } = head;
        let Spec { options, labels } = spec;
        OpenSeries {
            key,
            labels,
            pieces,
            series: Series::restored(alloc, options, high, born),
        }
    }

    /// Whether all its chunks are there.
    pub(crate) fn is_whole(&self) -> bool
        ensures { result ≡ (length self.now.chunks == self.now.head.pieces) }
    {
        self.series.chunk_count() == self.pieces as usize
    }

    /// Adds the next chunk. Returns whether it did: the bytes must be samples, and these must be able to follow the
    /// others.
    pub(crate) fn add(&mut self, piece: &Piece) -> Result<bool, AllocError>
        requires { IsLimit piece.now.limit }
        ensures added { result ≡ Ok true → (limits : Limits) (m : State)
            → with_samples limits m self.old piece.now.limit (unpacked piece.now.samples)
            ≡ with_open limits m self.new }
        ensures refused { result ≡ Ok false → (limits : Limits) (m : State)
            → with_samples limits m self.old piece.now.limit (unpacked piece.now.samples) ≡ None }
    {
        ts_checkpoint::packed_chunks_unpack();
        ts_checkpoint::checks_are_exact();
        self.series
            .restore_chunk(piece.limit, piece.samples.bytes())
    }

    /// Stores it in the database. Returns whether it did: it must be valid, and its key new.
    pub(crate) fn store<L: Ledger>(
        self,
        db: &mut Db,
        steps: &mut Steps<L>,
    ) -> Result<bool, AllocError>
        ensures { Simulates db.old db.new (λ from to. GivesRestored (part_result_of result)
            (with_whole from.limits from.state (shown_series (series_so_far self))) from to) }
    {
        ts_checkpoint::checks_are_exact();
        let OpenSeries {
            key,
            labels,
            pieces: _,
            series,
        } = self;
        db.restore_series(key, series, labels, steps)
    }
}

// Writes the records of series and of their chunks.
ghost use Rattle.std.specs.Prelude.{◌≡◌, ◌<◌, [], ◌∷◌, map, length, IfOk, IfErr, OnOk};
ghost use Rattle.ts_spec.specs.Keyed.{Entry};
ghost use Rattle.ts_spec.specs.StoredSeries.{StoredSeries};
ghost use Rattle.ts_series.specs.History.{IsKept};
ghost use Rattle.ts_db.specs.DbState.{AreIdsOf, IsLive};
ghost use Rattle.ts_db.specs.Restoring.{keys_in_order};
ghost use Rattle.ts_checkpoint.specs.Parts as parts;
ghost use Rattle.ts_checkpoint.specs.PartWords.{part_words};
ghost use Rattle.ts_checkpoint.specs.Restoring.{chunk_part, head_of};
ghost use Rattle.ts_checkpoint.specs.Sayable.{IsSayableSeries};
ghost use Rattle.ts_execution.specs.Checkpoints.{Written, WrittenSeries, OnlyDrafts, log_state, IsEntry};
ghost use Rattle.ts_execution.specs.Checkpoints.{chunk_at, chunks_from, chunked};

use crate::checkpoint::CheckpointFault;
use crate::checkpoint_records::RecordWriter;
use std::alloc::Global;
use ts_checkpoint::{piece_reads_back, piece_record, series_head, series_record};
use ts_db::{Db, Id};
use ts_io::Log;
use ts_labels::Labels;
use ts_resp::Word;
use ts_series::Series;

impl RecordWriter {
    // Writes the records of all series, in the order of their keys.
    pub(crate) fn write_all_series<J: Log>(
        &mut self,
        log: &mut J,
        db: &Db,
        ids: &[Id],
    ) -> Result<(), CheckpointFault>
        requires { AreIdsOf db.now.ids (keys_in_order db.now.keys) ids.now }
        ensures written { OnOk result
            (WrittenSeries self.old.limits db.now db.now.keys.entries (J.drafted log.old) (J.drafted log.new)) }
        ensures drafts { OnlyDrafts (log_state J.content J.place J.faults log.old)
            (log_state J.content J.place J.faults log.new) result }
        ensures limits { self.new.limits ≡ self.old.limits }
    {
        for id in ids {
            self.write_series(log, db, *id)?;
        }
        Ok(())
    }

    // Writes the records of a series and of its chunks.
    fn write_series<J: Log>(&mut self, log: &mut J, db: &Db, id: Id) -> Result<(), CheckpointFault>
        requires { IsLive db.now.ids id }
        ensures written { OnOk result ((e : Entry StoredSeries) → IsEntry db.now id e
            → WrittenSeries self.old.limits db.now (e ∷ []) (J.drafted log.old) (J.drafted log.new)) }
        ensures drafts { OnlyDrafts (log_state J.content J.place J.faults log.old)
            (log_state J.content J.place J.faults log.new) result }
        ensures limits { self.new.limits ≡ self.old.limits }
    {
        let series = db.series_of(id);
        let chunks = series.chunk_count();
        if chunks > u32::MAX as usize {
            return Err(CheckpointFault::Memory);
        }
        let key = db.key_of(id);
        let words = series_words(self.alloc, key, db.labels_of(id), series, chunks as u32)?;
        self.write(log, &words)?;
        self.write_chunks(log, series)
    }

    // Writes the records of all chunks of a series.
    fn write_chunks<J: Log>(&mut self, log: &mut J, series: &Series) -> Result<(), CheckpointFault>
        requires { IsKept series.now }
        ensures written { OnOk result (Written self.old.limits (J.drafted log.old) (J.drafted log.new)
            (map chunk_part (chunks_from series.now.held.pieces series.now.held.limits))) }
        ensures drafts { OnlyDrafts (log_state J.content J.place J.faults log.old)
            (log_state J.content J.place J.faults log.new) result }
        ensures limits { self.new.limits ≡ self.old.limits }
    {
        for index in 0..series.chunk_count() {
            self.write_chunk(log, series, index)?;
        }
        Ok(())
    }

    // Writes the record of one chunk of a series.
    fn write_chunk<J: Log>(
        &mut self,
        log: &mut J,
        series: &Series,
        index: usize,
    ) -> Result<(), CheckpointFault>
        requires { index < length series.now.held.pieces }
        ensures written { OnOk result (Written self.old.limits (J.drafted log.old) (J.drafted log.new)
            (chunk_part (chunk_at series.now.held index) ∷ [])) }
        ensures drafts { OnlyDrafts (log_state J.content J.place J.faults log.old)
            (log_state J.content J.place J.faults log.new) result }
        ensures limits { self.new.limits ≡ self.old.limits }
    {
        let limit = series.chunk_limit(index);
        let samples = series.packed_chunk(self.alloc, index)?;
        let bytes = samples.bytes();
        if !piece_reads_back(limit, bytes) {
            return Err(CheckpointFault::Memory);
        }
        let words = piece_record(self.alloc, limit, bytes)?;
        self.write(log, &words)
    }
}

// The words of the record of a series, if they can say it.
fn series_words(
    alloc: Global,
    key: &Word,
    labels: &Labels,
    series: &Series,
    pieces: u32,
) -> Result<Vec<Word>, CheckpointFault>
    requires kept { IsKept series.now }
    requires pieces { pieces ≡ length series.now.held.pieces }
    ensures words { IfOk result
        (λ words. words.items ≡ part_words (parts.Series (head_of (chunked key.now labels.now series.now)))) }
    ensures sayable { OnOk result (IsSayableSeries (head_of (chunked key.now labels.now series.now))) }
    ensures fault { IfErr result (λ fault. fault ≡ CheckpointFault.Memory) }
{
    let head = series_head(
        alloc,
        key,
        &series.options(),
        labels,
        series.high(),
        series.born(),
        pieces,
    )?;
    match head {
        Some(head) => Ok(series_record(alloc, &head)?),
        None => Err(CheckpointFault::Memory),
    }
}

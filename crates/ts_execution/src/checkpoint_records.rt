// Writes records of a checkpoint to the draft of a log, each through the same buffer.
ghost use Rattle.std.specs.Prelude.{◌≡◌, [], ◌∷◌, IfOk, OnOk};
ghost use Rattle.ts_checkpoint.specs.Parts.{Part, Head};
ghost use Rattle.ts_checkpoint.specs.PartWords.{part_words};
ghost use Rattle.ts_checkpoint.specs.Sayable.{IsSayable};
ghost use Rattle.ts_execution.specs.Checkpoints.{Written, OnlyDrafts, log_state};

use crate::checkpoint::CheckpointFault;
use std::alloc::{AllocError, Global};
use ts_checkpoint::{encode_record, fits, head_record};
use ts_io::{Log, write_draft_all};
use ts_resp::{Out, WireLimits, Word};
use ts_sample::MAX_TIME;

// Writes records, each within these limits.
#[derive(Drop)]
pub(crate) struct RecordWriter {
    pub(crate) alloc: Global,
    pub(crate) limits: WireLimits,
    // the last record, encoded
    out: Out,
}

impl RecordWriter {
    pub(crate) fn new(alloc: Global, limits: WireLimits) -> Result<RecordWriter, AllocError>
        ensures { IfOk result (λ w. w.limits ≡ limits) }
    {
        Ok(RecordWriter {
            alloc,
            limits,
            out: Out::new(alloc)?,
        })
    }

    // Writes one record.
    pub(crate) fn write<J: Log>(
        &mut self,
        log: &mut J,
        words: &[Word],
    ) -> Result<(), CheckpointFault>
        ensures written { OnOk result ((p : Part) → words.now ≡ part_words p → IsSayable p
            → Written self.old.limits (J.drafted log.old) (J.drafted log.new) (p ∷ [])) }
        ensures drafts { OnlyDrafts (log_state J.content J.place J.faults log.old)
            (log_state J.content J.place J.faults log.new) result }
        ensures limits { self.new.limits ≡ self.old.limits }
    {
        if !fits(words, self.limits) {
            return Err(CheckpointFault::Memory);
        }
        self.out.give_back();
        encode_record(words, &mut self.out)?;
        write_draft_all(log, self.out.bytes())?;
        Ok(())
    }

    // Writes the head of a checkpoint, with this many records behind it.
    pub(crate) fn write_head<J: Log>(
        &mut self,
        log: &mut J,
        records: u64,
    ) -> Result<(), CheckpointFault>
        ensures written { OnOk result
            (Written self.old.limits (J.drafted log.old) (J.drafted log.new) (Head records ∷ [])) }
        ensures drafts { OnlyDrafts (log_state J.content J.place J.faults log.old)
            (log_state J.content J.place J.faults log.new) result }
        ensures limits { self.new.limits ≡ self.old.limits }
    {
        if records > MAX_TIME {
            return Err(CheckpointFault::Memory);
        }
        let words = head_record(self.alloc, records)?;
        self.write(log, &words)
    }
}

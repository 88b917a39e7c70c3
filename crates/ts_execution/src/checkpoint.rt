// Writes a checkpoint of the database.
ghost use Rattle.std.specs.Prelude.{◌≡◌, ◌≢◌, ◌-◌, ◌^◌, min, ℕ, Err, OnOk};
ghost use Rattle.ts_spec.specs.Keyed.{Entry};
ghost use Rattle.ts_spec.specs.StoredSeries.{StoredSeries};
ghost use Rattle.ts_io.specs.Causes.{Rose};
ghost use Rattle.ts_journal.specs.Limits.{IsBounded};
ghost use Rattle.ts_db.specs.DbState.{DbState, Represents, AreIdsOf, IsLive};
ghost use Rattle.ts_db.specs.Restoring.{keys_in_order};
ghost use Rattle.ts_execution.specs.Checkpoints.{Writes, IsEntry, record_count, record_total};

use crate::checkpoint_records::RecordWriter;
use std::alloc::{AllocError, Global};
use ts_db::{Db, Id};
use ts_io::{Failed, Log};
use ts_journal::limits_of;
use ts_resp::WireLimits;

/// Why a checkpoint was not written.
#[derive(Clone, Copy, Debug, PartialEq, Eq)]
pub enum CheckpointFault {
    /// A call of the log failed.
    Log,
    /// Out of memory, a record exceeds the limits of journals, or no record can describe a series or a rule.
    Memory,
}

impl From<AllocError> for CheckpointFault {
    ghost use Rattle.ts_execution.specs.declared.checkpoint.CheckpointFault.TheVariants.{Memory};

    ghost from_gives = { λ error e. e ≡ Memory };

    fn from(_error: AllocError) -> CheckpointFault {
        CheckpointFault::Memory
    }
}

impl From<Failed> for CheckpointFault {
    ghost use Rattle.ts_execution.specs.declared.checkpoint.CheckpointFault.TheVariants.{Log};

    ghost from_gives = { λ failed e. e ≡ Log };

    fn from(_failed: Failed) -> CheckpointFault {
        CheckpointFault::Log
    }
}

/// Appends a checkpoint of the database to the draft of the log. Under these limits of a server, each record fits the
/// limits of its journal. Uses 8 bytes of memory for each key, and what the longest record needs.
pub fn write_checkpoint<J: Log>(
    alloc: Global,
    db: &Db,
    log: &mut J,
    limits: WireLimits,
) -> Result<(), CheckpointFault>
    requires { IsBounded limits }
    ensures written { OnOk result ((held : DbState) → Represents db.now held
        → Writes limits held (J.drafted log.old) (J.drafted log.new)) }
    ensures content { J.content log.new ≡ J.content log.old }
    ensures place { J.place log.new ≡ J.place log.old }
    ensures fault { result ≡ Err CheckpointFault.Log → Rose (J.faults log.old) (J.faults log.new) }
    ensures no_fault { result ≢ Err CheckpointFault.Log → J.faults log.new ≡ J.faults log.old }
{
    let ids = db.ids()?;
    let records = count_records(db, &ids);
    let mut writer = RecordWriter::new(alloc, limits_of(limits))?;
    writer.write_head(log, records)?;
    writer.write_all_series(log, db, &ids)?;
    writer.write_all_rules(log, db, &ids)
}

// The number of records behind the head, at most the greatest u64.
fn count_records(db: &Db, ids: &[Id]) -> u64
    requires { AreIdsOf db.now.ids (keys_in_order db.now.keys) ids.now }
    ensures { result ≡ min (record_total db.now db.now.keys.entries) (2 ^ 64 - 1) }
{
    let mut records: u64 = 0;
    for id in ids {
        records = records.saturating_add(records_of(db, *id));
    }
    records
}

// The number of records of a series, of its chunks and of its rules, at most the greatest u64.
fn records_of(db: &Db, id: Id) -> u64
    requires { IsLive db.now.ids id }
    ensures { (e : Entry StoredSeries) → IsEntry db.now id e → result ≡ min (record_count db.now e) (2 ^ 64 - 1) }
{
    let chunks = db.series_of(id).chunk_count() as u64;
    let rules = db.rules_of(id).len() as u64;
    chunks.saturating_add(rules).saturating_add(1)
}

// Puts a checkpoint of a database in the place of its journal.
ghost use Rattle.std.specs.Prelude.{◌≡◌, ◌≢◌, ◌⊎◌, ◌≤◌, ℕ, List, [], Some, Err, OnOk, OnErr};
ghost use Rattle.ts_io.specs.Causes.{Rose};
ghost use Rattle.ts_db.specs.DbState.{DbState, Represents};
ghost use Rattle.ts_journal.specs.Limits.{IsBounded};
ghost use Rattle.ts_execution.specs.Limits.{CanRead};
ghost use Rattle.ts_engine.specs.Folding.{Folds, HasCheckpoint};

use std::alloc::Global;
use ts_db::Db;
use ts_execution::{CheckpointFault, Extent, write_checkpoint};
use ts_io::{Failed, Log};
use ts_resp::WireLimits;

/// A fold is due only if more bytes than this are behind the checkpoint: 64 MiB.
const LEAST_CHANGES: u64 = 64 << 20;

// Whether a fold is worth its time: more than 64 MiB are behind the checkpoint, and more than it has itself.
fn is_fold_due(extent: Extent) -> bool {
    let changes = extent.end.saturating_sub(extent.checkpoint);
    changes > LEAST_CHANGES && changes > extent.checkpoint
}

/// Folds the open journal, from which this database was loaded, if that is due. Without memory for it the journal stays
/// as it is.
pub(crate) fn fold_if_due<J: Log>(
    alloc: Global,
    db: &Db,
    log: &mut J,
    limits: WireLimits,
    extent: Extent,
) -> Result<(), Failed>
    requires limits { CanRead limits }
    requires bounded { IsBounded limits }
    ensures content { (held : DbState) → Represents db.now held → held.limits.wire ≡ limits → (journal : List ℕ)
        → J.content log.old ≡ Some journal
        → (J.content log.new ≡ J.content log.old) ⊎ HasCheckpoint held (J.content log.new) }
    ensures fault { OnErr result (Rose (J.faults log.old) (J.faults log.new)) }
    ensures no_fault { OnOk result (J.faults log.new ≡ J.faults log.old) }
{
    if !is_fold_due(extent) {
        return Ok(());
    }
    match fold_journal(alloc, db, log, limits) {
        Ok(()) | Err(CheckpointFault::Memory) => Ok(()),
        Err(CheckpointFault::Log) => Err(Failed),
    }
}

/// Writes what the database stores as a checkpoint, and puts it in the place of the open journal, from which the
/// database was loaded.
pub(crate) fn fold_journal<J: Log>(
    alloc: Global,
    db: &Db,
    log: &mut J,
    limits: WireLimits,
) -> Result<(), CheckpointFault>
    requires limits { CanRead limits }
    requires bounded { IsBounded limits }
    ensures folds { (held : DbState) → Represents db.now held → held.limits.wire ≡ limits → (journal : List ℕ)
        → J.content log.old ≡ Some journal → Folds result held (Some journal) (J.content log.new) }
    ensures fault { result ≡ Err CheckpointFault.Log → Rose (J.faults log.old) (J.faults log.new) }
    ensures no_fault { result ≢ Err CheckpointFault.Log → J.faults log.new ≡ J.faults log.old }
{
    match log.draft() {
        Ok(()) => publish_checkpoint(alloc, db, log, limits),
        Err(_) => Err(CheckpointFault::Log),
    }
}

// The same with an empty draft.
fn publish_checkpoint<J: Log>(
    alloc: Global,
    db: &Db,
    log: &mut J,
    limits: WireLimits,
) -> Result<(), CheckpointFault>
    requires limits { CanRead limits }
    requires bounded { IsBounded limits }
    ensures folds { (held : DbState) → Represents db.now held → held.limits.wire ≡ limits → (journal : List ℕ)
        → J.content log.old ≡ Some journal → J.drafted log.old ≡ Some []
        → Folds result held (Some journal) (J.content log.new) }
    ensures fault { result ≡ Err CheckpointFault.Log → Rose (J.faults log.old) (J.faults log.new) }
    ensures no_fault { result ≢ Err CheckpointFault.Log → J.faults log.new ≡ J.faults log.old }
{
    ts_checkpoint::a_checkpoint_restores();
    match write_checkpoint(alloc, db, log, limits) {
        Ok(()) => match log.publish() {
            Ok(()) => Ok(()),
            Err(_) => Err(CheckpointFault::Log),
        },
        Err(fault) => Err(fault),
    }
}

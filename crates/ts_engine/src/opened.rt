// Opens and loads a journal.
ghost use Rattle.std.specs.Prelude.{◌≡◌, ◌≢◌, ◌≤◌, ◌<◌, ℕ, List, Some, Err, IfOk};
ghost use Rattle.ts_io.specs.Causes.{Rose};
ghost use Rattle.ts_db.specs.DbState.{Simulates};
ghost use Rattle.ts_journal.specs.Limits.{IsBounded};
ghost use Rattle.ts_execution.specs.Limits.{CanRead};
ghost use Rattle.ts_engine.specs.Opening.{IsRead, IsOpened};
ghost use Rattle.ts_engine.specs.Opening as opening;

use std::alloc::Global;
use ts_db::Db;
use ts_execution::{Extent, LoadFault, load};
use ts_io::Log;
use ts_resp::WireLimits;
use ts_words::Status;

// Reads the journal as `read_journal` does, and truncates it after its last whole request.
pub(crate) fn open_journal<J: Log>(
    alloc: Global,
    db: &mut Db,
    name: &str,
    log: &mut J,
    limits: WireLimits,
    budget: u64,
) -> Result<Extent, LoadFault>
    requires limits { CanRead limits }
    requires bounded { IsBounded limits }
    ensures opened { Simulates db.old db.new (λ from to. (journal : List ℕ) → J.content log.old ≡ Some journal
        → IsOpened result limits budget from to journal (J.content log.new)) }
    ensures later { J.faults log.old ≤ J.faults log.new }
    ensures fault { result ≡ Err LoadFault.Journal → Rose (J.faults log.old) (J.faults log.new) }
    ensures no_fault { result ≢ Err LoadFault.Journal → J.faults log.new ≡ J.faults log.old }
{
    match read_journal(alloc, db, name, log, limits, budget) {
        Ok(extent) => match log.cut(extent.end) {
            Ok(()) => Ok(extent),
            Err(_) => Err(LoadFault::Journal),
        },
        Err(fault) => Err(fault),
    }
}

// Opens the journal, restores its checkpoint, and replays its changes.
pub(crate) fn read_journal<J: Log>(
    alloc: Global,
    db: &mut Db,
    name: &str,
    log: &mut J,
    limits: WireLimits,
    budget: u64,
) -> Result<Extent, LoadFault>
    requires limits { CanRead limits }
    requires bounded { IsBounded limits }
    ensures read { Simulates db.old db.new (λ from to. (journal : List ℕ) → J.content log.old ≡ Some journal
        → IsRead result limits budget from to journal) }
    ensures content { J.content log.new ≡ J.content log.old }
    ensures within { IfOk result (λ extent. extent.end ≤ J.place log.new) }
    ensures later { J.faults log.old ≤ J.faults log.new }
    ensures fault { result ≡ Err LoadFault.Journal → Rose (J.faults log.old) (J.faults log.new) }
    ensures no_fault { result ≢ Err LoadFault.Journal → J.faults log.new ≡ J.faults log.old }
{
    match log.open(name) {
        Ok(()) => load(alloc, db, log, limits, budget),
        Err(_) => Err(LoadFault::Journal),
    }
}

// The exit status if the journal was not loaded.
pub(crate) fn unloaded_status(fault: LoadFault) -> Status
    ensures { result ≡ opening.unloaded_status fault }
{
    match fault {
        LoadFault::Broken(_) => Status::JournalBroken,
        LoadFault::Journal => Status::JournalFault,
        LoadFault::Budget => Status::Budget,
        LoadFault::Memory => Status::Memory,
    }
}

// The offset in its status line; 0 if it has none.
pub(crate) fn unloaded_place(fault: LoadFault) -> u64
    ensures { result ≡ opening.unloaded_place fault }
{
    match fault {
        LoadFault::Broken(place) => place,
        LoadFault::Journal | LoadFault::Budget | LoadFault::Memory => 0,
    }
}

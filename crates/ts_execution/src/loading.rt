// Loads a journal.
ghost use Rattle.std.specs.Prelude.{◌≡◌, ◌≢◌, ℕ, ◌<◌, ◌≤◌, List, length, Some, Err, IfOk};
ghost use Rattle.ts_io.specs.Causes.{Rose};
ghost use Rattle.ts_db.specs.DbState.{Simulates};
ghost use Rattle.ts_journal.specs.Limits.{IsBounded};
ghost use Rattle.ts_execution.specs.Limits.{CanRead};
ghost use Rattle.ts_execution.specs.JournalReplay.{IsLoaded, IsJudged};

use crate::journal_piece::{Piece, read_piece};
use crate::load_state::Loading;
use crate::stage::Stage;
use std::alloc::Global;
use ts_db::{Db, Hints};
use ts_io::Log;
use ts_journal::limits_of;
use ts_resp::{Reader, WireLimits};

/// Why a journal was not loaded.
#[derive(Clone, Copy, Debug, PartialEq, Eq)]
pub enum LoadFault {
    /// It was read to its end, and breaks at this offset.
    Broken(u64),
    /// It could not be opened, read or truncated.
    Journal,
    /// It is not shorter than the budget.
    Budget,
    /// Out of memory.
    Memory,
}

/// How far a journal goes that was read to its end.
#[derive(Clone, Copy, Debug, PartialEq, Eq)]
pub struct Extent {
    /// Its whole requests end at this offset.
    pub end: u64,
    /// The checkpoint at its front ends at this offset; 0 without one.
    pub checkpoint: u64,
}

/// The most bytes that one read asks for.
pub const PIECE: usize = 4096;

/// Restores the checkpoint at the front of a journal, if it has one, and replays the changes behind it, from offset 0.
/// Reads at most `budget` bytes, in pieces. So besides the database, only an unfinished request is in memory, and a
/// series of the checkpoint whose chunks are still to come. Reads to the end before it reports a broken journal.
pub fn load<J: Log>(
    alloc: Global,
    db: &mut Db,
    log: &mut J,
    limits: WireLimits,
    budget: u64,
) -> Result<Extent, LoadFault>
    requires limits { CanRead limits }
    requires bounded { IsBounded limits }
    requires start { J.place log.old ≡ 0 }
    ensures loaded { Simulates db.old db.new
        (λ from to. (bytes : List ℕ) → J.content log.old ≡ Some bytes → IsLoaded result limits from to bytes) }
    ensures content { J.content log.new ≡ J.content log.old }
    ensures within { IfOk result (λ extent. extent.end ≤ J.place log.new) }
    ensures spent { result ≡ Err LoadFault.Budget → J.place log.new ≡ budget }
    ensures enough { (bytes : List ℕ) → J.content log.old ≡ Some bytes → result ≡ Err LoadFault.Budget
        → budget ≤ length bytes }
    ensures judged { (bytes : List ℕ) → J.content log.old ≡ Some bytes → IsJudged result → length bytes < budget }
    ensures later { J.faults log.old ≤ J.faults log.new }
    ensures fault { result ≡ Err LoadFault.Journal → Rose (J.faults log.old) (J.faults log.new) }
    ensures no_fault { result ≢ Err LoadFault.Journal → J.faults log.new ≡ J.faults log.old }
{
    let mut loading = Loading {
        reader: Reader::new(alloc, limits_of(limits)),
        stage: Stage::Start,
        hints: Hints::new(alloc),
        end: 0,
        broken: None,
    };
    let mut buffer = [0; PIECE];
    let mut taken = 0;
    let mut is_record = true;
    while taken < budget {
        let most = (budget - taken).min(PIECE as u64) as usize;
        match read_piece(
            &mut loading,
            db,
            log,
            &mut buffer[..most],
            taken,
            &mut is_record,
        ) {
            Piece::Read(0) => return loading.verdict(taken, is_record),
            Piece::Read(count) => taken += count as u64,
            Piece::Fault => return Err(LoadFault::Journal),
            Piece::Memory => return Err(LoadFault::Memory),
        }
    }
    Err(LoadFault::Budget)
}

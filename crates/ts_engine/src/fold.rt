// The mode `fold`.
ghost use Rattle.std.specs.Prelude.{◌≡◌, ◌≢◌, ◌⊎◌, ◌≤◌, ℕ, List, None, Some};
ghost use Rattle.ts_io.specs.Causes.{Rose};
ghost use Rattle.ts_journal.specs.Limits.{IsBounded};
ghost use Rattle.ts_engine.specs.Answered.{IsOutOfMemoryOr};
ghost use Rattle.ts_engine.specs.Folded as folded;
ghost use Rattle.ts_engine.specs.Folded.{EndsAs, Folded, HasFoldLine, status_folded};
ghost use Rattle.ts_engine.specs.Top.{AreUsable};

use crate::folding::fold_journal;
use crate::opened::{read_journal, unloaded_place, unloaded_status};
use crate::status::report_host;
use std::alloc::Global;
use ts_db::{Db, Limits};
use ts_execution::{CheckpointFault, LoadFault};
use ts_io::{Log, Sink};
use ts_words::{LastCauses, Status};

/// How a run in the mode `fold` ended.
#[derive(Clone, Copy, Debug, PartialEq, Eq)]
pub(crate) enum FoldEnd {
    /// The checkpoint is in the place of the journal.
    Done,
    /// The checkpoint could not be written, or not be put there.
    NotFolded,
    /// Out of memory after the journal was loaded.
    Memory,
    /// The journal was not loaded.
    NotLoaded(LoadFault),
}

impl FoldEnd {
    /// The exit status for this end.
    pub(crate) fn status(self) -> Status
        ensures { result ≡ folded.status_of self }
    {
        match self {
            FoldEnd::Done => Status::Ended,
            FoldEnd::NotFolded => Status::JournalFault,
            FoldEnd::Memory => Status::Memory,
            FoldEnd::NotLoaded(fault) => unloaded_status(fault),
        }
    }

    /// The offset in the status line; 0 if it has none.
    pub(crate) fn place(self) -> u64
        ensures { result ≡ folded.place_of self }
    {
        match self {
            FoldEnd::NotLoaded(fault) => unloaded_place(fault),
            FoldEnd::Done | FoldEnd::NotFolded | FoldEnd::Memory => 0,
        }
    }
}

// What the mode is run with.
#[derive(Clone, Copy)]
pub(crate) struct FoldOptions<'a> {
    // The name of the journal.
    pub(crate) name: &'a str,
    pub(crate) limits: Limits,
    pub(crate) budget: u64,
}

// Loads the journal, of which it reads at most `budget` bytes, and puts a checkpoint of the database in its place. Any
// status other than `Ended` writes its line to `err`, a fault with its cause.
pub(crate) fn answer_fold<E: Sink, J: Log>(
    alloc: Global,
    options: &FoldOptions,
    err: &mut E,
    log: &mut J,
) -> Status
    requires limits { AreUsable options.now.limits }
    requires bounded { IsBounded options.now.limits.wire }
    requires budget { 1 ≤ options.now.budget }
    ensures folded { (journal : List ℕ) → J.content log.old ≡ Some journal
        → Folded options.now.limits options.now.budget journal (J.content log.new)
        (record { hub = None; log = J.last_cause log.new }) (E.has err.old) (E.has err.new) result }
    ensures complete { (journal : List ℕ) → J.content log.old ≡ Some journal
        → (Rose (J.faults log.old) (J.faults log.new) → ⊥) → (Rose (E.faults err.old) (E.faults err.new) → ⊥)
        → (result ≡ Status.Memory) ⊎ (result ≡ status_folded options.now.limits options.now.budget journal) }
    ensures line { HasFoldLine (record { hub = None; log = J.last_cause log.new }) (E.has err.old) (E.has err.new)
        result }
    ensures no_usage { result ≢ Status.Usage }
    ensures no_capture { result ≢ Status.CaptureBroken }
    ensures no_accept { result ≢ Status.AcceptFault }
    ensures no_read_fault { result ≢ Status.ReadFault }
    ensures write_fault { result ≡ Status.WriteFault → Rose (E.faults err.old) (E.faults err.new) }
    ensures journal_fault { result ≡ Status.JournalFault → Rose (J.faults log.old) (J.faults log.new) }
    ensures no_write_fault { result ≢ Status.WriteFault → E.faults err.new ≡ E.faults err.old }
    ensures no_journal_fault { result ≢ Status.JournalFault → result ≢ Status.WriteFault
        → J.faults log.new ≡ J.faults log.old }
{
    let end = fold(alloc, options, log);
    let causes = LastCauses {
        hub: None,
        log: log.last_cause(),
    };
    report_host(err, end.status(), end.place(), causes)
}

// Loads the journal into a new database, and folds it.
fn fold<J: Log>(alloc: Global, options: &FoldOptions, log: &mut J) -> FoldEnd
    requires limits { AreUsable options.now.limits }
    requires bounded { IsBounded options.now.limits.wire }
    requires budget { 1 ≤ options.now.budget }
    ensures did { (journal : List ℕ) → J.content log.old ≡ Some journal
        → EndsAs options.now.limits options.now.budget journal (J.content log.new) result }
    ensures complete { (journal : List ℕ) → J.content log.old ≡ Some journal
        → (Rose (J.faults log.old) (J.faults log.new) → ⊥)
        → IsOutOfMemoryOr (folded.status_of result) (status_folded options.now.limits options.now.budget journal) }
    ensures fault { folded.status_of result ≡ Status.JournalFault → Rose (J.faults log.old) (J.faults log.new) }
    ensures no_fault { folded.status_of result ≢ Status.JournalFault → J.faults log.new ≡ J.faults log.old }
{
    let mut db = Db::new(alloc, options.limits);
    let wire = options.limits.wire;
    match read_journal(alloc, &mut db, options.name, log, wire, options.budget) {
        Ok(_) => match fold_journal(alloc, &db, log, wire) {
            Ok(()) => FoldEnd::Done,
            Err(CheckpointFault::Log) => FoldEnd::NotFolded,
            Err(CheckpointFault::Memory) => FoldEnd::Memory,
        },
        Err(fault) => FoldEnd::NotLoaded(fault),
    }
}

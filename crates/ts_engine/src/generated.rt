// The mode `gen`.
ghost use Rattle.std.specs.Prelude.{◌≡◌, ◌≢◌, ◌⊎◌, ◌<◌, ◌≤◌, IfSome};
ghost use Rattle.ts_io.specs.Causes.{Rose};
ghost use Rattle.ts_spec.specs.Totals.{total_shown};
ghost use Rattle.ts_db.specs.DbState.{DbState, Represents};
ghost use Rattle.ts_engine.specs.Generated.{IsSummary, WritesSummary, Workload};
ghost use Rattle.ts_engine.specs.Top.{AreUsable};

use crate::piped::{End, pipe};
use crate::status::report;
use std::alloc::Global;
use std::marker::Brand;
use std::sync::ledger::{Blank, Ledger};
use ts_db::{Db, Limits};
use ts_execution::PIECE;
use ts_gen::script;
use ts_io::{CountSink, MemClock, MemSource, Sink, write_all_counted};
use ts_sample::Steps;
use ts_words::{Status, summary};

/// The most bytes of a summary.
const ROOM: usize = 192;

// Runs the workload of this seed with `n` changes on a new database, and writes its summary to `out`. Any status other
// than `Ended` writes its line to `err`.
pub(crate) fn answer_workload<K: Sink, E: Sink>(
    alloc: Global,
    seed: u64,
    n: u32,
    out: &mut K,
    err: &mut E,
    limits: Limits,
) -> Status
    requires limits { AreUsable limits }
    requires changes { n ≤ 1000000 }
    ensures workload { Workload limits seed n (K.has out.old) (K.has out.new) (E.has err.old) (E.has err.new) result }
    ensures statuses { (result ≡ Status.Ended) ⊎ (result ≡ Status.WriteFault) ⊎ (result ≡ Status.Memory) }
    ensures write_fault { result ≡ Status.WriteFault
        → Rose (K.faults out.old) (K.faults out.new) ⊎ Rose (E.faults err.old) (E.faults err.new) }
    ensures no_write_fault { result ≢ Status.WriteFault → (K.faults out.new ≡ K.faults out.old)
        × (E.faults err.new ≡ E.faults err.old) }
{
    let status = report_workload(alloc, seed, n, out, limits);
    report(err, status, 0)
}

// Runs the workload and writes its summary.
fn report_workload<K: Sink>(alloc: Global, seed: u64, n: u32, out: &mut K, limits: Limits) -> Status
    requires limits { AreUsable limits }
    requires changes { n ≤ 1000000 }
    ensures sums { WritesSummary result limits seed n (K.has out.old) (K.has out.new) }
    ensures statuses { (result ≡ Status.Ended) ⊎ (result ≡ Status.WriteFault) ⊎ (result ≡ Status.Memory) }
    ensures write_fault { result ≡ Status.WriteFault → Rose (K.faults out.old) (K.faults out.new) }
    ensures no_write_fault { result ≢ Status.WriteFault → K.faults out.new ≡ K.faults out.old }
{
    let Some(numbers) = summarize(alloc, seed, n, limits) else {
        return Status::Memory;
    };
    let mut room = [0; ROOM];
    match write_all_counted(out, summary(&numbers, &mut room)) {
        Ok(()) => Status::Ended,
        Err(_) => Status::WriteFault,
    }
}

// Runs the workload. Returns the numbers of its summary, or `None` if memory runs out.
fn summarize(alloc: Global, seed: u64, n: u32, limits: Limits) -> Option<[u64; 6]>
    requires limits { AreUsable limits }
    requires changes { n ≤ 1000000 }
    ensures { IfSome result (IsSummary limits seed n) }
{
    let Ok(bytes) = script(alloc, seed, n) else {
        return None;
    };
    let size = bytes.len() as u64;
    let wire = Limits::usual().wire;
    let mut db = Db::new(alloc, Limits { wire, ..limits });
    let mut input = MemSource::new(bytes, PIECE, Vec::new(alloc));
    let mut replies = CountSink::new();
    let mut clock = MemClock::new(Vec::new(alloc));
    let outcome = pipe(
        alloc,
        &mut db,
        &mut input,
        &mut replies,
        &mut clock,
        wire,
        u64::MAX,
    );
    match outcome.end {
        End::Ended => Some([
            outcome.executed,
            size,
            replies.total(),
            replies.errors(),
            db.count().into(),
            count_samples::<Brand>(&db, Blank::new(1)),
        ]),
        _ => None,
    }
}

// Counts the visible samples of all keys.
fn count_samples<L: Ledger>(db: &Db, blank: Blank) -> u64
    requires name { blank.name ≡ L.name }
    requires parts { blank.parts ≡ L.parts }
    requires some { 0 < blank.parts }
    ensures { (held : DbState) → Represents db.now held → result ≡ total_shown held.state }
{
    db.total(&mut Steps::<L>::new(blank))
}

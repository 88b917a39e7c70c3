// The mode `mux`.
ghost use Rattle.std.specs.Prelude.{◌≡◌, ◌≢◌, ◌⊎◌, ◌≤◌, ℕ, List, Some};
ghost use Rattle.ts_io.specs.Causes.{Rose};
ghost use Rattle.ts_engine.specs.Captured.{Captured, HasCaptureLine, status_captured};
ghost use Rattle.ts_engine.specs.Headline.{run_view};
ghost use Rattle.ts_engine.specs.Top.{AreUsable, NoneRose};

use crate::capture_run::capture_session;
use crate::status::report_in;
use std::alloc::Global;
use ts_db::{Db, Limits};
use ts_io::{Clock, Sink, Source};
use ts_words::{Mode, Status};

// Answers the interleaved connections of a capture on a new database. Reads at most `budget` bytes. Any status other
// than `Ended` writes its line to `err`.
pub(crate) fn answer_capture<S: Source, K: Sink, E: Sink, C: Clock>(
    alloc: Global,
    input: &mut S,
    out: &mut K,
    err: &mut E,
    clock: &mut C,
    limits: Limits,
    budget: u64,
) -> Status
    requires limits { AreUsable limits }
    requires budget { 1 ≤ budget }
    ensures captured { (bytes : List ℕ) → S.left input.old ≡ Some bytes → Captured
        (run_view C.readings K.has limits clock.old clock.new out.old out.new)
        budget bytes (S.left input.new) (E.has err.old) (E.has err.new) result }
    ensures complete { (bytes : List ℕ) → S.left input.old ≡ Some bytes
        → NoneRose (S.faults input.old) (S.faults input.new) (K.faults out.old) (K.faults out.new) (E.faults err.old)
        (E.faults err.new)
        → (result ≡ Status.Memory) ⊎ (result ≡ status_captured budget bytes) }
    ensures line { HasCaptureLine (E.has err.old) (E.has err.new) result }
    ensures no_usage { result ≢ Status.Usage }
    ensures no_accept { result ≢ Status.AcceptFault }
    ensures no_journal { result ≢ Status.JournalFault }
    ensures no_broken_journal { result ≢ Status.JournalBroken }
    ensures read_fault { result ≡ Status.ReadFault → Rose (S.faults input.old) (S.faults input.new) }
    ensures write_fault { result ≡ Status.WriteFault
        → Rose (K.faults out.old) (K.faults out.new) ⊎ Rose (E.faults err.old) (E.faults err.new) }
    ensures no_read_fault { result ≢ Status.ReadFault → result ≢ Status.WriteFault
        → S.faults input.new ≡ S.faults input.old }
    ensures no_write_fault { result ≢ Status.WriteFault → (K.faults out.new ≡ K.faults out.old)
        × (E.faults err.new ≡ E.faults err.old) }
{
    let mut db = Db::new(alloc, limits);
    let end = capture_session(alloc, &mut db, input, out, clock, limits.wire, budget);
    report_in(Some(Mode::Mux), err, end.status(), end.place())
}

// The mode `keep`.
ghost use Rattle.std.specs.Prelude.{◌≡◌, ◌≢◌, ◌⊎◌, ◌<◌, ◌≤◌, ℕ, false, List, Some};
ghost use Rattle.ts_io.specs.Causes.{Rose};
ghost use Rattle.ts_journal.specs.Limits.{IsBounded};
ghost use Rattle.ts_db.specs.DbState.{Simulates};
ghost use Rattle.ts_execution.specs.Journaling.{kept};
ghost use Rattle.ts_execution.specs.Limits.{CanRead};
ghost use Rattle.ts_engine.specs.Answered.{IsOutOfMemoryOr};
ghost use Rattle.ts_engine.specs.Journaled as journaled;
ghost use Rattle.ts_engine.specs.Journaled.{Journaled, HasJournalLine, HasJournalCauses, IsAnswered, EndsAs};
ghost use Rattle.ts_engine.specs.Journaled.{status_journaled};
ghost use Rattle.ts_engine.specs.Headline.{run_view};
ghost use Rattle.ts_engine.specs.Top.{AreUsable, NoneRose};

use crate::journaling::{self, JournalEnd};
use crate::opened::open_journal;
use crate::piped::{StreamLimits, pipe_with};
use crate::status::report_in;
use std::alloc::Global;
use ts_db::{Db, Limits};
use ts_io::{Clock, Log, Sink, Source};
use ts_words::{Mode, Status};

// What the mode is run with.
#[derive(Clone, Copy)]
pub(crate) struct KeepOptions<'a> {
    // The name of the journal.
    pub(crate) name: &'a str,
    pub(crate) limits: Limits,
    pub(crate) budget: u64,
}

// Loads the journal and answers the requests of `input` on that database. Reads at most `budget` bytes of each.
// Appends the record of each change to the journal before it writes the reply. Any status other than `Ended` writes its
// line to `err`.
pub(crate) fn answer_journaled<S: Source, K: Sink, E: Sink, C: Clock, J: Log>(
    alloc: Global,
    options: &KeepOptions,
    input: &mut S,
    out: &mut K,
    err: &mut E,
    clock: &mut C,
    log: &mut J,
) -> Status
    requires limits { AreUsable options.now.limits }
    requires bounded { IsBounded options.now.limits.wire }
    requires budget { 1 ≤ options.now.budget }
    ensures journaled { (journal bytes : List ℕ) → J.content log.old ≡ Some journal → S.left input.old ≡ Some bytes
        → Journaled
        (record {
          seen = run_view C.readings K.has options.now.limits clock.old clock.new out.old out.new;
          journal = journal;
          journal_left = J.content log.new;
        })
        ((input.new ≡ input.old) × (out.new ≡ out.old) × (clock.new ≡ clock.old))
        options.now.budget bytes (S.left input.new) (E.has err.old) (E.has err.new) result }
    ensures complete { (journal bytes : List ℕ) → J.content log.old ≡ Some journal → S.left input.old ≡ Some bytes
        → NoneRose (S.faults input.old) (S.faults input.new) (K.faults out.old) (K.faults out.new) (E.faults err.old)
        (E.faults err.new)
        → (Rose (J.faults log.old) (J.faults log.new) → ⊥)
        → (result ≡ Status.Memory) ⊎ (result ≡ status_journaled options.now.limits options.now.budget journal bytes) }
    ensures line { HasJournalLine (E.has err.old) (E.has err.new) result }
    ensures no_usage { result ≢ Status.Usage }
    ensures no_accept { result ≢ Status.AcceptFault }
    ensures no_capture { result ≢ Status.CaptureBroken }
    ensures read_fault { result ≡ Status.ReadFault → Rose (S.faults input.old) (S.faults input.new) }
    ensures write_fault { result ≡ Status.WriteFault
        → Rose (K.faults out.old) (K.faults out.new) ⊎ Rose (E.faults err.old) (E.faults err.new) }
    ensures journal_fault { result ≡ Status.JournalFault → Rose (J.faults log.old) (J.faults log.new) }
    ensures no_read_fault { result ≢ Status.ReadFault → result ≢ Status.WriteFault
        → S.faults input.new ≡ S.faults input.old }
    ensures no_write_fault { result ≢ Status.WriteFault → (K.faults out.new ≡ K.faults out.old)
        × (E.faults err.new ≡ E.faults err.old) }
    ensures no_journal_fault { result ≢ Status.JournalFault → result ≢ Status.WriteFault
        → J.faults log.new ≡ J.faults log.old }
{
    let end = keep(alloc, options, input, out, clock, log);
    report_in(Some(Mode::Keep), err, end.status(), end.place())
}

// Loads the journal into a new database, and answers the input.
fn keep<S: Source, K: Sink, C: Clock, J: Log>(
    alloc: Global,
    options: &KeepOptions,
    input: &mut S,
    out: &mut K,
    clock: &mut C,
    log: &mut J,
) -> JournalEnd
    requires limits { AreUsable options.now.limits }
    requires bounded { IsBounded options.now.limits.wire }
    requires budget { 1 ≤ options.now.budget }
    ensures did { (journal bytes : List ℕ) → J.content log.old ≡ Some journal → S.left input.old ≡ Some bytes → EndsAs
        (record {
          seen = run_view C.readings K.has options.now.limits clock.old clock.new out.old out.new;
          journal = journal;
          journal_left = J.content log.new;
        })
        ((input.new ≡ input.old) × (out.new ≡ out.old) × (clock.new ≡ clock.old))
        options.now.budget bytes (S.left input.new) result }
    ensures complete { (journal bytes : List ℕ) → J.content log.old ≡ Some journal → S.left input.old ≡ Some bytes
        → (Rose (S.faults input.old) (S.faults input.new) → ⊥) → (Rose (K.faults out.old) (K.faults out.new) → ⊥)
        → (Rose (J.faults log.old) (J.faults log.new) → ⊥)
        → IsOutOfMemoryOr (journaled.status_of result)
        (status_journaled options.now.limits options.now.budget journal bytes) }
    ensures causes { HasJournalCauses (journaled.status_of result) (S.faults input.old) (S.faults input.new)
        (K.faults out.old) (K.faults out.new) (J.faults log.old) (J.faults log.new) }
{
    let mut db = Db::new(alloc, options.limits);
    let wire = options.limits.wire;
    let budget = options.budget;
    match open_journal(alloc, &mut db, options.name, log, wire, budget) {
        Ok(_) => {
            let limits = StreamLimits { wire, budget };
            answer_input(alloc, &mut db, input, out, clock, log, limits)
        }
        Err(fault) => JournalEnd::NotLoaded(fault),
    }
}

// Answers the input on the loaded database. Appends the record of each change to the journal before it writes the
// reply. If the journal fails, it writes nothing of that reply, and the input ends.
fn answer_input<S: Source, K: Sink, C: Clock, J: Log>(
    alloc: Global,
    db: &mut Db,
    input: &mut S,
    out: &mut K,
    clock: &mut C,
    log: &mut J,
    limits: StreamLimits,
) -> JournalEnd
    requires limits { CanRead limits.wire }
    requires budget { 1 ≤ limits.budget }
    ensures answered { Simulates db.old db.new
        (λ from to. (bytes : List ℕ) → S.left input.old ≡ Some bytes → IsAnswered result
        (λ failed. record {
          limits = limits.wire;
          from = kept (C.readings clock.old) (J.content log.old) false from;
          to = kept (C.readings clock.new) (J.content log.new) failed to;
          had = K.has out.old;
          has = K.has out.new;
        })
        limits.wire limits.budget bytes (S.left input.new)
        (S.faults input.old) (S.faults input.new) (K.faults out.old) (K.faults out.new) (J.faults log.old)
        (J.faults log.new)) }
    ensures causes { HasJournalCauses (journaled.status_of result) (S.faults input.old) (S.faults input.new)
        (K.faults out.old) (K.faults out.new) (J.faults log.old) (J.faults log.new) }
{
    let mut handler = journaling::Journaled { log, failed: false };
    let outcome = pipe_with(alloc, &mut handler, db, input, out, clock, limits);
    if handler.failed {
        JournalEnd::AppendFault
    } else {
        JournalEnd::Answered(outcome.end)
    }
}

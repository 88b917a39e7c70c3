// The function `top`: runs the mode that the command line selects.
ghost use Rattle.std.specs.Prelude.{◌≡◌, ◌≢◌, ◌⊎◌, ◌≤◌, ◌<◌, ℕ, true, false, List, length, take, None, Some, ◌^◌};
ghost use Rattle.ts_io.specs.Causes.{Rose};
ghost use Rattle.ts_io.specs.declared.hub.Step.{Step};
ghost use Rattle.ts_journal.specs.Limits.{IsBounded};
ghost use Rattle.ts_host.specs.Steps.{weight};
ghost use Rattle.ts_engine.specs.Asked.{asked, IsServe, IsGen, Connections, AllServed};
ghost use Rattle.ts_engine.specs.Captured.{IsMux, Captured, HasCaptureLine, status_captured};
ghost use Rattle.ts_engine.specs.Folded.{IsFold, Folded, HasFoldLine, status_folded};
ghost use Rattle.ts_engine.specs.Generated.{Workload};
ghost use Rattle.ts_engine.specs.Headline.{ending, asks_to_quit, run_view};
ghost use Rattle.ts_engine.specs.Journaled.{IsKeep, Journaled, HasJournalLine, status_journaled};
ghost use Rattle.ts_engine.specs.HostEnds as ends;
ghost use Rattle.ts_engine.specs.HostEnds.{IsHost, IsJournalHost, NoHostFault, has_journal};
ghost use Rattle.ts_engine.specs.Hosted.{EndsInMemory, EndsOver, Hosted, HasHostLine, status_hosted, host_view};
ghost use Rattle.ts_engine.specs.InputTaken.{InputTaken, HasStatusLine};
ghost use Rattle.ts_engine.specs.Top.{AreUsable, IsPipe, Reports, Headline, status_by, status_cut, NoneRose};

use crate::address::{ServeOptions, serve_address};
use crate::capture::answer_capture;
use crate::fold::{FoldOptions, answer_fold};
use crate::generated::answer_workload;
use crate::host_mode::{HostOptions, answer_host};
use crate::keep::{KeepOptions, answer_journaled};
use crate::piped::pipe;
use crate::status::report;
use std::alloc::Global;
use ts_db::{Db, Limits};
use ts_io::{Clock, Hub, Listener, Log, Sink, Source};
use ts_words::{Mode, Status, Storage};

/// The most bytes that the program reads of its input, of a connection or of a journal: 2^60.
pub fn usual_budget() -> u64
    ensures { result ≡ 2 ^ 60 }
{
    1 << 60
}

/// Runs the mode that the arguments (without the program's name) select, on a new database:
/// - `pipe` answers the requests of `input` on `out`.
/// - `serve ADDRESS N` serves N connections of `net`, one after another, and writes a line for each to `out`.
/// - `gen SEED N` runs the workload of this seed with N changes, and writes its summary to `out`.
/// - `keep FILE` loads the journal FILE through `log`, answers `input` like `pipe`, and appends the record of each
///   change to the journal before it writes the reply.
/// - `host ADDRESS [FILE [sync]]` serves any number of links of `hub` at once, with the journal FILE or in memory
///   alone. It writes `ready ADDRESS` to `out` as soon as links are accepted, and a line for each link that ends. The
///   records of a wake-up are in the journal, with `sync` also on disk, before its replies leave.
/// - `fold FILE` puts a checkpoint of what the journal FILE loads to in its place.
/// - `mux` answers the interleaved connections of the capture in `input`, and writes each reply as a frame to `out`.
///
/// Reads at most `budget` bytes of the input, of each connection and of the journal. Any status other than `Ended`
/// writes its line to `err`. Those of `host` and `fold` end with the cause of a failed hub or journal, if the system
/// told it.
pub fn top<S: Source, K: Sink, E: Sink, C: Clock, N: Listener, J: Log, H: Hub>(
    alloc: Global,
    words: &[String],
    input: &mut S,
    out: &mut K,
    err: &mut E,
    clock: &mut C,
    net: &mut N,
    log: &mut J,
    hub: &mut H,
    limits: Limits,
    budget: u64,
) -> Status
    requires limits { AreUsable limits }
    requires bounded { IsBounded limits.wire }
    requires budget { 1 ≤ budget }
    requires net { N.has_open_link net.old ≡ false }

    // pipe: the output is the replies of a database of plain sample lists to the requests in the input.
    ensures headline { IsPipe words.now → (bytes : List ℕ) → S.left input.old ≡ Some bytes → Headline
        (run_view C.readings K.has limits clock.old clock.new out.old out.new)
        budget bytes (S.left input.new) (E.has err.old) (E.has err.new) result }

    // If no device fails and the input is shorter than the budget, the status is that of the grammar, or out of memory.
    ensures complete { IsPipe words.now → (bytes : List ℕ) → S.left input.old ≡ Some bytes → length bytes < budget
        → NoneRose (S.faults input.old) (S.faults input.new) (K.faults out.old) (K.faults out.new) (E.faults err.old)
        (E.faults err.new)
        → (result ≡ Status.Memory) ⊎ (result ≡ status_by (asks_to_quit limits.wire bytes) (ending limits.wire bytes)) }

    // If none fails and the input is not shorter than the budget, the status is that of the grammar for the first
    // `budget` bytes: a used-up budget, unless they contain a QUIT or a protocol error; or out of memory.
    ensures spent { IsPipe words.now → (bytes : List ℕ) → S.left input.old ≡ Some bytes → budget ≤ length bytes
        → NoneRose (S.faults input.old) (S.faults input.new) (K.faults out.old) (K.faults out.new) (E.faults err.old)
        (E.faults err.new)
        → (result ≡ Status.Memory)
        ⊎ (result ≡ status_cut (asks_to_quit limits.wire (take budget bytes))
        (ending limits.wire (take budget bytes))) }

    // Which prefix of the input is read, and what is left of it.
    ensures taken { IsPipe words.now → (bytes : List ℕ) → S.left input.old ≡ Some bytes → InputTaken
        (run_view C.readings K.has limits clock.old clock.new out.old out.new)
        budget bytes (S.left input.new) (E.has err.old) (E.has err.new) result }

    // The status line of a status. Holds even if the input's bytes are unknown.
    ensures status_line { IsPipe words.now → HasStatusLine (E.has err.old) (E.has err.new) result }

    // serve: connections are served one after another, the first on the empty database, each later one on what the one
    // before left.
    ensures served { (links : ℕ) → asked words.now ≡ Some (Mode.Serve links) → Connections
        (record { left = N.In.left; reads = N.In.faults; has = N.Out.has; writes = N.Out.faults })
        (run_view C.readings K.has limits clock.old clock.new out.old out.new)
        budget links (N.coming net.old) (N.coming net.new) (N.closed net.old) (N.closed net.new) (E.has err.old)
        (E.has err.new) result }

    // gen: the summary is that of a run of the workload's requests.
    ensures generated { (seed n : ℕ) → asked words.now ≡ Some (Mode.Gen seed n)
        → Workload limits seed n (K.has out.old) (K.has out.new) (E.has err.old) (E.has err.new) result }

    // If neither the listener nor the output fails, all connections are served and their lines are written.
    ensures serve_complete { (links : ℕ) → asked words.now ≡ Some (Mode.Serve links)
        → (Rose (N.faults net.old) (N.faults net.new) → ⊥) → (Rose (K.faults out.old) (K.faults out.new) → ⊥)
        → AllServed
        (record { left = N.In.left; reads = N.In.faults; has = N.Out.has; writes = N.Out.faults })
        (run_view C.readings K.has limits clock.old clock.new out.old out.new)
        budget links (N.coming net.old) (N.coming net.new) (N.closed net.old) (N.closed net.new) result }

    // If neither the output nor `err` fails, the status is the good one, or out of memory.
    ensures gen_complete { IsGen words.now → (Rose (K.faults out.old) (K.faults out.new) → ⊥)
        → (Rose (E.faults err.old) (E.faults err.new) → ⊥)
        → (result ≡ Status.Memory) ⊎ (result ≡ Status.Ended) }

    // mux: the output has one frame for each request of the interleaved connections, in order, with the reply of one
    // database of plain sample lists; and one for each protocol error, which closes its own connection alone.
    ensures captured { IsMux words.now → (bytes : List ℕ) → S.left input.old ≡ Some bytes → Captured
        (run_view C.readings K.has limits clock.old clock.new out.old out.new)
        budget bytes (S.left input.new) (E.has err.old) (E.has err.new) result }

    // If no device fails, the status is that of the bytes that may be read, or out of memory.
    ensures capture_complete { IsMux words.now → (bytes : List ℕ) → S.left input.old ≡ Some bytes
        → NoneRose (S.faults input.old) (S.faults input.new) (K.faults out.old) (K.faults out.new) (E.faults err.old)
        (E.faults err.new)
        → (result ≡ Status.Memory) ⊎ (result ≡ status_captured budget bytes) }

    // The status line of a status. Holds even if the input's bytes are unknown.
    ensures capture_line { IsMux words.now → HasCaptureLine (E.has err.old) (E.has err.new) result }

    // Only a capture reports a broken capture.
    ensures only_capture { result ≡ Status.CaptureBroken → asked words.now ≡ Some Mode.Mux }

    // keep: the input is answered on the database that the journal loads to. Each reply that was written has its whole
    // record in the journal, and each prefix of the journal loads to the database after its complete changes.
    ensures journaled { IsKeep words.now → (journal bytes : List ℕ) → J.content log.old ≡ Some journal
        → S.left input.old ≡ Some bytes → Journaled
        (record {
          seen = run_view C.readings K.has limits clock.old clock.new out.old out.new;
          journal = journal;
          journal_left = J.content log.new;
        })
        ((input.new ≡ input.old) × (out.new ≡ out.old) × (clock.new ≡ clock.old))
        budget bytes (S.left input.new) (E.has err.old) (E.has err.new) result }

    // If no device fails, the status is that of the journal and the input, or out of memory.
    ensures journal_complete { IsKeep words.now → (journal bytes : List ℕ) → J.content log.old ≡ Some journal
        → S.left input.old ≡ Some bytes
        → NoneRose (S.faults input.old) (S.faults input.new) (K.faults out.old) (K.faults out.new) (E.faults err.old)
        (E.faults err.new)
        → (Rose (J.faults log.old) (J.faults log.new) → ⊥)
        → (result ≡ Status.Memory) ⊎ (result ≡ status_journaled limits budget journal bytes) }

    // The status line of a status. Holds even if the bytes of the input and of the journal are unknown.
    ensures journal_line { IsKeep words.now → HasJournalLine (E.has err.old) (E.has err.new) result }

    // host with a journal: the connections' requests are answered in one order, on the database that the journal loads
    // to. Each reply that was let out has its whole record in the journal, and each prefix of the journal loads to the
    // database after its complete changes.
    ensures hosted { (storage : Storage) → asked words.now ≡ Some (Mode.Host storage) → has_journal storage ≡ true
        → (journal : List ℕ) → J.content log.old ≡ Some journal → Hosted
        (EndsOver
        (host_view C.readings K.has H.coming H.out (ends.host_address words.now) limits budget
        clock.old clock.new out.old out.new hub.old hub.new)
        journal (J.content log.new))
        (record { hub = H.last_cause hub.new; log = J.last_cause log.new })
        (E.has err.old) (E.has err.new) result }

    // host in memory alone: the same, on the empty database.
    ensures hosted_in_memory { asked words.now ≡ Some (Mode.Host Storage.Memory) → Hosted
        (EndsInMemory
        (host_view C.readings K.has H.coming H.out (ends.host_address words.now) limits budget
        clock.old clock.new out.old out.new hub.old hub.new))
        (record { hub = H.last_cause hub.new; log = J.last_cause log.new })
        (E.has err.old) (E.has err.new) result }

    // If no device fails and the steps that come do not use up the budget, the status is that of the journal, or out of
    // memory.
    ensures host_complete { (storage : Storage) → asked words.now ≡ Some (Mode.Host storage)
        → has_journal storage ≡ true → (journal : List ℕ) (steps : List Step) → J.content log.old ≡ Some journal
        → H.coming hub.old ≡ Some steps → weight steps < budget
        → NoHostFault
        (record { hub = H.faults hub.old; lines = K.faults out.old; journal = J.faults log.old })
        (record { hub = H.faults hub.new; lines = K.faults out.new; journal = J.faults log.new })
        → (Rose (E.faults err.old) (E.faults err.new) → ⊥)
        → (result ≡ Status.Memory) ⊎ (result ≡ status_hosted limits budget journal) }
    ensures host_complete_in_memory { asked words.now ≡ Some (Mode.Host Storage.Memory)
        → (steps : List Step) → H.coming hub.old ≡ Some steps → weight steps < budget
        → NoHostFault
        (record { hub = H.faults hub.old; lines = K.faults out.old; journal = J.faults log.old })
        (record { hub = H.faults hub.new; lines = K.faults out.new; journal = J.faults log.new })
        → (Rose (E.faults err.old) (E.faults err.new) → ⊥)
        → (result ≡ Status.Memory) ⊎ (result ≡ Status.Ended) }

    // The status line of a status, with the cause of a failed hub or journal. Holds even if the bytes of the journal
    // and the steps are unknown.
    ensures host_line { (storage : Storage) → asked words.now ≡ Some (Mode.Host storage)
        → HasHostLine
        (record { hub = H.last_cause hub.new; log = J.last_cause log.new })
        (E.has err.old) (E.has err.new) result }

    // fold: a checkpoint is in the place of the journal afterwards, and loads to a database that stores the same; or
    // the journal is as it was.
    ensures folded { IsFold words.now → (journal : List ℕ) → J.content log.old ≡ Some journal
        → Folded limits budget journal (J.content log.new)
        (record { hub = None; log = J.last_cause log.new }) (E.has err.old) (E.has err.new) result }

    // If neither the journal nor `err` fails, the status is that of the journal, or out of memory.
    ensures fold_complete { IsFold words.now → (journal : List ℕ) → J.content log.old ≡ Some journal
        → (Rose (J.faults log.old) (J.faults log.new) → ⊥) → (Rose (E.faults err.old) (E.faults err.new) → ⊥)
        → (result ≡ Status.Memory) ⊎ (result ≡ status_folded limits budget journal) }

    // The status line of a status, with the cause of a failed journal. Holds even if the bytes of the journal are
    // unknown.
    ensures fold_line { IsFold words.now → HasFoldLine
        (record { hub = None; log = J.last_cause log.new }) (E.has err.old) (E.has err.new) result }

    // Only `keep`, `host` with a journal, and `fold` report a failed or broken journal.
    ensures only_journal { (result ≡ Status.JournalFault) ⊎ (result ≡ Status.JournalBroken)
        → IsKeep words.now ⊎ IsJournalHost words.now ⊎ IsFold words.now }

    // Invalid arguments change nothing but `err`.
    ensures usage { asked words.now ≡ None → Reports Status.Usage 0 result (E.has err.old) (E.has err.new) }
    ensures idle { asked words.now ≡ None → (input.new ≡ input.old) × (out.new ≡ out.old) × (clock.new ≡ clock.old) }
    ensures only_usage { result ≡ Status.Usage → asked words.now ≡ None }

    // A fault is reported only if its counter rose.
    ensures read_fault { result ≡ Status.ReadFault → Rose (S.faults input.old) (S.faults input.new) }
    ensures write_fault { result ≡ Status.WriteFault
        → Rose (K.faults out.old) (K.faults out.new) ⊎ Rose (E.faults err.old) (E.faults err.new) }
    ensures accept_fault { (IsHost words.now → ⊥) → result ≡ Status.AcceptFault
        → Rose (N.faults net.old) (N.faults net.new) }
    ensures hub_fault { IsHost words.now → result ≡ Status.AcceptFault → Rose (H.faults hub.old) (H.faults hub.new) }
    ensures journal_fault { result ≡ Status.JournalFault → Rose (J.faults log.old) (J.faults log.new) }

    // With any other status, no fault counter changed. A write fault may hide another fault: it then cut the line that
    // would have reported it.
    ensures no_read_fault { result ≢ Status.ReadFault → result ≢ Status.WriteFault
        → S.faults input.new ≡ S.faults input.old }
    ensures no_write_fault { result ≢ Status.WriteFault
        → (K.faults out.new ≡ K.faults out.old) × (E.faults err.new ≡ E.faults err.old) }
    ensures no_accept_fault { result ≢ Status.AcceptFault → result ≢ Status.WriteFault
        → N.faults net.new ≡ N.faults net.old }
    ensures no_hub_fault { result ≢ Status.AcceptFault → result ≢ Status.WriteFault
        → H.faults hub.new ≡ H.faults hub.old }
    ensures no_journal_fault { result ≢ Status.JournalFault → result ≢ Status.WriteFault
        → J.faults log.new ≡ J.faults log.old }

    // Only `pipe`, `keep` and `mux` use `input`; only `keep`, `host` with a journal, and `fold` use `log`; only `host`
    // uses `hub`; only `serve` uses `net`, and closes every connection that it accepted. `gen` reads no clock; `fold`
    // reads none either, and writes nothing to `out`.
    ensures input { (asked words.now ≡ Some Mode.Pipe → ⊥) → (IsKeep words.now → ⊥)
        → (asked words.now ≡ Some Mode.Mux → ⊥) → input.new ≡ input.old }
    ensures log { (IsKeep words.now → ⊥) → (IsJournalHost words.now → ⊥) → (IsFold words.now → ⊥)
        → log.new ≡ log.old }
    ensures hub { (IsHost words.now → ⊥) → hub.new ≡ hub.old }
    ensures net { (IsServe words.now → ⊥) → net.new ≡ net.old }
    ensures clock { IsGen words.now → clock.new ≡ clock.old }
    ensures fold_alone { IsFold words.now → (out.new ≡ out.old) × (clock.new ≡ clock.old) }
    ensures all_closed { N.has_open_link net.new ≡ false }
{
    match Mode::read(words) {
        Some(Mode::Pipe) => {
            let mut db = Db::new(alloc, limits);
            let outcome = pipe(alloc, &mut db, input, out, clock, limits.wire, budget);
            report(err, outcome.end.status(), outcome.end.place())
        }
        Some(Mode::Serve(links)) => {
            let options = ServeOptions {
                address: &words[1],
                links,
                limits,
                budget,
            };
            serve_address(alloc, &options, net, out, err, clock)
        }
        Some(Mode::Gen(seed, n)) => answer_workload(alloc, seed, n, out, err, limits),
        Some(Mode::Keep) => {
            let options = KeepOptions {
                name: &words[1],
                limits,
                budget,
            };
            answer_journaled(alloc, &options, input, out, err, clock, log)
        }
        Some(Mode::Host(storage)) => {
            let options = HostOptions {
                address: host_address(words),
                name: journal_name(words),
                storage,
                limits,
                budget,
            };
            answer_host(alloc, &options, hub, out, err, clock, log)
        }
        Some(Mode::Fold) => {
            let options = FoldOptions {
                name: &words[1],
                limits,
                budget,
            };
            answer_fold(alloc, &options, err, log)
        }
        Some(Mode::Mux) => answer_capture(alloc, input, out, err, clock, limits, budget),
        None => report(err, Status::Usage, 0),
    }
}

// The address in the arguments of `host`.
fn host_address(words: &[String]) -> &str
    ensures { result.now ≡ ends.host_address words.now }
{
    match words {
        [_, address, ..] => address,
        _ => "",
    }
}

// The name of the journal in the arguments of `host`; empty if there is none.
fn journal_name(words: &[String]) -> &str {
    match words {
        [_, _, name, ..] => name,
        _ => "",
    }
}

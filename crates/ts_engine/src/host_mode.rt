// The mode `host`.
ghost use Rattle.std.specs.Prelude.{◌≡◌, ◌≢◌, ◌⊎◌, ◌<◌, ◌≤◌, ℕ, true, List, Some};
ghost use Rattle.ts_io.specs.Causes.{Rose};
ghost use Rattle.ts_io.specs.declared.hub.Step.{Step};
ghost use Rattle.ts_journal.specs.Limits.{IsBounded};
ghost use Rattle.ts_host.specs.Steps.{weight};
ghost use Rattle.ts_engine.specs.HostEnds.{NoHostFault, has_journal};
ghost use Rattle.ts_engine.specs.Hosted.{EndsInMemory, EndsOver, Hosted, HasHostLine, status_hosted, host_view};
ghost use Rattle.ts_engine.specs.Top.{AreUsable};

use crate::host_run::host;
use crate::status::report_host;
use std::alloc::Global;
use ts_db::Limits;
use ts_io::{Clock, Hub, Log, Sink};
use ts_words::{LastCauses, Status, Storage};

// What the mode is run with.
#[derive(Clone, Copy)]
pub(crate) struct HostOptions<'a> {
    pub(crate) address: &'a str,
    // The name of the journal; empty if there is none.
    pub(crate) name: &'a str,
    pub(crate) storage: Storage,
    pub(crate) limits: Limits,
    pub(crate) budget: u64,
}

// Serves any number of links of the hub at once, on what the journal loads to or on a new database. Writes the line
// `ready` to `out` as soon as links are accepted, and a line for each link that ends. Adds the record of each change to
// the journal before its reply leaves. Any status other than `Ended` writes its line to `err`, a fault with its cause.
pub(crate) fn answer_host<H: Hub, K: Sink, E: Sink, C: Clock, J: Log>(
    alloc: Global,
    options: &HostOptions,
    hub: &mut H,
    out: &mut K,
    err: &mut E,
    clock: &mut C,
    log: &mut J,
) -> Status
    requires limits { AreUsable options.now.limits }
    requires bounded { IsBounded options.now.limits.wire }
    requires budget { 1 ≤ options.now.budget }
    ensures hosted { has_journal options.now.storage ≡ true → (journal : List ℕ)
        → J.content log.old ≡ Some journal → Hosted
        (EndsOver
        (host_view C.readings K.has H.coming H.out options.now.address.now options.now.limits options.now.budget
        clock.old clock.new out.old out.new hub.old hub.new)
        journal (J.content log.new))
        (record { hub = H.last_cause hub.new; log = J.last_cause log.new })
        (E.has err.old) (E.has err.new) result }
    ensures hosted_in_memory { options.now.storage ≡ Storage.Memory → Hosted
        (EndsInMemory
        (host_view C.readings K.has H.coming H.out options.now.address.now options.now.limits options.now.budget
        clock.old clock.new out.old out.new hub.old hub.new))
        (record { hub = H.last_cause hub.new; log = J.last_cause log.new })
        (E.has err.old) (E.has err.new) result }
    ensures complete { has_journal options.now.storage ≡ true → (journal : List ℕ) (steps : List Step)
        → J.content log.old ≡ Some journal → H.coming hub.old ≡ Some steps → weight steps < options.now.budget
        → NoHostFault
        (record { hub = H.faults hub.old; lines = K.faults out.old; journal = J.faults log.old })
        (record { hub = H.faults hub.new; lines = K.faults out.new; journal = J.faults log.new })
        → (Rose (E.faults err.old) (E.faults err.new) → ⊥)
        → (result ≡ Status.Memory) ⊎ (result ≡ status_hosted options.now.limits options.now.budget journal) }
    ensures complete_in_memory { options.now.storage ≡ Storage.Memory → (steps : List Step)
        → H.coming hub.old ≡ Some steps → weight steps < options.now.budget
        → NoHostFault
        (record { hub = H.faults hub.old; lines = K.faults out.old; journal = J.faults log.old })
        (record { hub = H.faults hub.new; lines = K.faults out.new; journal = J.faults log.new })
        → (Rose (E.faults err.old) (E.faults err.new) → ⊥)
        → (result ≡ Status.Memory) ⊎ (result ≡ Status.Ended) }
    ensures line { HasHostLine
        (record { hub = H.last_cause hub.new; log = J.last_cause log.new })
        (E.has err.old) (E.has err.new) result }
    ensures no_usage { result ≢ Status.Usage }
    ensures no_capture { result ≢ Status.CaptureBroken }
    ensures no_read_fault { result ≢ Status.ReadFault }
    ensures only_journal { (result ≡ Status.JournalFault) ⊎ (result ≡ Status.JournalBroken)
        → has_journal options.now.storage ≡ true }
    ensures accept_fault { result ≡ Status.AcceptFault → Rose (H.faults hub.old) (H.faults hub.new) }
    ensures write_fault { result ≡ Status.WriteFault
        → Rose (K.faults out.old) (K.faults out.new) ⊎ Rose (E.faults err.old) (E.faults err.new) }
    ensures journal_fault { result ≡ Status.JournalFault → Rose (J.faults log.old) (J.faults log.new) }
    ensures no_accept_fault { result ≢ Status.AcceptFault → result ≢ Status.WriteFault
        → H.faults hub.new ≡ H.faults hub.old }
    ensures no_write_fault { result ≢ Status.WriteFault → (K.faults out.new ≡ K.faults out.old)
        × (E.faults err.new ≡ E.faults err.old) }
    ensures no_journal_fault { result ≢ Status.JournalFault → result ≢ Status.WriteFault
        → J.faults log.new ≡ J.faults log.old }
    ensures log { options.now.storage ≡ Storage.Memory → log.new ≡ log.old }
{
    let end = host(alloc, options, hub, out, clock, log);
    let causes = last_causes(hub, log);
    report_host(err, end.status(), end.place(), causes)
}

// Why the hub and the log failed last, if the system told.
fn last_causes<H: Hub, J: Log>(hub: &H, log: &J) -> LastCauses
    ensures { result ≡ record { hub = H.last_cause hub.now; log = J.last_cause log.now } }
{
    LastCauses {
        hub: hub.last_cause(),
        log: log.last_cause(),
    }
}

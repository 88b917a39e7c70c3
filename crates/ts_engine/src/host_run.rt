// Runs the mode `host`, in memory alone or with a journal.
ghost use Rattle.std.specs.Prelude.{◌≡◌, ◌≢◌, ◌≤◌, ℕ, true, List, Some};
ghost use Rattle.ts_journal.specs.Limits.{IsBounded};
ghost use Rattle.ts_engine.specs.HostEnds as ends;
ghost use Rattle.ts_engine.specs.HostEnds.{HasHostCauses, IsLoaded, IsPossible, has_journal};
ghost use Rattle.ts_engine.specs.Hosted.{EndsInMemory, EndsOver, host_view};
ghost use Rattle.ts_engine.specs.Top.{AreUsable};

use crate::folding::fold_if_due;
use crate::host_end::HostEnd;
use crate::host_links::serve_links;
use crate::host_mode::HostOptions;
use crate::opened::open_journal;
use std::alloc::Global;
use ts_db::Db;
use ts_host::{InJournal, InMemory};
use ts_io::{Clock, Hub, Log, NoLog, Sink};
use ts_words::{Status, Storage};

// Serves in memory alone, or with the journal.
pub(crate) fn host<H: Hub, K: Sink, C: Clock, J: Log>(
    alloc: Global,
    options: &HostOptions,
    hub: &mut H,
    out: &mut K,
    clock: &mut C,
    log: &mut J,
) -> HostEnd
    requires limits { AreUsable options.now.limits }
    requires bounded { IsBounded options.now.limits.wire }
    requires budget { 1 ≤ options.now.budget }
    ensures over { has_journal options.now.storage ≡ true → (journal : List ℕ)
        → J.content log.old ≡ Some journal → EndsOver
        (host_view C.readings K.has H.coming H.out options.now.address.now options.now.limits options.now.budget
        clock.old clock.new out.old out.new hub.old hub.new)
        journal (J.content log.new) result }
    ensures in_memory { options.now.storage ≡ Storage.Memory → EndsInMemory
        (host_view C.readings K.has H.coming H.out options.now.address.now options.now.limits options.now.budget
        clock.old clock.new out.old out.new hub.old hub.new)
        result }
    ensures possible { IsPossible options.now.storage result }
    ensures unused { options.now.storage ≡ Storage.Memory → ends.status_of result ≢ Status.JournalFault }
    ensures causes { HasHostCauses (ends.status_of result)
        (record { hub = H.faults hub.old; lines = K.faults out.old; journal = J.faults log.old })
        (record { hub = H.faults hub.new; lines = K.faults out.new; journal = J.faults log.new }) }
    ensures log { options.now.storage ≡ Storage.Memory → log.new ≡ log.old }
{
    match options.storage {
        Storage::Memory => host_in_memory(alloc, options, hub, out, clock),
        Storage::Journal => host_journal(alloc, options, hub, out, clock, log),
        Storage::SyncedJournal => host_journal(alloc, options, hub, out, clock, log),
    }
}

// Serves on a new database, and keeps no journal.
fn host_in_memory<H: Hub, K: Sink, C: Clock>(
    alloc: Global,
    options: &HostOptions,
    hub: &mut H,
    out: &mut K,
    clock: &mut C,
) -> HostEnd
    requires limits { AreUsable options.now.limits }
    ensures ends { EndsInMemory
        (host_view C.readings K.has H.coming H.out options.now.address.now options.now.limits options.now.budget
        clock.old clock.new out.old out.new hub.old hub.new)
        result }
    ensures loaded { IsLoaded result }
    ensures causes { HasHostCauses (ends.status_of result)
        (record { hub = H.faults hub.old; lines = K.faults out.old; journal = 0 })
        (record { hub = H.faults hub.new; lines = K.faults out.new; journal = 0 }) }
{
    let mut db = Db::new(alloc, options.limits);
    let mut log = NoLog;
    serve_links::<H, K, C, NoLog, InMemory>(alloc, &mut db, options, hub, out, clock, &mut log)
}

// Serves on what the journal loads to. Folds the journal first, if that is due.
fn host_journal<H: Hub, K: Sink, C: Clock, J: Log>(
    alloc: Global,
    options: &HostOptions,
    hub: &mut H,
    out: &mut K,
    clock: &mut C,
    log: &mut J,
) -> HostEnd
    requires limits { AreUsable options.now.limits }
    requires bounded { IsBounded options.now.limits.wire }
    requires budget { 1 ≤ options.now.budget }
    ensures ends { (journal : List ℕ) → J.content log.old ≡ Some journal → EndsOver
        (host_view C.readings K.has H.coming H.out options.now.address.now options.now.limits options.now.budget
        clock.old clock.new out.old out.new hub.old hub.new)
        journal (J.content log.new) result }
    ensures possible { IsPossible Storage.Journal result }
    ensures causes { HasHostCauses (ends.status_of result)
        (record { hub = H.faults hub.old; lines = K.faults out.old; journal = J.faults log.old })
        (record { hub = H.faults hub.new; lines = K.faults out.new; journal = J.faults log.new }) }
{
    let mut db = Db::new(alloc, options.limits);
    let wire = options.limits.wire;
    match open_journal(alloc, &mut db, options.name, log, wire, options.budget) {
        Ok(extent) => match fold_if_due(alloc, &db, log, wire, extent) {
            Ok(()) => {
                serve_links::<H, K, C, J, InJournal>(alloc, &mut db, options, hub, out, clock, log)
            }
            Err(_) => HostEnd::NotFolded,
        },
        Err(fault) => HostEnd::NotLoaded(fault),
    }
}

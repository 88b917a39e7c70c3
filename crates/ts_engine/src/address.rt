// The mode `serve`.
ghost use Rattle.std.specs.Prelude.{◌≡◌, ◌≢◌, ◌⊎◌, ◌≤◌, false};
ghost use Rattle.ts_io.specs.Causes.{Rose};
ghost use Rattle.ts_engine.specs.Asked.{Connections, AllServed};
ghost use Rattle.ts_engine.specs.Asked as asked;
ghost use Rattle.ts_engine.specs.Headline.{run_view};
ghost use Rattle.ts_engine.specs.Top.{AreUsable};

use crate::serving::{Served, serve};
use crate::status::report;
use std::alloc::Global;
use ts_db::{Db, Limits};
use ts_io::{Clock, Listener, Sink};
use ts_words::Status;

// What the mode is run with.
#[derive(Clone, Copy)]
pub(crate) struct ServeOptions<'a> {
    pub(crate) address: &'a str,
    // How many connections are served.
    pub(crate) links: u32,
    pub(crate) limits: Limits,
    pub(crate) budget: u64,
}

// Serves the connections at the address, one after another, on one new database. Any status other than `Ended`
// writes its line to `err`.
pub(crate) fn serve_address<N: Listener, K: Sink, E: Sink, C: Clock>(
    alloc: Global,
    options: &ServeOptions,
    net: &mut N,
    out: &mut K,
    err: &mut E,
    clock: &mut C,
) -> Status
    requires limits { AreUsable options.now.limits }
    requires budget { 1 ≤ options.now.budget }
    requires net { N.has_open_link net.old ≡ false }
    requires links { 1 ≤ options.now.links }
    ensures served { Connections
        (record { left = N.In.left; reads = N.In.faults; has = N.Out.has; writes = N.Out.faults })
        (run_view C.readings K.has options.now.limits clock.old clock.new out.old out.new)
        options.now.budget options.now.links (N.coming net.old) (N.coming net.new) (N.closed net.old)
        (N.closed net.new) (E.has err.old) (E.has err.new) result }
    ensures complete { (Rose (N.faults net.old) (N.faults net.new) → ⊥)
        → (Rose (K.faults out.old) (K.faults out.new) → ⊥)
        → AllServed (record { left = N.In.left; reads = N.In.faults; has = N.Out.has; writes = N.Out.faults })
        (run_view C.readings K.has options.now.limits clock.old clock.new out.old out.new)
        options.now.budget options.now.links (N.coming net.old) (N.coming net.new) (N.closed net.old)
        (N.closed net.new) result }
    ensures net { N.has_open_link net.new ≡ false }
    ensures statuses { (result ≡ Status.Ended) ⊎ (result ≡ Status.AcceptFault) ⊎ (result ≡ Status.WriteFault) }
    ensures accept_fault { result ≡ Status.AcceptFault → Rose (N.faults net.old) (N.faults net.new) }
    ensures write_fault { result ≡ Status.WriteFault
        → Rose (K.faults out.old) (K.faults out.new) ⊎ Rose (E.faults err.old) (E.faults err.new) }
    ensures no_accept_fault { result ≢ Status.AcceptFault → result ≢ Status.WriteFault
        → N.faults net.new ≡ N.faults net.old }
    ensures no_write_fault { result ≢ Status.WriteFault → (K.faults out.new ≡ K.faults out.old)
        × (E.faults err.new ≡ E.faults err.old) }
{
    match net.open(options.address) {
        Ok(()) => {
            let mut db = Db::new(alloc, options.limits);
            let wire = options.limits.wire;
            let budget = options.budget;
            let served = serve(alloc, &mut db, net, out, clock, options.links, wire, budget);
            report(err, status_served(served), 0)
        }
        Err(_) => report(err, Status::AcceptFault, 0),
    }
}

fn status_served(served: Served) -> Status
    ensures { result ≡ asked.status_served served }
{
    match served {
        Served::Done => Status::Ended,
        Served::AcceptFault => Status::AcceptFault,
        Served::WriteFault => Status::WriteFault,
    }
}

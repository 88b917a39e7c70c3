// Serves connections one after another on one database.
ghost use Rattle.std.specs.Prelude.{◌≡◌, ◌≢◌, ◌≤◌, false, OnOk, OnErr};
ghost use Rattle.ts_io.specs.Causes.{HasCause, Rose};
ghost use Rattle.ts_io.specs.Sinks.{Grows, GrowsByPrefix};
ghost use Rattle.ts_db.specs.DbState.{Simulates};
ghost use Rattle.ts_execution.specs.Limits.{CanRead};
ghost use Rattle.ts_engine.specs.Serving.{Serves, line_at};
ghost use Rattle.ts_engine.specs.Serving as lines;

use crate::piped::{End, Outcome, StreamLimits, pipe};
use std::alloc::Global;
use ts_db::Db;
use ts_io::{Clock, Failed, Listener, Sink, write_all_counted};
use ts_resp::WireLimits;
use ts_words::{LinkEnd, link_line};

/// How serving ended.
#[derive(Clone, Copy, Debug, PartialEq, Eq)]
pub enum Served {
    /// All connections were served, and their lines were written.
    Done,
    /// The next connection could not be accepted.
    AcceptFault,
    /// The line of the last connection could not be written. That connection was served.
    WriteFault,
}

/// The most bytes of the line of a connection.
const ROOM: usize = 80;

/// Serves `links` connections of the listener one after another, all on one database. Answers the requests of each like
/// `pipe`, at most `budget` bytes of them, closes it, and writes its line to `out`. Goes on with the next connection
/// however one ends. Numbers connections from 1.
pub fn serve<N: Listener, K: Sink, C: Clock>(
    alloc: Global,
    db: &mut Db,
    net: &mut N,
    out: &mut K,
    clock: &mut C,
    links: u32,
    limits: WireLimits,
    budget: u64,
) -> Served
    requires limits { CanRead limits }
    requires budget { 1 ≤ budget }
    requires net { N.has_open_link net.old ≡ false }
    ensures serves { Simulates db.old db.new (λ from to. Serves
        (record { left = N.In.left; reads = N.In.faults; has = N.Out.has; writes = N.Out.faults }) limits budget
        result 1 links
        (record { held = from; readings = C.readings clock.old })
        (record { held = to; readings = C.readings clock.new })
        (N.coming net.old) (N.coming net.new) (N.closed net.old) (N.closed net.new) (K.has out.old) (K.has out.new)) }
    ensures net { N.has_open_link net.new ≡ false }
    ensures accepts_later { N.faults net.old ≤ N.faults net.new }
    ensures writes_later { K.faults out.old ≤ K.faults out.new }
    ensures accept_fault { result ≡ Served.AcceptFault → Rose (N.faults net.old) (N.faults net.new) }
    ensures write_fault { result ≡ Served.WriteFault → Rose (K.faults out.old) (K.faults out.new) }
    ensures no_accept_fault { result ≢ Served.AcceptFault → N.faults net.new ≡ N.faults net.old }
    ensures no_write_fault { result ≢ Served.WriteFault → K.faults out.new ≡ K.faults out.old }
{
    let wire = limits;
    for link in 0..links {
        let limits = StreamLimits { wire, budget };
        match serve_link(alloc, db, net, out, clock, link + 1, limits) {
            Served::Done => {}
            fault => return fault,
        }
    }
    Served::Done
}

// Serves the next connection and writes its line.
fn serve_link<N: Listener, K: Sink, C: Clock>(
    alloc: Global,
    db: &mut Db,
    net: &mut N,
    out: &mut K,
    clock: &mut C,
    number: u32,
    limits: StreamLimits,
) -> Served
    requires limits { CanRead limits.wire }
    requires budget { 1 ≤ limits.budget }
    requires net { N.has_open_link net.old ≡ false }
    ensures serves { Simulates db.old db.new (λ from to. Serves
        (record { left = N.In.left; reads = N.In.faults; has = N.Out.has; writes = N.Out.faults }) limits.wire
        limits.budget result number 1
        (record { held = from; readings = C.readings clock.old })
        (record { held = to; readings = C.readings clock.new })
        (N.coming net.old) (N.coming net.new) (N.closed net.old) (N.closed net.new) (K.has out.old) (K.has out.new)) }
    ensures net { N.has_open_link net.new ≡ false }
    ensures accepts_later { N.faults net.old ≤ N.faults net.new }
    ensures writes_later { K.faults out.old ≤ K.faults out.new }
    ensures accept_fault { result ≡ Served.AcceptFault → Rose (N.faults net.old) (N.faults net.new) }
    ensures write_fault { result ≡ Served.WriteFault → Rose (K.faults out.old) (K.faults out.new) }
    ensures no_accept_fault { result ≢ Served.AcceptFault → N.faults net.new ≡ N.faults net.old }
    ensures no_write_fault { result ≢ Served.WriteFault → K.faults out.new ≡ K.faults out.old }
{
    let Ok(mut ends) = net.accept() else {
        return Served::AcceptFault;
    };
    let outcome = pipe(
        alloc,
        db,
        &mut ends.input,
        &mut ends.out,
        clock,
        limits.wire,
        limits.budget,
    );
    net.close(ends);
    match write_link(out, number, outcome) {
        Ok(()) => Served::Done,
        Err(_) => Served::WriteFault,
    }
}

// Writes the line of a connection.
fn write_link<K: Sink>(out: &mut K, number: u32, outcome: Outcome) -> Result<(), Failed>
    ensures whole { OnOk result (Grows (K.has out.old) (K.has out.new) (line_at number outcome)) }
    ensures front { OnErr result (GrowsByPrefix (K.has out.old) (K.has out.new) (line_at number outcome)) }
    ensures cause { HasCause (K.faults out.old) (K.faults out.new) result }
{
    let mut room = [0; ROOM];
    let line = link_line(
        number.into(),
        outcome.executed,
        link_end_of(outcome.end),
        &mut room,
    );
    write_all_counted(out, line)
}

// How the line of a connection names the end of its stream.
fn link_end_of(end: End) -> LinkEnd
    ensures { result ≡ lines.link_end_of end }
{
    match end {
        End::Ended => LinkEnd::Ended,
        End::Truncated(_) => LinkEnd::Truncated,
        End::Protocol(_) => LinkEnd::Protocol,
        End::ReadFault => LinkEnd::ReadFault,
        End::WriteFault => LinkEnd::WriteFault,
        End::Memory => LinkEnd::Memory,
        End::Budget => LinkEnd::Budget,
    }
}

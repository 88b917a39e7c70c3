//! A time series server that speaks RESP2. `main` gives the process's streams, clock and network to `top` of
//! `ts_engine`, and exits with the status that it returns.
#![tactic(auto)]

ghost use Rattle.std.specs.Prelude.{◌≡◌, ◌≤◌, ◌^◌, ℕ, true, false, List, None, Some, IfOk};
ghost use Rattle.ts_spec.specs.Limits.{usual};
ghost use Rattle.ts_words.specs.declared.mode.Mode.TheVariants.{Serve, Gen, Host};
ghost use Rattle.ts_words.specs.declared.mode.Storage.{Storage};
ghost use Rattle.ts_words.specs.declared.mode.Storage.TheVariants.{Memory};
ghost use Rattle.ts_engine.specs.Asked.{asked, Connections};
ghost use Rattle.ts_engine.specs.Captured.{IsMux, Captured};
ghost use Rattle.ts_engine.specs.Folded.{IsFold, Folded};
ghost use Rattle.ts_engine.specs.Generated.{Workload};
ghost use Rattle.ts_engine.specs.Headline.{RunView};
ghost use Rattle.ts_engine.specs.HostEnds.{has_journal, host_address};
ghost use Rattle.ts_engine.specs.Hosted.{EndsInMemory, EndsOver, Hosted};
ghost use Rattle.ts_engine.specs.Journaled.{IsKeep, Journaled};
ghost use Rattle.ts_engine.specs.Top.{IsPipe, Headline, Reports};

use std::alloc::Global;
use std::io::ErrorKind;
use std::process::ExitCode;
use std::{env, io};
use ts_engine::{Limits, Status, top, usual_budget};
use ts_io::{
    Clock, FileLog, Hub, Listener, Log, Sink, Source, StdSink, StdSource, SystemClock, TcpNet,
};
use ts_net::TcpHub;

/// The exit status if the system does not deliver the arguments.
const NO_WORDS: u8 = 64;

fn main(rt: HostRuntime) -> ExitCode {
    let status = match run(&rt) {
        Ok(status) => status,
        Err(error) if error.kind() == ErrorKind::OutOfMemory => Status::Memory.code(),
        Err(_) => NO_WORDS,
    };
    ExitCode::from(status)
}

/// Runs the program on the process's streams and clock and the system's network and files. Returns the exit status.
fn run(rt: &HostRuntime) -> io::Result<u8>
    ensures { IfOk result (λ status. status ≤ 11) }
{
    let alloc = rt.alloc();
    let mut words = Vec::new(alloc);
    for word in env::args(rt)?.skip(1) {
        words.push(word)?;
    }
    let mut input = StdSource::new(rt.stdin());
    let mut out = StdSink::new(rt.stdout());
    let mut err = StdSink::new(rt.stderr());
    let mut clock = SystemClock::new(rt);
    let mut net = TcpNet::new(rt);
    let mut log = FileLog::new(rt);
    let mut hub = TcpHub::new(rt, alloc);
    let status = answer(
        alloc, &words, &mut input, &mut out, &mut err, &mut clock, &mut net, &mut log, &mut hub,
    );
    Ok(status.code())
}

/// Runs `top` with the limits and the budget of the program. `top` says what each mode does.
fn answer<S: Source, K: Sink, E: Sink, C: Clock, N: Listener, J: Log, H: Hub>(
    alloc: Global,
    words: &[String],
    input: &mut S,
    out: &mut K,
    err: &mut E,
    clock: &mut C,
    net: &mut N,
    log: &mut J,
    hub: &mut H,
) -> Status
    requires { N.has_open_link net.old ≡ false }

    // pipe: the output is the replies to the requests in the input.
    ensures headline { IsPipe words.now → (bytes : List ℕ) → S.left input.old ≡ Some bytes → Headline
        (record {
          limits = usual;
          readings = C.readings clock.old;
          readings_left = C.readings clock.new;
          had = K.has out.old;
          has = K.has out.new;
        })
        (2 ^ 60) bytes (S.left input.new) (E.has err.old) (E.has err.new) result }

    // serve: the connections are served one after another, on one database.
    ensures served { (links : ℕ) → asked words.now ≡ Some (Serve links) → Connections
        (record { left = N.In.left; reads = N.In.faults; has = N.Out.has; writes = N.Out.faults })
        (record {
          limits = usual;
          readings = C.readings clock.old;
          readings_left = C.readings clock.new;
          had = K.has out.old;
          has = K.has out.new;
        })
        (2 ^ 60) links (N.coming net.old) (N.coming net.new) (N.closed net.old) (N.closed net.new) (E.has err.old)
        (E.has err.new) result }

    // gen: the output is the summary of the workload's run.
    ensures generated { (seed n : ℕ) → asked words.now ≡ Some (Gen seed n)
        → Workload usual seed n (K.has out.old) (K.has out.new) (E.has err.old) (E.has err.new) result }

    // keep: the input is answered on the database that the journal loads to, and the journal gets each change's record.
    ensures journaled { IsKeep words.now → (journal bytes : List ℕ) → J.content log.old ≡ Some journal
        → S.left input.old ≡ Some bytes → Journaled
        (record {
          seen = record {
            limits = usual;
            readings = C.readings clock.old;
            readings_left = C.readings clock.new;
            had = K.has out.old;
            has = K.has out.new;
          };
          journal = journal;
          journal_left = J.content log.new;
        })
        ((input.new ≡ input.old) × (out.new ≡ out.old) × (clock.new ≡ clock.old))
        (2 ^ 60) bytes (S.left input.new) (E.has err.old) (E.has err.new) result }

    // host: the same for many connections, answered in one order. Each reply leaves after its record is in the journal.
    ensures hosted { (storage : Storage) → asked words.now ≡ Some (Host storage) → has_journal storage ≡ true
        → (journal : List ℕ) → J.content log.old ≡ Some journal → Hosted
        (EndsOver
        (record {
          address = host_address words.now;
          budget = 2 ^ 60;
          seen = record {
            limits = usual;
            readings = C.readings clock.old;
            readings_left = C.readings clock.new;
            had = K.has out.old;
            has = K.has out.new;
          };
          coming = H.coming hub.old;
          coming_left = H.coming hub.new;
          out = H.out hub.old;
          out_left = H.out hub.new;
          same_hub = hub.new ≡ hub.old;
          same_output = out.new ≡ out.old;
          same_clock = clock.new ≡ clock.old;
        })
        journal (J.content log.new))
        (record { hub = H.last_cause hub.new; log = J.last_cause log.new })
        (E.has err.old) (E.has err.new) result }

    // host in memory alone: the same, on the empty database.
    ensures hosted_in_memory { asked words.now ≡ Some (Host Memory) → Hosted
        (EndsInMemory
        (record {
          address = host_address words.now;
          budget = 2 ^ 60;
          seen = record {
            limits = usual;
            readings = C.readings clock.old;
            readings_left = C.readings clock.new;
            had = K.has out.old;
            has = K.has out.new;
          };
          coming = H.coming hub.old;
          coming_left = H.coming hub.new;
          out = H.out hub.old;
          out_left = H.out hub.new;
          same_hub = hub.new ≡ hub.old;
          same_output = out.new ≡ out.old;
          same_clock = clock.new ≡ clock.old;
        }))
        (record { hub = H.last_cause hub.new; log = J.last_cause log.new })
        (E.has err.old) (E.has err.new) result }

    // fold: the journal is a checkpoint afterwards, which loads to a database that stores the same; or it is as it was.
    ensures folded { IsFold words.now → (journal : List ℕ) → J.content log.old ≡ Some journal
        → Folded usual (2 ^ 60) journal (J.content log.new)
        (record { hub = None; log = J.last_cause log.new }) (E.has err.old) (E.has err.new) result }

    // mux: the output has a frame with the reply to each request of the interleaved connections.
    ensures captured { IsMux words.now → (bytes : List ℕ) → S.left input.old ≡ Some bytes → Captured
        (record {
          limits = usual;
          readings = C.readings clock.old;
          readings_left = C.readings clock.new;
          had = K.has out.old;
          has = K.has out.new;
        })
        (2 ^ 60) bytes (S.left input.new) (E.has err.old) (E.has err.new) result }

    ensures usage { asked words.now ≡ None → Reports Status.Usage 0 result (E.has err.old) (E.has err.new) }
{
    top(
        alloc,
        words,
        input,
        out,
        err,
        clock,
        net,
        log,
        hub,
        Limits::usual(),
        usual_budget(),
    )
}

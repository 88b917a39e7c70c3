// Runs the program, or calls `pipe`, over devices in memory.
use crate::limits::usable;
use std::alloc::{AllocError, Global};
use std::io::Read;
use test_talks::{End, Exchange, Round, Setting, Stream, idle_connection};
use ts_engine::{Db, Outcome, pipe, top};
use ts_io::{Ends, MemClock, MemHub, MemListener, MemSink, MemSource, Source, StdSource};

// A stream, with what is sent and expected.
#[derive(Drop)]
pub(crate) struct Talking<'a> {
    pub(crate) stream: &'a Stream,
    pub(crate) exchange: Exchange,
}

impl<'a> Talking<'a> {
    // A stream, with what is sent and expected in this round.
    pub(crate) fn in_round(stream: &'a Stream, round: Round) -> Result<Talking<'a>, AllocError> {
        let exchange = stream.exchange(round)?;
        Ok(Talking { stream, exchange })
    }
}

// The devices of a run: its input and output, and the connections that come to its listener.
#[derive(Drop)]
struct Devices<S> {
    input: S,
    out: MemSink,
    connections: Vec<Ends<MemSource, MemSink>>,
}

// Whether a run with this read size writes exactly what is expected to the output and each connection, and ends as
// expected.
pub(crate) fn is_answered(
    alloc: Global,
    setting: &Setting,
    own: &Talking,
    links: &[Talking],
    end: &End,
    piece: usize,
) -> Result<bool, AllocError> {
    let takes = setting.takes();
    let ends = own.stream.ends(&own.exchange, piece, takes)?;
    let devices = Devices {
        input: ends.input,
        out: ends.out,
        connections: ends_of(alloc, links, piece, takes)?,
    };
    is_answered_over(alloc, setting, devices, own, links, end)
}

// The same, with the input in two pieces. The first has this many bytes.
pub(crate) fn is_answered_in_two(
    alloc: Global,
    setting: &Setting,
    own: &Talking,
    end: &End,
    first: usize,
) -> Result<bool, AllocError> {
    let takes = setting.takes();
    let (early, late) = own
        .exchange
        .input
        .split_at(first.min(own.exchange.input.len()));
    let devices = Devices {
        input: StdSource::new(early.chain(late)),
        out: own.stream.ends(&own.exchange, 1, takes)?.out,
        connections: Vec::new(alloc),
    };
    is_answered_over(alloc, setting, devices, own, &[], end)
}

// Whether a run over these devices writes exactly what is expected to the output and each connection, and ends as
// expected.
fn is_answered_over<S: Source + Drop>(
    alloc: Global,
    setting: &Setting,
    devices: Devices<S>,
    own: &Talking,
    links: &[Talking],
    end: &End,
) -> Result<bool, AllocError> {
    let Devices {
        mut input,
        mut out,
        mut connections,
    } = devices;
    let mut err = MemSink::new(alloc, setting.takes().max(1), Vec::new(alloc));
    let mut clock = MemClock::new(Vec::from_slice(alloc, &setting.readings)?);
    let failing = Vec::from_slice(alloc, &setting.failing_calls)?;
    if setting.next_call.is_made() {
        connections.push(idle_connection(alloc))?;
    }
    let mut net = MemListener::new(alloc, connections, failing)?;
    let mut log = setting.journal.log()?;
    let mut hub = MemHub::new(alloc, Vec::new(alloc), Vec::new(alloc));
    let status = top(
        alloc,
        &setting.words(alloc)?,
        &mut input,
        &mut out,
        &mut err,
        &mut clock,
        &mut net,
        &mut log,
        &mut hub,
        usable(setting.limits),
        setting.budget.max(1),
    );
    Ok(
        out.bytes() == own.exchange.out.as_slice()
            && are_answered(net.done(), links)
            && end.is(status.code(), err.bytes())
            && setting.journal.is(&log)
            && setting.next_call.is_next(&mut net),
    )
}

// Whether a call of `pipe` with this read size writes exactly what is expected, and has this outcome.
pub(crate) fn comes_to(
    alloc: Global,
    setting: &Setting,
    own: &Talking,
    outcome: &str,
    piece: usize,
) -> Result<bool, AllocError> {
    let limits = usable(setting.limits);
    let mut ends = own.stream.ends(&own.exchange, piece, setting.takes())?;
    let mut clock = MemClock::new(Vec::from_slice(alloc, &setting.readings)?);
    let mut db = Db::new(alloc, limits);
    let Outcome {
        executed,
        taken,
        end,
    } = pipe(
        alloc,
        &mut db,
        &mut ends.input,
        &mut ends.out,
        &mut clock,
        limits.wire,
        setting.budget.max(1),
    );
    let got = format!(in alloc; "executed {executed}, taken {taken}, {end:?}")?;
    Ok(ends.out.bytes() == own.exchange.out.as_slice() && got.as_str() == outcome)
}

// The two ends of each connection.
fn ends_of(
    alloc: Global,
    links: &[Talking],
    piece: usize,
    takes: usize,
) -> Result<Vec<Ends<MemSource, MemSink>>, AllocError> {
    let mut ends = Vec::new(alloc);
    for link in links {
        ends.push(link.stream.ends(&link.exchange, piece, takes)?)?;
    }
    Ok(ends)
}

// Whether each connection was closed and got exactly what is expected.
fn are_answered(done: &[Ends<MemSource, MemSink>], links: &[Talking]) -> bool {
    let mut all = done.len() == links.len();
    for (ends, link) in done.iter().zip(links) {
        all = all && ends.out.bytes() == link.exchange.out.as_slice();
    }
    all
}

// Answers a whole input.
ghost use Rattle.std.specs.Prelude.{◌≡◌, ◌+◌, ◌<◌, ◌≤◌, ◌^◌, length, None, Some};
ghost use Rattle.ts_resp.specs.Reading.{fed};
ghost use Rattle.ts_db.specs.DbState.{Simulates};
ghost use Rattle.ts_execution.specs.Limits.{CanRead};
ghost use Rattle.ts_engine.specs.SessionView.{progress_in, reader_of, ended_of, HasAnswered};
ghost use Rattle.ts_engine.specs.Piping.{Piped, PipedWith, Pumped, HasCauses, HasCausesWith, HasCausesWithOr};

use crate::ending::{end_of_input, end_of_piece};
use crate::session::Session;
use std::alloc::Global;
use ts_db::Db;
use ts_execution::{Handler, PIECE, Plain};
use ts_io::{Clock, Sink, Source};
use ts_resp::{Protocol, WireLimits};

/// How a stream ended.
#[derive(Clone, Copy, Debug, PartialEq, Eq)]
pub enum End {
    /// The input ended between requests, or QUIT was answered.
    Ended,
    /// The input ended inside the request that begins at this offset.
    Truncated(u64),
    /// The stream is broken. The error was written.
    Protocol(Protocol),
    /// A read failed.
    ReadFault,
    /// A write failed.
    WriteFault,
    /// Out of memory while reading a request.
    Memory,
    /// The budget was read.
    Budget,
}

/// The outcome of a stream.
#[derive(Clone, Copy, Debug, PartialEq, Eq)]
pub struct Outcome {
    /// How many requests were executed. One whose reply failed counts.
    pub executed: u64,
    /// How many bytes were read from the input.
    pub taken: u64,
    pub end: End,
}

/// What may be read of a stream.
#[derive(Clone, Copy)]
pub(crate) struct StreamLimits {
    pub(crate) wire: WireLimits,
    pub(crate) budget: u64,
}

// The result of one read and of the requests that it completes.
#[derive(Clone, Copy)]
struct Step {
    taken: usize,
    end: Option<End>,
}

/// Answers the requests of an input. Reads at most `budget` bytes. Writes each reply before it executes the next
/// request, and reads on only after every complete request was answered. So at most 4096 bytes are read past a protocol
/// error, past QUIT, or past a request whose reply could not be written.
pub fn pipe<S: Source, K: Sink, C: Clock>(
    alloc: Global,
    db: &mut Db,
    input: &mut S,
    out: &mut K,
    clock: &mut C,
    limits: WireLimits,
    budget: u64,
) -> Outcome
    requires limits { CanRead limits }
    requires budget { 1 ≤ budget }
    ensures piped { Simulates db.old db.new (λ from to. Piped limits budget result
        (record { held = from; readings = C.readings clock.old })
        (record { held = to; readings = C.readings clock.new })
        (S.left input.old) (S.left input.new) (K.has out.old) (K.has out.new)) }
    ensures within { result.taken ≤ budget }
    ensures causes { HasCauses result.end (S.faults input.old) (S.faults input.new) (K.faults out.old)
        (K.faults out.new) }
{
    let wire = limits;
    let limits = StreamLimits { wire, budget };
    pipe_with(alloc, &mut Plain, db, input, out, clock, limits)
}

/// The same with any request handler.
pub(crate) fn pipe_with<T: Handler, S: Source, K: Sink, C: Clock>(
    alloc: Global,
    handler: &mut T,
    db: &mut Db,
    input: &mut S,
    out: &mut K,
    clock: &mut C,
    limits: StreamLimits,
) -> Outcome
    requires limits { CanRead limits.wire }
    requires budget { 1 ≤ limits.budget }
    ensures piped { Simulates db.old db.new (λ from to. PipedWith T.kind limits.wire limits.budget result
        (T.world handler.old from (C.readings clock.old)) (T.world handler.new to (C.readings clock.new))
        (S.left input.old) (S.left input.new) (K.has out.old) (K.has out.new)) }
    ensures within { result.taken ≤ limits.budget }
    ensures causes { HasCausesWith T.kind result.end (S.faults input.old) (S.faults input.new) (K.faults out.old)
        (K.faults out.new)
        (T.own handler.old) (T.own handler.new) }
    ensures lent { T.lent handler.new ≡ T.lent handler.old }
{
    let Ok(mut session) = Session::new(alloc, limits.wire) else {
        return Outcome {
            executed: 0,
            taken: 0,
            end: End::Memory,
        };
    };
    let mut buffer = [0; PIECE];
    let mut taken = 0;
    while taken < limits.budget {
        let most = (limits.budget - taken).min(PIECE as u64) as usize;
        let piece = &mut buffer[..most];
        let step = pump(&mut session, handler, db, input, out, clock, piece);
        taken += step.taken as u64;
        if let Some(end) = step.end {
            return Outcome {
                executed: session.executed(),
                taken,
                end,
            };
        }
    }
    Outcome {
        executed: session.executed(),
        taken,
        end: End::Budget,
    }
}

// Reads one piece and answers the requests that it completes.
fn pump<T: Handler, S: Source, K: Sink, C: Clock>(
    session: &mut Session,
    handler: &mut T,
    db: &mut Db,
    input: &mut S,
    out: &mut K,
    clock: &mut C,
    buffer: &mut [u8],
) -> Step
    requires ended { ended_of session.old ≡ None }
    requires current { HasAnswered session.old }
    requires within { fed (reader_of session.old) + length buffer.old < 2 ^ 64 }
    requires room { 0 < length buffer.old }
    ensures pumped { Simulates db.old db.new (λ from to. Pumped result (S.left input.old) (S.left input.new)
        (progress_in T.kind session.old (T.world handler.old from (C.readings clock.old)))
        (progress_in T.kind session.new (T.world handler.new to (C.readings clock.new))) (K.has out.old)
        (K.has out.new)) }
    ensures current { result.end ≡ None → HasAnswered session.new }
    ensures causes { HasCausesWithOr T.kind result.end (S.faults input.old) (S.faults input.new) (K.faults out.old)
        (K.faults out.new)
        (T.own handler.old) (T.own handler.new) }
    ensures lent { T.lent handler.new ≡ T.lent handler.old }
    ensures ended { result.end ≡ None → ended_of session.new ≡ None }
    ensures fed { result.end ≡ None → fed (reader_of session.new) ≡ fed (reader_of session.old) + result.taken }
    ensures within { result.taken ≤ length buffer.old }
    ensures some { result.end ≡ None → 0 < result.taken }
    ensures unspent { result.end ≡ Some End.Budget → ⊥ }
{
    match input.read(buffer) {
        Ok(0) => Step {
            taken: 0,
            end: Some(end_of_input(session)),
        },
        Ok(count) => {
            let go = session.piece_with(handler, db, &buffer[..count], clock, out);
            Step {
                taken: count,
                end: end_of_piece(go),
            }
        }
        Err(_) => Step {
            taken: 0,
            end: Some(End::ReadFault),
        },
    }
}

// Answers a whole capture.
ghost use Rattle.std.specs.Prelude.{◌≡◌, ◌+◌, ◌<◌, ◌≤◌, ◌^◌, length, None, Some};
ghost use Rattle.ts_mux.specs.Framing.{fed, unfinished};
ghost use Rattle.ts_db.specs.DbState.{Simulates};
ghost use Rattle.ts_execution.specs.Limits.{CanRead};
ghost use Rattle.ts_engine.specs.Captured as captured;
ghost use Rattle.ts_engine.specs.CaptureSteps.{CaptureRun, Pumped, HasCauses, HasCausesOr, end_at, end_by};
ghost use Rattle.ts_engine.specs.CaptureView.{capture_progress, frames_in, HasAnswered};

use crate::capture_session::{CaptureGo, CaptureSession};
use std::alloc::Global;
use ts_db::Db;
use ts_execution::PIECE;
use ts_io::{Clock, Sink, Source};
use ts_resp::WireLimits;
use ts_words::Status;

/// How a capture ended.
#[derive(Clone, Copy, Debug, PartialEq, Eq)]
pub(crate) enum CaptureEnd {
    /// The capture ended between frames.
    Ended,
    /// The capture ended inside the frame that begins at this offset.
    Truncated(u64),
    /// The byte at this offset cannot continue the capture.
    Broken(u64),
    /// A read failed.
    ReadFault,
    /// A write failed.
    WriteFault,
    /// Out of memory while reading a frame or a request.
    Memory,
    /// The budget was read.
    Budget,
}

impl CaptureEnd {
    // The exit status for this end.
    pub(crate) fn status(self) -> Status
        ensures { result ≡ captured.status_of self }
    {
        match self {
            CaptureEnd::Ended => Status::Ended,
            CaptureEnd::Truncated(_) => Status::Truncated,
            CaptureEnd::Broken(_) => Status::CaptureBroken,
            CaptureEnd::ReadFault => Status::ReadFault,
            CaptureEnd::WriteFault => Status::WriteFault,
            CaptureEnd::Memory => Status::Memory,
            CaptureEnd::Budget => Status::Budget,
        }
    }

    // The offset in the status line; 0 if it has none.
    pub(crate) fn place(self) -> u64
        ensures { result ≡ captured.place_of self }
    {
        match self {
            CaptureEnd::Truncated(place) | CaptureEnd::Broken(place) => place,
            CaptureEnd::Ended
            | CaptureEnd::ReadFault
            | CaptureEnd::WriteFault
            | CaptureEnd::Memory
            | CaptureEnd::Budget => 0,
        }
    }
}

// The result of one read and of the frames that it completes.
#[derive(Clone, Copy)]
struct CaptureRead {
    taken: usize,
    end: Option<CaptureEnd>,
}

/// Answers the interleaved connections of a capture. Reads at most `budget` bytes. Writes each reply, as a frame of its
/// connection, before it executes the next request, and reads on only after every complete frame was answered.
pub(crate) fn capture_session<S: Source, K: Sink, C: Clock>(
    alloc: Global,
    db: &mut Db,
    input: &mut S,
    out: &mut K,
    clock: &mut C,
    limits: WireLimits,
    budget: u64,
) -> CaptureEnd
    requires limits { CanRead limits }
    requires budget { 1 ≤ budget }
    ensures capture_ran { Simulates db.old db.new (λ from to. CaptureRun limits budget result
        (record { held = from; readings = C.readings clock.old })
        (record { held = to; readings = C.readings clock.new })
        (S.left input.old) (S.left input.new) (K.has out.old) (K.has out.new)) }
    ensures causes { HasCauses result (S.faults input.old) (S.faults input.new) (K.faults out.old) (K.faults out.new) }
{
    let Ok(mut capture_session) = CaptureSession::new(alloc, limits) else {
        return CaptureEnd::Memory;
    };
    let mut buffer = [0; PIECE];
    let mut taken = 0;
    while taken < budget {
        let most = (budget - taken).min(PIECE as u64) as usize;
        let read = pump(
            &mut capture_session,
            db,
            input,
            out,
            clock,
            &mut buffer[..most],
        );
        taken += read.taken as u64;
        if let Some(end) = read.end {
            return end;
        }
    }
    CaptureEnd::Budget
}

// Reads one piece and answers the frames that it completes.
fn pump<S: Source, K: Sink, C: Clock>(
    capture_session: &mut CaptureSession,
    db: &mut Db,
    input: &mut S,
    out: &mut K,
    clock: &mut C,
    buffer: &mut [u8],
) -> CaptureRead
    requires answered { HasAnswered capture_session.old }
    requires within { fed (frames_in capture_session.old) + length buffer.old < 2 ^ 64 }
    requires room { 0 < length buffer.old }
    ensures pumped { Simulates db.old db.new (λ from to. Pumped result (S.left input.old) (S.left input.new)
        (capture_progress capture_session.old from (C.readings clock.old))
        (capture_progress capture_session.new to (C.readings clock.new))
        (K.has out.old) (K.has out.new)) }
    ensures answered { result.end ≡ None → HasAnswered capture_session.new }
    ensures causes { HasCausesOr result.end (S.faults input.old) (S.faults input.new) (K.faults out.old)
        (K.faults out.new) }
    ensures fed { result.end ≡ None
        → fed (frames_in capture_session.new) ≡ fed (frames_in capture_session.old) + result.taken }
    ensures within { result.taken ≤ length buffer.old }
    ensures some { result.end ≡ None → 0 < result.taken }
    ensures unspent { result.end ≡ Some CaptureEnd.Budget → ⊥ }
{
    match input.read(buffer) {
        Ok(0) => CaptureRead {
            taken: 0,
            end: Some(end_of_input(capture_session)),
        },
        Ok(count) => {
            let capture_go = capture_session.piece(db, &buffer[..count], clock, out);
            CaptureRead {
                taken: count,
                end: end_of_piece(capture_go),
            }
        }
        Err(_) => CaptureRead {
            taken: 0,
            end: Some(CaptureEnd::ReadFault),
        },
    }
}

// The end of the capture, if the input has ended.
fn end_of_input(capture_session: &CaptureSession) -> CaptureEnd
    ensures { result ≡ end_at (unfinished (frames_in capture_session.now)) }
{
    match capture_session.place() {
        None => CaptureEnd::Ended,
        Some(place) => CaptureEnd::Truncated(place),
    }
}

// The end that a session's result means, if it is one.
fn end_of_piece(capture_go: CaptureGo) -> Option<CaptureEnd>
    ensures { result ≡ end_by capture_go }
{
    match capture_go {
        CaptureGo::More => None,
        CaptureGo::Broken(place) => Some(CaptureEnd::Broken(place)),
        CaptureGo::WriteFault => Some(CaptureEnd::WriteFault),
        CaptureGo::Memory => Some(CaptureEnd::Memory),
    }
}

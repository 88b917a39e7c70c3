// A capture session: answers the interleaved connections of one capture.
ghost use Rattle.std.specs.Prelude.{◌≡◌, ◌+◌, ◌<◌, ◌≤◌, ◌^◌, ℕ, List, [], length, None, Some, IfOk, OnOk};
ghost use Rattle.ts_mux.specs.Muxing.{pending_items, delivered_to};
ghost use Rattle.ts_execution.specs.Limits.{CanRead};

use crate::framing::FrameWriter;
use std::alloc::{AllocError, Global};
use std::marker::Brand;
use std::sync::ledger::{Blank, Ledger};
use ts_db::{Db, Hints};
use ts_io::{Clock, Sink};
use ts_mux::{FoundFrame, FrameSpan, Frames, Mux};
use ts_resp::{Out, WireLimits};
use ts_sample::Steps;

mod items;

/// The result of a capture session after a piece.
#[derive(Clone, Copy, Debug, PartialEq, Eq)]
pub(crate) enum CaptureGo {
    /// Every complete frame was answered. More bytes may follow.
    More,
    /// The byte at this offset cannot continue the capture.
    Broken(u64),
    /// A write failed.
    WriteFault,
    /// Out of memory while reading a frame or a request.
    Memory,
}

impl CaptureGo {
    ghost use Rattle.ts_engine.specs.CaptureSteps.{end_of};

    // This result, unless it is `More`.
    pub(crate) fn end(self) -> Option<CaptureGo>
        ensures { result ≡ end_of self }
    {
        match self {
            CaptureGo::More => None,
            end => Some(end),
        }
    }
}

/// Answers the interleaved connections of a capture that arrives in pieces.
#[derive(Drop)]
pub(crate) struct CaptureSession {
    frames: Frames,
    mux: Mux,
    room: Out,
    frame_writer: FrameWriter,
    hints: Hints,
    ghost fits: { 128 ≤ length room.bytes + room.spare },
    ghost counted: { delivered_to mux ≤ frames.begin },
}

impl CaptureSession {
    ghost use Rattle.ts_mux.specs.Capture.{frames_of, ending_of};
    ghost use Rattle.ts_mux.specs.Framing.{capture_of, fed, unfinished};
    ghost use Rattle.ts_mux.specs.NextFrames.{StandsAt};
    ghost use Rattle.ts_db.specs.DbState.{Simulates};
    ghost use Rattle.ts_engine.specs.CaptureSteps.{HandledAs, GoesOn, WroteOrFault};
    ghost use Rattle.ts_engine.specs.CaptureView.{frames_in, coming, capture_progress, HasAnswered, Begins};

    // A new capture session.
    pub(crate) fn new(alloc: Global, limits: WireLimits) -> Result<CaptureSession, AllocError>
        requires limits { CanRead limits }
        ensures { IfOk result (Begins limits) }
    {
        let room = Out::new(alloc)?;
        Ok(CaptureSession {
            frames: Frames::new(alloc),
            mux: Mux::new(alloc, limits),
            room,
            frame_writer: FrameWriter::new(),
            hints: Hints::new(alloc),
        })
    }

    // Answers the frames that these bytes complete. Writes each reply before it executes the next request.
    pub(crate) fn piece<C: Clock, K: Sink>(
        &mut self,
        db: &mut Db,
        bytes: &[u8],
        clock: &mut C,
        out: &mut K,
    ) -> CaptureGo
        requires answered { HasAnswered self.old }
        requires within { fed (frames_in self.old) + length bytes.now < 2 ^ 64 }
        ensures goes { Simulates db.old db.new (λ from to. HandledAs result
            (capture_progress self.old from (C.readings clock.old))
            (capture_progress self.new to (C.readings clock.new))
            (K.has out.old) (K.has out.new) bytes.now) }
        ensures answered { result ≡ CaptureGo.More → HasAnswered self.new }
        ensures fed { result ≡ CaptureGo.More → fed (frames_in self.new) ≡ fed (frames_in self.old) + length bytes.now }
        ensures cause { WroteOrFault (K.faults out.old) (K.faults out.new) (Some result) }
    {
        match self.frames.feed(bytes) {
            Ok(()) => self.answer_all::<C, K, Brand>(db, clock, out, Blank::new(1)),
            Err(_) => CaptureGo::Memory,
        }
    }

    // The offset of the incomplete frame, or `None` between frames.
    pub(crate) fn place(&self) -> Option<u64>
        ensures { result ≡ unfinished (frames_in self.now) }
    {
        self.frames.place()
    }

    // Answers every complete frame.
    fn answer_all<C: Clock, K: Sink, L: Ledger>(
        &mut self,
        db: &mut Db,
        clock: &mut C,
        out: &mut K,
        blank: Blank,
    ) -> CaptureGo
        requires asked { pending_items self.old.mux [] ≡ [] }
        requires name { blank.name ≡ L.name }
        requires parts { blank.parts ≡ L.parts }
        requires some { 0 < blank.parts }
        ensures goes { Simulates db.old db.new (λ from to. HandledAs result
            (capture_progress self.old from (C.readings clock.old))
            (capture_progress self.new to (C.readings clock.new))
            (K.has out.old) (K.has out.new) []) }
        ensures answered { result ≡ CaptureGo.More → HasAnswered self.new }
        ensures fed { fed (frames_in self.new) ≡ fed (frames_in self.old) }
        ensures cause { WroteOrFault (K.faults out.old) (K.faults out.new) (Some result) }
    {
        let mut steps = Steps::<L>::new(blank);
        loop {
            if let Some(capture_go) = self.answer_next(db, clock, out, &mut steps) {
                return capture_go;
            }
        }
    }

    // Answers the next frame. Returns `None` if more may follow.
    fn answer_next<C: Clock, K: Sink, L: Ledger>(
        &mut self,
        db: &mut Db,
        clock: &mut C,
        out: &mut K,
        steps: &mut Steps<L>,
    ) -> Option<CaptureGo>
        requires asked { pending_items self.old.mux [] ≡ [] }
        ensures goes { Simulates db.old db.new (λ from to. GoesOn result
            (capture_progress self.old from (C.readings clock.old))
            (capture_progress self.new to (C.readings clock.new))
            (K.has out.old) (K.has out.new)) }
        ensures asked { result ≡ None → pending_items self.new.mux [] ≡ [] }
        ensures onward { result ≡ None → (frames_in self.old).begin < (frames_in self.new).begin }
        ensures answered { result ≡ Some CaptureGo.More → HasAnswered self.new }
        ensures fed { fed (frames_in self.new) ≡ fed (frames_in self.old) }
        ensures within { (frames_in self.new).begin ≤ fed (frames_in self.new) }
        ensures cause { WroteOrFault (K.faults out.old) (K.faults out.new) result }
    {
        match self.frames.find() {
            FoundFrame::Whole(span) => match self.deliver(span) {
                Ok(()) => self.answer_items(db, clock, out, steps).end(),
                Err(_) => Some(CaptureGo::Memory),
            },
            FoundFrame::NotYet => Some(CaptureGo::More),
            FoundFrame::Broken(place) => Some(CaptureGo::Broken(place)),
        }
    }

    // Delivers a frame that was found, and passes over it.
    fn deliver(&mut self, span: FrameSpan) -> Result<(), AllocError>
        requires asked { pending_items self.old.mux [] ≡ [] }
        requires stands { StandsAt (frames_in self.old) span }
        requires bound { fed (frames_in self.old) < 2 ^ 64 }
        ensures items { OnOk result ((more : List ℕ)
            → coming self.old (frames_of (capture_of (frames_in self.old) more))
            ≡ coming self.new (frames_of (capture_of (frames_in self.new) more))) }
        ensures ending { OnOk result ((more : List ℕ) → ending_of (capture_of (frames_in self.old) more)
            ≡ ending_of (capture_of (frames_in self.new) more)) }
        ensures onward { OnOk result ((frames_in self.old).begin < (frames_in self.new).begin) }
        ensures fed { fed (frames_in self.new) ≡ fed (frames_in self.old) }
    {
        self.mux
            .deliver_bytes(span.link as u64, self.frames.bytes(span))?;
        self.frames.pass(span.end);
        Ok(())
    }
}

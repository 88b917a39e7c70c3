// Answers the requests and errors that a frame completes.
ghost use Rattle.std.specs.Prelude.{◌≡◌, ◌<◌, ◌≤◌, if◌then◌else◌, List, [], None, Some};
ghost use Rattle.ts_spec.specs.Run.{is_quit};
ghost use Rattle.ts_db.specs.DbState.{Simulates};
ghost use Rattle.ts_mux.specs.declared.frame.Frame.{Frame};
ghost use Rattle.ts_mux.specs.Capture.{framed};
ghost use Rattle.ts_mux.specs.Order.{Asked, without};
ghost use Rattle.ts_engine.specs.CaptureSteps.{HandledAs, GoesOn, Wrote, Replied, WroteOrFault};
ghost use Rattle.ts_engine.specs.CaptureView.{frames_in, coming, waiting, capture_progress};
ghost use Rattle.ts_mux.specs.Muxing.{pending_items, reach_of};
ghost use Rattle.ts_spec.specs.Text.{protocol_error_text};

use super::CaptureSession;
use crate::capture_session::CaptureGo;
use std::sync::ledger::Ledger;
use ts_db::Db;
use ts_execution::handle_request;
use ts_io::{Clock, Sink};
use ts_mux::Turn;
use ts_resp::{Protocol, Reply, Word, put};
use ts_sample::Steps;

impl CaptureSession {
    // Answers every complete request and protocol error.
    pub(super) fn answer_items<C: Clock, K: Sink, L: Ledger>(
        &mut self,
        db: &mut Db,
        clock: &mut C,
        out: &mut K,
        steps: &mut Steps<L>,
    ) -> CaptureGo
        ensures goes { Simulates db.old db.new (λ from to. HandledAs result
            (capture_progress self.old from (C.readings clock.old))
            (capture_progress self.new to (C.readings clock.new))
            (K.has out.old) (K.has out.new) []) }
        ensures asked { result ≡ CaptureGo.More → pending_items self.new.mux [] ≡ [] }
        ensures frames { frames_in self.new ≡ frames_in self.old }
        ensures cause { WroteOrFault (K.faults out.old) (K.faults out.new) (Some result) }
    {
        loop {
            if let Some(capture_go) = self.answer_item(db, clock, out, steps) {
                return capture_go;
            }
        }
    }

    // Frees the memory of a huge reply, and answers the next request or protocol error. Returns `None` if more may
    // follow.
    fn answer_item<C: Clock, K: Sink, L: Ledger>(
        &mut self,
        db: &mut Db,
        clock: &mut C,
        out: &mut K,
        steps: &mut Steps<L>,
    ) -> Option<CaptureGo>
        ensures goes { Simulates db.old db.new (λ from to. GoesOn result
            (capture_progress self.old from (C.readings clock.old))
            (capture_progress self.new to (C.readings clock.new))
            (K.has out.old) (K.has out.new)) }
        ensures asked { result ≡ Some CaptureGo.More → pending_items self.new.mux [] ≡ [] }
        ensures fewer { result ≡ None → waiting self.new < waiting self.old }
        ensures frames { frames_in self.new ≡ frames_in self.old }
        ensures cause { WroteOrFault (K.faults out.old) (K.faults out.new) result }
    {
        self.room.give_back();
        match self.mux.next() {
            Turn::Request(link, words) => self.answer(link, words, db, clock, out, steps),
            Turn::Fault(link, fault) => self.reply_fault(link, fault, out),
            Turn::NotYet => Some(CaptureGo::More),
            Turn::Memory => Some(CaptureGo::Memory),
        }
    }

    // Handles a request and writes its reply. A QUIT closes its connection.
    fn answer<C: Clock, K: Sink, L: Ledger>(
        &mut self,
        link: u64,
        words: Vec<Word>,
        db: &mut Db,
        clock: &mut C,
        out: &mut K,
        steps: &mut Steps<L>,
    ) -> Option<CaptureGo>
        requires reached { link < reach_of self.old.mux }
        ensures replied { Simulates db.old db.new (λ from to. Replied result
            (record { link = link; event = Asked words.items })
            (record { held = from; readings = C.readings clock.old })
            (record { held = to; readings = C.readings clock.new })
            (K.has out.old) (K.has out.new)) }
        ensures coming { (frames : List Frame) → coming self.new frames
            ≡ (if is_quit words.items then without link (coming self.old frames) else coming self.old frames) }
        ensures ends { result ≡ Some CaptureGo.More → ⊥ }
        ensures waiting { waiting self.new ≤ waiting self.old }
        ensures frames { frames_in self.new ≡ frames_in self.old }
        ensures cause { WroteOrFault (K.faults out.old) (K.faults out.new) result }
    {
        let mut words = words;
        let quits = handle_request(
            db,
            &mut self.hints,
            &mut words,
            clock,
            &mut self.room,
            steps,
        );
        self.recycle(quits, link, words);
        self.write(link, out)
    }

    // Takes back the vector of a handled request, to use its capacity again, and closes the connection after a QUIT.
    fn recycle(&mut self, quits: bool, link: u64, words: Vec<Word>)
        requires reached { link < reach_of self.old.mux }
        ensures coming { (frames : List Frame) → coming self.new frames
            ≡ (if quits then without link (coming self.old frames) else coming self.old frames) }
        ensures waiting { waiting self.new ≤ waiting self.old }
        ensures frames { frames_in self.new ≡ frames_in self.old }
        ensures room { self.new.room ≡ self.old.room }
    {
        self.mux.give_back(words);
        if quits {
            self.mux.close(link);
        }
    }

    // Writes a protocol error.
    fn reply_fault<K: Sink>(&mut self, link: u64, fault: Protocol, out: &mut K) -> Option<CaptureGo>
        ensures wrote { Wrote result (K.has out.old) (K.has out.new)
            (framed (record { link = link; bytes = protocol_error_text fault.kind })) }
        ensures ends { result ≡ Some CaptureGo.More → ⊥ }
        ensures mux { self.new.mux ≡ self.old.mux }
        ensures frames { frames_in self.new ≡ frames_in self.old }
        ensures cause { WroteOrFault (K.faults out.old) (K.faults out.new) result }
    {
        self.room.clear();
        put(&Reply::Error(fault.message()), &mut self.room);
        self.write(link, out)
    }

    // Writes the reply as a frame of the connection.
    fn write<K: Sink>(&mut self, link: u64, out: &mut K) -> Option<CaptureGo>
        ensures wrote { Wrote result (K.has out.old) (K.has out.new)
            (framed (record { link = link; bytes = self.old.room.bytes })) }
        ensures ends { result ≡ Some CaptureGo.More → ⊥ }
        ensures mux { self.new.mux ≡ self.old.mux }
        ensures frames { frames_in self.new ≡ frames_in self.old }
        ensures cause { WroteOrFault (K.faults out.old) (K.faults out.new) result }
    {
        match self.frame_writer.write(link, self.room.bytes(), out) {
            Ok(()) => None,
            Err(_) => Some(CaptureGo::WriteFault),
        }
    }
}

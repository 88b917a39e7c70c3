// A session: answers the requests of one stream.
ghost use Rattle.std.specs.Prelude.{◌≡◌, ◌+◌, ◌<◌, ◌≤◌, ◌^◌, [], length, None, Some, IfOk, IfNone, IfSome};
ghost use Rattle.ts_execution.specs.Limits.{CanRead};
ghost use Rattle.ts_engine.specs.SessionEnd.{end_of};

use crate::replying::Go;
use std::alloc::{AllocError, Global};
use std::marker::Brand;
use std::sync::ledger::{Blank, Ledger};
use ts_db::{Db, Hints};
use ts_execution::{Handler, Plain};
use ts_io::{Clock, Sink};
use ts_resp::{Out, Reader, WireLimits};
use ts_sample::Steps;

/// Answers the requests of one stream, which arrives in pieces.
#[derive(Drop)]
pub struct Session {
    pub(crate) reader: Reader,
    pub(crate) room: Out,
    pub(crate) hints: Hints,
    pub(crate) executed: u64,
    ended: Option<Go>,
    ghost fits: { 128 ≤ length room.bytes + room.spare },
    ghost counted: { executed ≤ reader.begin },
}

impl Session {
    ghost use Rattle.ts_resp.specs.Reading.{fed, unfinished};
    ghost use Rattle.ts_db.specs.DbState.{Simulates};
    ghost use Rattle.ts_engine.specs.Session.{HandledAs, HasCauseWith, WroteOrFault};
    ghost use Rattle.ts_engine.specs.SessionView.{progress_over, progress_in, reader_of, executed_by, ended_of, Begins};
    ghost use Rattle.ts_engine.specs.SessionView.{HasAnswered};

    /// A new session.
    pub fn new(alloc: Global, limits: WireLimits) -> Result<Session, AllocError>
        requires limits { CanRead limits }
        ensures { IfOk result (Begins limits) }
    {
        let room = Out::new(alloc)?;
        Ok(Session {
            reader: Reader::new(alloc, limits),
            room,
            hints: Hints::new(alloc),
            executed: 0,
            ended: None,
        })
    }

    /// Answers the requests that these bytes complete. Writes each reply before it executes the next request. Any
    /// result but `More` ends the session: later calls return the same and do nothing.
    pub fn piece<C: Clock, K: Sink>(
        &mut self,
        db: &mut Db,
        bytes: &[u8],
        clock: &mut C,
        out: &mut K,
    ) -> Go
        requires { fed (reader_of self.old) + length bytes.now < 2 ^ 64 }
        ensures goes { IfNone (ended_of self.old) (Simulates db.old db.new (λ from to. HandledAs result
            (progress_over self.old from (C.readings clock.old)) (progress_over self.new to (C.readings clock.new))
            (K.has out.old) (K.has out.new) bytes.now)) }
        ensures current { IfNone (ended_of self.old) (result ≡ Go.More → HasAnswered self.new) }
        ensures again { IfSome (ended_of self.old) (λ go. (result ≡ go)
            × (self.new ≡ self.old) × (db.new ≡ db.old) × (clock.new ≡ clock.old) × (out.new ≡ out.old)) }
        ensures ended { IfNone (ended_of self.old) (ended_of self.new ≡ end_of result) }
        ensures fed { ended_of self.new ≡ None
            → fed (reader_of self.new) ≡ fed (reader_of self.old) + length bytes.now }
        ensures cause { IfNone (ended_of self.old) (WroteOrFault (K.faults out.old) (K.faults out.new) (Some result)) }
    {
        self.piece_with(&mut Plain, db, bytes, clock, out)
    }

    /// The same with any request handler.
    pub(crate) fn piece_with<T: Handler, C: Clock, K: Sink>(
        &mut self,
        handler: &mut T,
        db: &mut Db,
        bytes: &[u8],
        clock: &mut C,
        out: &mut K,
    ) -> Go
        requires { fed (reader_of self.old) + length bytes.now < 2 ^ 64 }
        ensures goes { IfNone (ended_of self.old) (Simulates db.old db.new (λ from to. HandledAs result
            (progress_in T.kind self.old (T.world handler.old from (C.readings clock.old)))
            (progress_in T.kind self.new (T.world handler.new to (C.readings clock.new))) (K.has out.old)
            (K.has out.new) bytes.now)) }
        ensures current { IfNone (ended_of self.old) (result ≡ Go.More → HasAnswered self.new) }
        ensures again { IfSome (ended_of self.old) (λ go. (result ≡ go) × (self.new ≡ self.old)
            × (handler.new ≡ handler.old)
            × (db.new ≡ db.old) × (clock.new ≡ clock.old) × (out.new ≡ out.old)) }
        ensures ended { IfNone (ended_of self.old) (ended_of self.new ≡ end_of result) }
        ensures fed { ended_of self.new ≡ None
            → fed (reader_of self.new) ≡ fed (reader_of self.old) + length bytes.now }
        ensures cause { IfNone (ended_of self.old)
            (HasCauseWith T.kind (Some result) (K.faults out.old) (K.faults out.new) (T.own handler.old)
            (T.own handler.new)) }
        ensures lent { T.lent handler.new ≡ T.lent handler.old }
    {
        if let Some(go) = self.ended {
            return go;
        }
        let go = self.answer_piece::<T, C, K, Brand>(handler, db, bytes, clock, out, Blank::new(1));
        self.ended = go.end();
        go
    }

    pub fn executed(&self) -> u64
        ensures { result ≡ executed_by self.now }
    {
        self.executed
    }

    /// The offset in the stream of the incomplete request, or `None` between requests.
    pub fn place(&self) -> Option<u64>
        ensures { result ≡ unfinished (reader_of self.now) }
    {
        self.reader.place()
    }

    // Feeds the piece to the reader, and answers the requests that it completes.
    fn answer_piece<T: Handler, C: Clock, K: Sink, L: Ledger>(
        &mut self,
        handler: &mut T,
        db: &mut Db,
        bytes: &[u8],
        clock: &mut C,
        out: &mut K,
        blank: Blank,
    ) -> Go
        requires within { fed (reader_of self.old) + length bytes.now < 2 ^ 64 }
        requires name { blank.name ≡ L.name }
        requires parts { blank.parts ≡ L.parts }
        requires some { 0 < blank.parts }
        ensures goes { Simulates db.old db.new (λ from to. HandledAs result
            (progress_in T.kind self.old (T.world handler.old from (C.readings clock.old)))
            (progress_in T.kind self.new (T.world handler.new to (C.readings clock.new)))
            (K.has out.old) (K.has out.new) bytes.now) }
        ensures current { result ≡ Go.More → HasAnswered self.new }
        ensures fed { result ≡ Go.More → fed (reader_of self.new) ≡ fed (reader_of self.old) + length bytes.now }
        ensures cause { HasCauseWith T.kind (Some result) (K.faults out.old) (K.faults out.new) (T.own handler.old)
            (T.own handler.new) }
        ensures lent { T.lent handler.new ≡ T.lent handler.old }
    {
        let mut steps = Steps::<L>::new(blank);
        match self.reader.feed(bytes) {
            Ok(()) => self.answer_all(handler, db, clock, out, &mut steps),
            Err(_) => Go::Memory,
        }
    }

    // Answers every complete request.
    fn answer_all<T: Handler, C: Clock, K: Sink, L: Ledger>(
        &mut self,
        handler: &mut T,
        db: &mut Db,
        clock: &mut C,
        out: &mut K,
        steps: &mut Steps<L>,
    ) -> Go
        ensures goes { Simulates db.old db.new (λ from to. HandledAs result
            (progress_in T.kind self.old (T.world handler.old from (C.readings clock.old)))
            (progress_in T.kind self.new (T.world handler.new to (C.readings clock.new)))
            (K.has out.old) (K.has out.new) []) }
        ensures current { result ≡ Go.More → HasAnswered self.new }
        ensures fed { fed (reader_of self.new) ≡ fed (reader_of self.old) }
        ensures cause { HasCauseWith T.kind (Some result) (K.faults out.old) (K.faults out.new) (T.own handler.old)
            (T.own handler.new) }
        ensures lent { T.lent handler.new ≡ T.lent handler.old }
    {
        loop {
            if let Some(go) = self.answer_next(handler, db, clock, out, steps) {
                return go;
            }
        }
    }
}

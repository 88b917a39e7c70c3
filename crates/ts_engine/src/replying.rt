// The result of a session, and how it answers the next request.
ghost use Rattle.std.specs.Prelude.{◌≡◌, ◌<◌, ◌≤◌, ◌^◌, None, Some};
ghost use Rattle.ts_engine.specs.SessionEnd.{end_of};

use crate::session::Session;
use std::sync::ledger::Ledger;
use ts_db::Db;
use ts_execution::Handler;
use ts_io::{Clock, Sink, write_all_counted};
use ts_resp::{Next, Protocol, Reply, Word, put};
use ts_sample::Steps;

/// The result of a session after a piece of its stream.
#[derive(Clone, Copy, Debug, PartialEq, Eq)]
pub enum Go {
    /// Every complete request was answered. More bytes may follow.
    More,
    /// QUIT was answered.
    Quit,
    /// The stream is broken. The error was written.
    Broken(Protocol),
    /// A write failed.
    WriteFault,
    /// Out of memory while reading a request.
    Memory,
}

impl Go {
    // This result, unless it is `More`.
    pub(crate) fn end(self) -> Option<Go>
        ensures { result ≡ end_of self }
    {
        match self {
            Go::More => None,
            end => Some(end),
        }
    }
}

impl Session {
    ghost use Rattle.ts_resp.specs.Reading.{fed};
    ghost use Rattle.ts_db.specs.DbState.{Simulates};
    ghost use Rattle.ts_engine.specs.Session.{GoesOn, Replied, Refused, HasCauseWith, WroteOrFault};
    ghost use Rattle.ts_engine.specs.SessionView.{progress_in, reader_of, executed_by, HasAnswered};

    // Frees the memory of a huge reply, and answers the next request. Returns `None` if more may follow.
    pub(crate) fn answer_next<T: Handler, C: Clock, K: Sink, L: Ledger>(
        &mut self,
        handler: &mut T,
        db: &mut Db,
        clock: &mut C,
        out: &mut K,
        steps: &mut Steps<L>,
    ) -> Option<Go>
        ensures goes { Simulates db.old db.new (λ from to. GoesOn result
            (progress_in T.kind self.old (T.world handler.old from (C.readings clock.old)))
            (progress_in T.kind self.new (T.world handler.new to (C.readings clock.new))) (K.has out.old)
            (K.has out.new)) }
        ensures onward { result ≡ None → (reader_of self.old).begin < (reader_of self.new).begin }
        ensures current { result ≡ Some Go.More → HasAnswered self.new }
        ensures fed { fed (reader_of self.new) ≡ fed (reader_of self.old) }
        ensures within { (reader_of self.new).begin ≤ fed (reader_of self.new) }
        ensures cause { HasCauseWith T.kind result (K.faults out.old) (K.faults out.new) (T.own handler.old)
            (T.own handler.new) }
        ensures lent { T.lent handler.new ≡ T.lent handler.old }
    {
        self.room.give_back();
        match self.reader.next() {
            Next::Request(words) => self.answer(words, handler, db, clock, out, steps),
            Next::NotYet => Some(Go::More),
            Next::Memory => Some(Go::Memory),
            Next::Broken(fault) => Some(self.reply_fault(fault, out)),
        }
    }

    // Handles a request and writes its reply.
    fn answer<T: Handler, C: Clock, K: Sink, L: Ledger>(
        &mut self,
        words: Vec<Word>,
        handler: &mut T,
        db: &mut Db,
        clock: &mut C,
        out: &mut K,
        steps: &mut Steps<L>,
    ) -> Option<Go>
        requires counted { executed_by self.old < (reader_of self.old).begin }
        requires bounded { (reader_of self.old).begin < 2 ^ 64 }
        ensures replied { Simulates db.old db.new (λ from to. Replied result words.items
            (progress_in T.kind self.old (T.world handler.old from (C.readings clock.old)))
            (progress_in T.kind self.new (T.world handler.new to (C.readings clock.new))) (K.has out.old)
            (K.has out.new)) }
        ensures reader { reader_of self.new ≡ reader_of self.old }
        ensures ends { result ≡ Some Go.More → ⊥ }
        ensures cause { HasCauseWith T.kind result (K.faults out.old) (K.faults out.new) (T.own handler.old)
            (T.own handler.new) }
        ensures lent { T.lent handler.new ≡ T.lent handler.old }
    {
        let mut words = words;
        let answered = handler.answer(
            db,
            &mut self.hints,
            &mut words,
            clock,
            &mut self.room,
            out,
            steps,
        );
        self.reader.give_back(words);
        self.executed += 1;
        match answered {
            Ok(quits) if quits => Some(Go::Quit),
            Ok(_) => None,
            Err(_) => Some(Go::WriteFault),
        }
    }

    // Writes the protocol error that ends a broken stream.
    fn reply_fault<K: Sink>(&mut self, fault: Protocol, out: &mut K) -> Go
        ensures refused { Refused result fault (K.has out.old) (K.has out.new) }
        ensures ends { result ≡ Go.More → ⊥ }
        ensures reader { reader_of self.new ≡ reader_of self.old }
        ensures executed { executed_by self.new ≡ executed_by self.old }
        ensures cause { WroteOrFault (K.faults out.old) (K.faults out.new) (Some result) }
    {
        self.room.clear();
        put(&Reply::Error(fault.message()), &mut self.room);
        match write_all_counted(out, self.room.bytes()) {
            Ok(()) => Go::Broken(fault),
            Err(_) => Go::WriteFault,
        }
    }
}

// Answers the requests and protocol errors of a link.
ghost use Rattle.std.specs.Prelude.{◌≡◌, ◌<◌, ◌||◌, ℕ, List, [], None, OnOk, IfOk};
ghost use Rattle.ts_db.specs.DbState.{Simulates};
ghost use Rattle.ts_mux.specs.declared.frame.Frame.{Frame};
ghost use Rattle.ts_mux.specs.Muxing.{pending_items};
ghost use Rattle.ts_mux.specs.Order.{without};
ghost use Rattle.ts_host.specs.Causes.{ExecutionCause, HasCause, HasNextCause, ReplyCause};
ghost use Rattle.ts_host.specs.Executing.{GivesReply, IsExecuted, end_if, next_after};
ghost use Rattle.ts_host.specs.Http.{closes};
ghost use Rattle.ts_host.specs.RequestCounts.{counted_at, executed_by};
ghost use Rattle.ts_host.specs.Serving.{Handled, HandledNext};
ghost use Rattle.ts_host.specs.Shown.{connections_of, host_log, lent_by, reached, recorder_of, reply_of, shown};
ghost use Rattle.ts_host.specs.Shown.{taken_by, waiting, world_of};

use super::{Host, HostFault, NextItem};
use crate::handling::{Recording, is_http};
use std::sync::ledger::{Blank, Ledger};
use ts_db::Db;
use ts_io::{Clock, Hub, Log, Sink};
use ts_mux::Turn;
use ts_resp::Word;
use ts_sample::Steps;
use ts_words::LinkEnd;

impl<J: Log> Host<'_, J> {
    /// Answers each request and protocol error that the bytes of this link made whole.
    pub(super) fn answer_all<R: Recording<J>, H: Hub, K: Sink, C: Clock, L: Ledger>(
        &mut self,
        link: u64,
        db: &mut Db,
        hub: &mut H,
        out: &mut K,
        clock: &mut C,
        blank: Blank,
    ) -> Option<HostFault>
        requires own { without link (pending_items (connections_of self.old).mux []) ≡ [] }
        requires reached { link < reached (connections_of self.old) }
        requires name { blank.name ≡ L.name }
        requires parts { blank.parts ≡ L.parts }
        requires some { 0 < blank.parts }
        ensures handled { Simulates db.old db.new (λ from to. Handled result
            (shown J.content self.old from (C.readings clock.old) (H.out hub.old) (K.has out.old))
            (shown J.content self.new to (C.readings clock.new) (H.out hub.new) (K.has out.new)) []) }
        ensures asked { result ≡ None → pending_items (connections_of self.new).mux [] ≡ [] }
        ensures taken { taken_by (connections_of self.new) ≡ taken_by (connections_of self.old) }
        ensures lent { lent_by self.new ≡ lent_by self.old }
        ensures coming { H.coming hub.new ≡ H.coming hub.old }
        ensures cause { HasCause result
            (record { hub = H.faults hub.old; lines = K.faults out.old; journal = J.faults (host_log self.old) })
            (record { hub = H.faults hub.new; lines = K.faults out.new; journal = J.faults (host_log self.new) }) }
    {
        let mut steps = Steps::<L>::new(blank);
        loop {
            match self.answer_next::<R, H, K, C, L>(link, db, hub, out, clock, &mut steps) {
                NextItem::Answered => {}
                NextItem::NoneLeft => return None,
                NextItem::Fault(fault) => return Some(fault),
            }
        }
    }

    // Answers the next request or protocol error. If memory for a word runs out, the link is dropped.
    fn answer_next<R: Recording<J>, H: Hub, K: Sink, C: Clock, L: Ledger>(
        &mut self,
        link: u64,
        db: &mut Db,
        hub: &mut H,
        out: &mut K,
        clock: &mut C,
        steps: &mut Steps<L>,
    ) -> NextItem
        requires own { without link (pending_items (connections_of self.old).mux []) ≡ [] }
        requires reached { link < reached (connections_of self.old) }
        ensures handled { Simulates db.old db.new (λ from to. HandledNext result
            (shown J.content self.old from (C.readings clock.old) (H.out hub.old) (K.has out.old))
            (shown J.content self.new to (C.readings clock.new) (H.out hub.new) (K.has out.new))) }
        ensures own { without link (pending_items (connections_of self.new).mux []) ≡ [] }
        ensures reached { reached (connections_of self.new) ≡ reached (connections_of self.old) }
        ensures asked { result ≡ NextItem.NoneLeft → pending_items (connections_of self.new).mux [] ≡ [] }
        ensures fewer { result ≡ NextItem.Answered
            → waiting (connections_of self.new) < waiting (connections_of self.old) }
        ensures taken { taken_by (connections_of self.new) ≡ taken_by (connections_of self.old) }
        ensures lent { lent_by self.new ≡ lent_by self.old }
        ensures coming { H.coming hub.new ≡ H.coming hub.old }
        ensures cause { HasNextCause result
            (record { hub = H.faults hub.old; lines = K.faults out.old; journal = J.faults (host_log self.old) })
            (record { hub = H.faults hub.new; lines = K.faults out.new; journal = J.faults (host_log self.new) }) }
    {
        match self.connections.next() {
            Turn::Request(at, words) => match self.execute::<R, C, L>(at, words, db, clock, steps) {
                Ok(closes) => self.give_reply(at, end_if(closes), hub, out),
                Err(fault) => NextItem::Fault(fault),
            },
            Turn::Fault(at, fault) => {
                self.replies.refuse(fault);
                self.give_reply(at, Some(LinkEnd::Protocol), hub, out)
            }
            Turn::NotYet => NextItem::NoneLeft,
            Turn::Memory => {
                let fault = self.drop_link(link, LinkEnd::Memory, hub, out);
                next_after(fault, NextItem::NoneLeft)
            }
        }
    }

    // Executes a request, adds its record to those that wait, and leaves its reply in the buffer. Returns whether it
    // closes its link. An error means that the record was not added, or the request not counted.
    fn execute<R: Recording<J>, C: Clock, L: Ledger>(
        &mut self,
        at: u64,
        words: Vec<Word>,
        db: &mut Db,
        clock: &mut C,
        steps: &mut Steps<L>,
    ) -> Result<bool, HostFault>
        ensures executed { Simulates db.old db.new (λ from to. IsExecuted result words.items (reply_of self.new)
            (world_of J.content self.old from (C.readings clock.old))
            (world_of J.content self.new to (C.readings clock.new))
            (J.content (host_log self.old)) (J.content (host_log self.new))) }
        ensures closes { IfOk result (λ closing. closing ≡ closes words.items) }
        ensures pending { (frames : List Frame) → pending_items (connections_of self.new).mux frames
            ≡ pending_items (connections_of self.old).mux frames }
        ensures counts { OnOk result ((link : ℕ) → executed_by (connections_of self.new).counts link
            ≡ counted_at at (executed_by (connections_of self.old).counts) link) }
        ensures reached { reached (connections_of self.new) ≡ reached (connections_of self.old) }
        ensures taken { taken_by (connections_of self.new) ≡ taken_by (connections_of self.old) }
        ensures lent { lent_by self.new ≡ lent_by self.old }
        ensures cause { ExecutionCause result (J.faults (host_log self.old)) (J.faults (host_log self.new)) }
    {
        let mut words = words;
        let is_http = is_http(&words);
        let handled = self
            .replies
            .handle::<J, R, C, L>(db, &mut self.hints, &mut words, clock, steps);
        let quits = handled.quits;
        match self.recorder.add(handled.entry, self.replies.bytes()) {
            Ok(()) => {}
            Err(_) => return Err(HostFault::Journal),
        }
        match self.connections.count(at, words) {
            Ok(()) => Ok(either(is_http, quits)),
            Err(_) => Err(HostFault::Memory),
        }
    }

    // Gives the reply in the buffer to the hub. Drops the link if this is its end.
    fn give_reply<H: Hub, K: Sink>(
        &mut self,
        at: u64,
        end: Option<LinkEnd>,
        hub: &mut H,
        out: &mut K,
    ) -> NextItem
        requires { at < reached (connections_of self.old) }
        ensures gives { GivesReply result at end (reply_of self.old) (connections_of self.old) (connections_of self.new)
            (H.out hub.old) (H.out hub.new) (K.has out.old) (K.has out.new) }
        ensures recorder { recorder_of self.new ≡ recorder_of self.old }
        ensures reached { reached (connections_of self.new) ≡ reached (connections_of self.old) }
        ensures coming { H.coming hub.new ≡ H.coming hub.old }
        ensures cause { ReplyCause result (H.faults hub.old) (H.faults hub.new) (K.faults out.old) (K.faults out.new) }
    {
        match hub.give(at, self.replies.bytes()) {
            Ok(()) => {}
            Err(_) => return NextItem::Fault(HostFault::Hub),
        }
        match end {
            Some(how) => {
                let fault = self.drop_link(at, how, hub, out);
                next_after(fault, NextItem::Answered)
            }
            None => NextItem::Answered,
        }
    }
}

// How a link ends after a request that closes it.
fn end_if(closes: bool) -> Option<LinkEnd>
    ensures { result ≡ end_if closes }
{
    if closes { Some(LinkEnd::Ended) } else { None }
}

fn either(first: bool, second: bool) -> bool
    ensures { result ≡ (first || second) }
{
    first || second
}

// A fault, or else what became of the next request.
fn next_after(fault: Option<HostFault>, next: NextItem) -> NextItem
    ensures { result ≡ next_after fault next }
{
    match fault {
        Some(fault) => NextItem::Fault(fault),
        None => next,
    }
}

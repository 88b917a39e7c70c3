// Takes the steps of a hub, and lets replies out.
ghost use Rattle.std.specs.Prelude.{◌≡◌, ◌≢◌, ◌+◌, ◌-◌, ◌<◌, ◌≤◌, ◌^◌, suc, [], ◌∷◌, length, None, Some};
ghost use Rattle.ts_io.specs.declared.hub.Step.TheVariants.{Comes};
ghost use Rattle.ts_db.specs.DbState.{Simulates};
ghost use Rattle.ts_mux.specs.Muxing.{is_inside_request, pending_items};
ghost use Rattle.ts_host.specs.Causes.{HasCause, HasStepCause, JournalCause, LineCause};
ghost use Rattle.ts_host.specs.Leaving.{ClosesLink, LeavesWith, how_of};
ghost use Rattle.ts_host.specs.Serving.{Handled, Stepped, step_after};
ghost use Rattle.ts_host.specs.Settling.{Settles};
ghost use Rattle.ts_host.specs.Shown.{connections_of, host_log, lent_by, recorder_of, shown, taken_by};

use super::{Host, HostFault};
use crate::connections::Delivery;
use crate::handling::Recording;
use std::marker::Brand;
use std::sync::ledger::Blank;
use ts_db::Db;
use ts_io::{Clock, Hub, Log, Next, Sink, Way};
use ts_words::LinkEnd;

/// What a step of the hub led to.
#[derive(Clone, Copy, Debug, PartialEq, Eq)]
pub(crate) enum HubStep {
    /// The run goes on.
    Taken,
    /// Nothing more comes.
    Over,
    /// A fault ended the run.
    Fault(HostFault),
}

impl<J: Log> Host<'_, J> {
    /// Takes the next step of the hub. At a pause the wake-up is settled.
    pub(crate) fn step<R: Recording<J>, H: Hub, K: Sink, C: Clock>(
        &mut self,
        db: &mut Db,
        hub: &mut H,
        out: &mut K,
        clock: &mut C,
    ) -> HubStep
        requires { pending_items (connections_of self.old).mux [] ≡ [] }
        ensures stepped { Simulates db.old db.new (λ from to. Stepped result
            (shown J.content self.old from (C.readings clock.old) (H.out hub.old) (K.has out.old))
            (shown J.content self.new to (C.readings clock.new) (H.out hub.new) (K.has out.new))
            (H.coming hub.old) (H.coming hub.new)
            (taken_by (connections_of self.old)) (taken_by (connections_of self.new))) }
        ensures asked { result ≡ HubStep.Taken → pending_items (connections_of self.new).mux [] ≡ [] }
        ensures over { result ≡ HubStep.Over → pending_items (connections_of self.new).mux [] ≡ [] }
        ensures onward { result ≡ HubStep.Taken → taken_by (connections_of self.old) < 2 ^ 64 - 1
            → taken_by (connections_of self.old) < taken_by (connections_of self.new) }
        ensures lent { lent_by self.new ≡ lent_by self.old }
        ensures cause { HasStepCause result
            (record { hub = H.faults hub.old; lines = K.faults out.old; journal = J.faults (host_log self.old) })
            (record { hub = H.faults hub.new; lines = K.faults out.new; journal = J.faults (host_log self.new) }) }
    {
        match hub.next() {
            Ok(Next::Bytes(link)) => step_after(self.receive::<R, H, K, C>(
                link, db, hub, out, clock,
            )),
            Ok(Next::Closed(link, way)) => step_after(self.close_link(link, way, out)),
            Ok(Next::Pause) => {
                self.connections.take(0);
                step_after(self.settle(hub))
            }
            Ok(Next::End) => HubStep::Over,
            Err(_) => HubStep::Fault(HostFault::Hub),
        }
    }

    /// Writes the records of the wake-up to the journal, and then lets its replies out. If the journal fails, nothing
    /// is let out.
    pub(crate) fn settle<H: Hub>(&mut self, hub: &mut H) -> Option<HostFault>
        ensures settles { Settles result J.content (recorder_of self.old) (recorder_of self.new) (H.out hub.old)
            (H.out hub.new) }
        ensures connections { connections_of self.new ≡ connections_of self.old }
        ensures lent { lent_by self.new ≡ lent_by self.old }
        ensures coming { H.coming hub.new ≡ H.coming hub.old }
        ensures hub_faults { H.faults hub.new ≡ H.faults hub.old }
        ensures cause { JournalCause result (J.faults (host_log self.old)) (J.faults (host_log self.new)) }
    {
        match self.recorder.settle() {
            Ok(()) => {
                hub.let_out();
                None
            }
            Err(_) => Some(HostFault::Journal),
        }
    }

    // Delivers the bytes at hand, and answers what they make whole. If memory for them runs out, the link is dropped.
    fn receive<R: Recording<J>, H: Hub, K: Sink, C: Clock>(
        &mut self,
        link: u64,
        db: &mut Db,
        hub: &mut H,
        out: &mut K,
        clock: &mut C,
    ) -> Option<HostFault>
        requires { pending_items (connections_of self.old).mux [] ≡ [] }
        ensures handled { Simulates db.old db.new (λ from to. Handled result
            (shown J.content self.old from (C.readings clock.old) (H.out hub.old) (K.has out.old))
            (shown J.content self.new to (C.readings clock.new) (H.out hub.new) (K.has out.new))
            (Comes (record { link = link; bytes = H.hand hub.old }) ∷ [])) }
        ensures asked { result ≡ None → pending_items (connections_of self.new).mux [] ≡ [] }
        ensures onward { taken_by (connections_of self.old) < 2 ^ 64 - 1
            → taken_by (connections_of self.old) < taken_by (connections_of self.new) }
        ensures bound { taken_by (connections_of self.new)
            ≤ taken_by (connections_of self.old) + suc (length (H.hand hub.old)) }
        ensures lent { lent_by self.new ≡ lent_by self.old }
        ensures coming { H.coming hub.new ≡ H.coming hub.old }
        ensures cause { HasCause result
            (record { hub = H.faults hub.old; lines = K.faults out.old; journal = J.faults (host_log self.old) })
            (record { hub = H.faults hub.new; lines = K.faults out.new; journal = J.faults (host_log self.new) }) }
    {
        match self.connections.deliver(link, hub.bytes()) {
            Delivery::Delivered => {
                self.answer_all::<R, H, K, C, Brand>(link, db, hub, out, clock, Blank::new(1))
            }
            Delivery::Lost => self.drop_link(link, LinkEnd::Memory, hub, out),
            Delivery::NoMemory => Some(HostFault::Memory),
        }
    }

    // Ends a link that the hub has closed.
    fn close_link<K: Sink>(&mut self, link: u64, way: Way, out: &mut K) -> Option<HostFault>
        requires { pending_items (connections_of self.old).mux [] ≡ [] }
        ensures leaves { result ≢ Some HostFault.Memory
            → LeavesWith link [] (connections_of self.old) (connections_of self.new) }
        ensures line { ClosesLink result link way (connections_of self.old) (K.has out.old) (K.has out.new) }
        ensures asked { result ≡ None → pending_items (connections_of self.new).mux [] ≡ [] }
        ensures recorder { recorder_of self.new ≡ recorder_of self.old }
        ensures onward { taken_by (connections_of self.old) < 2 ^ 64 - 1
            → taken_by (connections_of self.old) < taken_by (connections_of self.new) }
        ensures bound { taken_by (connections_of self.new) ≤ taken_by (connections_of self.old) + 1 }
        ensures cause { LineCause result (K.faults out.old) (K.faults out.new) }
    {
        let how = how_of(way, self.connections.is_inside_request(link));
        match self.connections.deliver(link, &[]) {
            Delivery::Delivered => self.end_link(link, how, out),
            Delivery::Lost => self.end_link(link, how, out),
            Delivery::NoMemory => Some(HostFault::Memory),
        }
    }
}

// How a link ended that the hub has closed.
fn how_of(way: Way, is_inside: bool) -> LinkEnd
    ensures { result ≡ how_of way is_inside }
{
    match way {
        Way::Closed if is_inside => LinkEnd::Truncated,
        Way::Closed => LinkEnd::Ended,
        Way::Cut => LinkEnd::Cut,
        Way::Broken => LinkEnd::Broken,
    }
}

// What a step led to that a fault ended, or none.
fn step_after(fault: Option<HostFault>) -> HubStep
    ensures { result ≡ step_after fault }
{
    match fault {
        Some(fault) => HubStep::Fault(fault),
        None => HubStep::Taken,
    }
}

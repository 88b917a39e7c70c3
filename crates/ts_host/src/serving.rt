// Serves the links of a hub.
ghost use Rattle.std.specs.Prelude.{◌≡◌, [], None};
ghost use Rattle.ts_db.specs.DbState.{Simulates};
ghost use Rattle.ts_mux.specs.Muxing.{pending_items};
ghost use Rattle.ts_host.specs.Causes.{HasEndCause};
ghost use Rattle.ts_host.specs.Serving.{Serves, end_after};
ghost use Rattle.ts_host.specs.Settling.{stored_by, whole_by};
ghost use Rattle.ts_host.specs.Shown.{connections_of, host_log, lent_by, recorder_of, shown, taken_by};

use crate::handling::Recording;
use crate::host::receiving::HubStep;
use crate::host::{Host, HostFault};
use ts_db::Db;
use ts_io::{Clock, Hub, Log, Sink};

/// How a run over a hub ended.
#[derive(Clone, Copy, Debug, PartialEq, Eq)]
pub enum HubEnd {
    /// Nothing more comes.
    Ended,
    /// The budget was used up.
    Budget,
    /// A device failed, or memory ran out for the number of a link.
    Stopped(HostFault),
}

/// Answers the requests of all links over one database, in the order in which they become whole. At each pause of the
/// hub it writes the records of the changes to the journal, and then lets the replies out. A link that ends has its
/// line in `out`. Takes steps of the hub until they have used up the budget: one for each, and its bytes.
pub fn serve_hub<J: Log, R: Recording<J>, H: Hub, K: Sink, C: Clock>(
    host: &mut Host<'_, J>,
    db: &mut Db,
    hub: &mut H,
    out: &mut K,
    clock: &mut C,
    budget: u64,
) -> HubEnd
    requires asked { pending_items (connections_of host.old).mux [] ≡ [] }
    requires taken { taken_by (connections_of host.old) ≡ 0 }
    requires stored { whole_by J.content (recorder_of host.old) ≡ stored_by J.content (recorder_of host.old) }
    ensures serves { Simulates db.old db.new (λ from to. Serves result budget
        (shown J.content host.old from (C.readings clock.old) (H.out hub.old) (K.has out.old))
        (shown J.content host.new to (C.readings clock.new) (H.out hub.new) (K.has out.new))
        (H.coming hub.old) (H.coming hub.new)) }
    ensures lent { lent_by host.new ≡ lent_by host.old }
    ensures cause { HasEndCause result
        (record { hub = H.faults hub.old; lines = K.faults out.old; journal = J.faults (host_log host.old) })
        (record { hub = H.faults hub.new; lines = K.faults out.new; journal = J.faults (host_log host.new) }) }
{
    while host.taken() < budget {
        match host.step::<R, H, K, C>(db, hub, out, clock) {
            HubStep::Taken => {}
            HubStep::Over => return end_after(host.settle(hub), HubEnd::Ended),
            HubStep::Fault(fault) => return HubEnd::Stopped(fault),
        }
    }
    end_after(host.settle(hub), HubEnd::Budget)
}

// A fault, or else this end.
fn end_after(fault: Option<HostFault>, end: HubEnd) -> HubEnd
    ensures { result ≡ end_after fault end }
{
    match fault {
        Some(fault) => HubEnd::Stopped(fault),
        None => end,
    }
}

// How a run in the mode `host` ends.
ghost use Rattle.std.specs.Prelude.{◌≡◌};
ghost use Rattle.ts_engine.specs.HostEnds as ends;

use crate::opened::{unloaded_place, unloaded_status};
use ts_execution::LoadFault;
use ts_host::{HostFault, HubEnd};
use ts_words::Status;

/// How a run in the mode `host` ended.
#[derive(Clone, Copy, Debug, PartialEq, Eq)]
pub(crate) enum HostEnd {
    /// Connections were accepted, and the run ended like this.
    Served(HubEnd),
    /// The line `ready` could not be written.
    NotReady,
    /// The address could not be opened.
    NotOpened,
    /// Out of memory before the address was opened.
    NoMemory,
    /// The journal was loaded, but could not be folded.
    NotFolded,
    /// The journal was not loaded.
    NotLoaded(LoadFault),
}

impl HostEnd {
    /// The exit status for this end.
    pub(crate) fn status(self) -> Status
        ensures { result ≡ ends.status_of self }
    {
        match self {
            HostEnd::Served(end) => served_status(end),
            HostEnd::NotReady => Status::WriteFault,
            HostEnd::NotOpened => Status::AcceptFault,
            HostEnd::NoMemory => Status::Memory,
            HostEnd::NotFolded => Status::JournalFault,
            HostEnd::NotLoaded(fault) => unloaded_status(fault),
        }
    }

    /// The offset in the status line; 0 if it has none.
    pub(crate) fn place(self) -> u64
        ensures { result ≡ ends.place_of self }
    {
        match self {
            HostEnd::NotLoaded(fault) => unloaded_place(fault),
            HostEnd::Served(_)
            | HostEnd::NotReady
            | HostEnd::NotOpened
            | HostEnd::NoMemory
            | HostEnd::NotFolded => 0,
        }
    }
}

// The exit status of a run that accepted connections.
fn served_status(end: HubEnd) -> Status
    ensures { result ≡ ends.served_status end }
{
    match end {
        HubEnd::Ended => Status::Ended,
        HubEnd::Budget => Status::Budget,
        HubEnd::Stopped(HostFault::Hub) => Status::AcceptFault,
        HubEnd::Stopped(HostFault::Line) => Status::WriteFault,
        HubEnd::Stopped(HostFault::Journal) => Status::JournalFault,
        HubEnd::Stopped(HostFault::Memory) => Status::Memory,
    }
}

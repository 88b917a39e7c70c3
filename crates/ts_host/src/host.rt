// A host: answers the requests of the links of a hub.
ghost use Rattle.std.specs.Prelude.{◌≡◌};
ghost use Rattle.ts_execution.specs.Limits.{CanRead};
ghost use Rattle.ts_host.specs.Shown.{host_log, lent_by, taken_by, connections_of};
ghost use Rattle.ts_host.specs.Beginning.{Begins};

use crate::connections::Connections;
use crate::recorder::Recorder;
use crate::reply_buffer::ReplyBuffer;
use std::alloc::Global;
use ts_db::Hints;
use ts_io::Log;
use ts_resp::WireLimits;

mod answering;
mod leaving;
pub(crate) mod receiving;

/// Which device failed, or that memory ran out for the number of a link.
#[derive(Clone, Copy, Debug, PartialEq, Eq)]
pub enum HostFault {
    /// The hub failed while it waited, or did not take a reply.
    Hub,
    /// The line of a link could not be written.
    Line,
    /// Records could not be added to the journal, or it could not be synced.
    Journal,
    /// Out of memory for the number of a link.
    Memory,
}

/// What became of the next request of a link.
#[derive(Clone, Copy, Debug, PartialEq, Eq)]
pub(crate) enum NextItem {
    /// It was answered.
    Answered,
    /// There is none, or its link was dropped.
    NoneLeft,
    /// A fault ended the run.
    Fault(HostFault),
}

/// Answers the requests of the links of a hub over one database, and adds the record of each change to a journal.
#[derive(Drop)]
pub struct Host<'a, J: Log> {
    connections: Connections,
    replies: ReplyBuffer,
    hints: Hints,
    recorder: Recorder<'a, J>,
}

impl<'a, J: Log> Host<'a, J> {
    /// A host without links. `syncs` says whether the journal is synced after each write. Allocates nothing.
    pub fn new(
        alloc: Global,
        log: &'a mut J,
        syncs: bool,
        limits: WireLimits,
        replies: ReplyBuffer,
    ) -> Self
        requires limits { CanRead limits }
        ensures begins { Begins J.content limits log.entry.now result }
        ensures lent { lent_by result ≡ log.entry.ghost_name }
    {
        Host {
            connections: Connections::new(alloc, limits),
            replies,
            hints: Hints::new(alloc),
            recorder: Recorder::new(alloc, log, syncs),
        }
    }

    /// The log. Records that wait are not added to it.
    pub fn into_log(self) -> &'a mut J
        ensures log { result.now ≡ host_log self.entry }
        ensures same_reference { result.ghost_name ≡ lent_by self.entry }
    {
        let Host { recorder, .. } = self;
        recorder.into_log()
    }

    // What was taken so far: one for each step of the hub, and its bytes.
    pub(crate) fn taken(&self) -> u64
        ensures { result ≡ taken_by (connections_of self.now) }
    {
        self.connections.taken
    }
}

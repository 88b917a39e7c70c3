// Ends links, each with its line.
ghost use Rattle.std.specs.Prelude.{◌≡◌, ◌<◌, [], None, Some};
ghost use Rattle.ts_db.specs.DbState.{DbState};
ghost use Rattle.ts_io.specs.Hubs.{Same};
ghost use Rattle.ts_host.specs.Causes.{LineCause};
ghost use Rattle.ts_host.specs.Shown.{connections_of, recorder_of, reached, taken_by};
ghost use Rattle.ts_host.specs.Leaving.{Leaves, WritesEnd};

use super::{Host, HostFault};
use ts_io::{Hub, Log, Sink, write_all_counted};
use ts_words::{LinkEnd, link_line};

/// The most bytes of the line of a link.
const ROOM: usize = 80;

impl<J: Log> Host<'_, J> {
    /// Closes a link that the hub has not closed, and writes its line.
    pub(super) fn drop_link<H: Hub, K: Sink>(
        &mut self,
        link: u64,
        how: LinkEnd,
        hub: &mut H,
        out: &mut K,
    ) -> Option<HostFault>
        requires { link < reached (connections_of self.old) }
        ensures leaves { Leaves link (connections_of self.old) (connections_of self.new) }
        ensures line { WritesEnd result link how (connections_of self.old) (K.has out.old) (K.has out.new) }
        ensures recorder { recorder_of self.new ≡ recorder_of self.old }
        ensures hub { Same (H.out hub.old) (H.out hub.new) }
        ensures coming { H.coming hub.new ≡ H.coming hub.old }
        ensures hub_faults { H.faults hub.new ≡ H.faults hub.old }
        ensures cause { LineCause result (K.faults out.old) (K.faults out.new) }
    {
        hub.close(link);
        self.end_link(link, how, out)
    }

    /// Closes a link, and writes its line.
    pub(super) fn end_link<K: Sink>(
        &mut self,
        link: u64,
        how: LinkEnd,
        out: &mut K,
    ) -> Option<HostFault>
        requires { link < reached (connections_of self.old) }
        ensures leaves { Leaves link (connections_of self.old) (connections_of self.new) }
        ensures line { WritesEnd result link how (connections_of self.old) (K.has out.old) (K.has out.new) }
        ensures recorder { recorder_of self.new ≡ recorder_of self.old }
        ensures cause { LineCause result (K.faults out.old) (K.faults out.new) }
    {
        let executed = self.connections.close(link);
        let mut room = [0; ROOM];
        match write_all_counted(out, link_line(link, executed, how, &mut room)) {
            Ok(()) => None,
            Err(_) => Some(HostFault::Line),
        }
    }
}

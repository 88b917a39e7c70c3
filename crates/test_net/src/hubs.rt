// A hub that cannot listen.
use crate::links::next;
use std::alloc::Global;
use std::io;
use std::net::TcpListener;
use test_script::{Device, Script, cause, done, shown, silent};
use ts_io::Hub;
use ts_net::TcpHub;

/// Runs the calls on a hub, and on a listener that has its address.
pub(crate) fn run(rt: &HostRuntime, script: &mut Script) -> io::Result<()> {
    let busy = TcpListener::bind(rt, "127.0.0.1:0")?;
    let address = busy.local_addr()?;
    script.run(&mut HubCalls {
        address: format!(in rt.alloc(); "{address}")?,
        hub: TcpHub::new(rt, rt.alloc()),
        busy: Some(busy),
    })
}

#[derive(Drop)]
struct HubCalls<'a> {
    address: String,
    busy: Option<TcpListener>,
    hub: TcpHub<&'a HostRuntime>,
}

// `open ADDRESS`, `open-there` at the listener's address, `free` that address, and `cause`, `next` and `bytes` of hubs.
impl Device for HubCalls<'_> {
    fn answer(&mut self, alloc: Global, verb: &str, text: &str) -> io::Result<Option<String>> {
        match verb {
            "open" => done(alloc, self.hub.open(text)),
            "open-there" => done(alloc, self.hub.open(self.address.as_str())),
            "free" => {
                self.busy = None;
                silent(alloc)
            }
            "cause" => cause(alloc, self.hub.last_cause()),
            "next" => next(alloc, self.hub.next()),
            "bytes" => shown(alloc, self.hub.bytes()),
            _ => Ok(None),
        }
    }
}

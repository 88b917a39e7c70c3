//! Tests `ts_net` by a hub that echoes what it receives, with its clients in the same thread. The input has tests in
//! the form of `test_script`. Each module says what calls its devices have. The n-th client has the n-th link.
#![tactic(auto)]

mod clients;
mod crowd;
mod descriptors;
mod echo;
mod hubs;
mod links;
mod memory;
mod rounds;
mod slow;

use std::io;
use std::io::ErrorKind;
use std::process::ExitCode;
use test_script::{Devices, Script, run_tests};

fn main(rt: HostRuntime) -> io::Result<ExitCode> {
    run_tests(&rt, &NetDevices { rt: &rt })
}

// The devices, with the runtime that they use.
#[derive(Drop)]
struct NetDevices<'a> {
    rt: &'a HostRuntime,
}

impl Devices for NetDevices<'_> {
    fn run(&self, device: &str, script: &mut Script) -> io::Result<()> {
        match device {
            "TcpHub" => hubs::run(self.rt, script),
            "Echo" => links::run(self.rt, script),
            "Echo in a crowd" => crowd::run(self.rt, script),
            "Echo with few descriptors" => descriptors::run(self.rt, script),
            "Echo of many bytes" => slow::run(self.rt, script),
            "Rounds" => rounds::run(self.rt, script),
            "Memory" => memory::run(self.rt, script),
            _ => Err(io::Error::from(ErrorKind::InvalidInput)),
        }
    }
}

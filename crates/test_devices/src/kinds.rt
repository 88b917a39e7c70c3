// Which device a test is about.
use crate::{batches, clocks, files, hubs, logs, memory, network, queue};
use std::io;
use std::io::ErrorKind;
use test_script::{Devices, Script};

/// The devices, with the runtime that they use.
#[derive(Drop)]
pub(crate) struct IoDevices<'a> {
    pub(crate) rt: &'a HostRuntime,
}

impl Devices for IoDevices<'_> {
    fn run(&self, device: &str, script: &mut Script) -> io::Result<()> {
        let (kind, text) = device.split_once(' ').unwrap_or((device, ""));
        match kind {
            "FileLog" => files::logs(self.rt, script),
            "StagedFiles" => files::staged_logs(self.rt, script),
            "TcpNet" => network::run(self.rt, script),
            "SystemClock" => clocks::system(self.rt, script),
            "MemClock" => clocks::in_memory(script, text),
            "Batches" => batches::run(script, text),
            "Waiting" => queue::run(script),
            _ => run_in_memory(kind, text, script),
        }
    }
}

fn run_in_memory(kind: &str, text: &str, script: &mut Script) -> io::Result<()> {
    match kind {
        "MemLog" => logs::in_memory(script, text),
        "Gathered" => logs::gathered(script, text),
        "MemHub" => hubs::in_memory(script, text),
        "MemListener" => memory::listener(script, text),
        _ => run_on_streams(kind, text, script),
    }
}

fn run_on_streams(kind: &str, text: &str, script: &mut Script) -> io::Result<()> {
    match kind {
        "MemSource" => memory::source(script, text),
        "MemSink" => memory::sink(script, text),
        "CountSink" => memory::counting_sink(script),
        "StdSource" => memory::std_source(script, text),
        "StdSink" => memory::std_sink(script),
        "FlakySource" => memory::flaky_source(script),
        "FlakySink" => memory::flaky_sink(script),
        _ => Err(io::Error::from(ErrorKind::InvalidInput)),
    }
}

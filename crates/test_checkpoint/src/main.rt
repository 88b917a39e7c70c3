//! Tests `ts_checkpoint`. The input has tests in the form of `test_script`. The device of a test is `records`, `series`
//! or `rule`; its module says what calls it has. The words and check numbers were worked out from the definitions.
#![tactic(auto)]

mod records;
mod rule;
mod series;
mod words;

use std::io;
use std::io::ErrorKind;
use std::process::ExitCode;
use test_script::{Devices, Script, run_tests};

fn main(rt: HostRuntime) -> io::Result<ExitCode> {
    run_tests(&rt, &CheckpointDevices)
}

#[derive(Drop)]
struct CheckpointDevices;

impl Devices for CheckpointDevices {
    fn run(&self, device: &str, script: &mut Script) -> io::Result<()> {
        match device {
            "records" => records::run(script),
            "series" => series::run(script),
            "rule" => rule::run(script),
            _ => Err(io::Error::from(ErrorKind::InvalidInput)),
        }
    }
}

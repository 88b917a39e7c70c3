//! Tests `ts_io`. The input has tests in the form of `test_script`. Each module says what calls its devices have.
#![tactic(auto)]

mod batches;
mod clients;
mod clocks;
mod faulty;
mod files;
mod hubs;
mod kinds;
mod logs;
mod memory;
mod network;
mod peer;
mod queue;
mod staged_files;
mod streams;

use kinds::IoDevices;
use std::io;
use std::process::ExitCode;
use test_script::run_tests;

fn main(rt: HostRuntime) -> io::Result<ExitCode> {
    run_tests(&rt, &IoDevices { rt: &rt })
}

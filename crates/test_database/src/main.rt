//! Tests `ts_series`, `ts_rules` and `ts_db` with ample memory. The input has tests in the form of `test_script`. Each
//! module says what calls its devices have.
//!
//! A sample is written `11:-3`: its time in milliseconds, and its value in millionths. Samples are separated by spaces,
//! and `none` stands for no sample. Where a call fails, its answer is the fault as `Debug` prints it, and `ok` if a
//! call succeeds that returns nothing.
#![tactic(auto)]

mod chunks;
mod db;
mod devices;
mod drafts;
mod faults;
mod open_bucket;
mod queries;
mod retried;
mod rules;
mod series;
mod state;
mod stored;
mod texts;
mod writes;

use devices::DatabaseDevices;
use std::io;
use std::process::ExitCode;
use test_script::run_tests;

fn main(rt: HostRuntime) -> io::Result<ExitCode> {
    run_tests(&rt, &DatabaseDevices)
}

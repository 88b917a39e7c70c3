// Which device a test is about.
ghost use Rattle.std.specs.Prelude.{◌≡◌, ◌<◌};

use crate::db::DbCalls;
use crate::faults::FaultCalls;
use crate::retried::RetriedCalls;
use crate::rules::RuleCalls;
use crate::series::SeriesCalls;
use crate::texts::{limits_of, small, split};
use std::io;
use std::io::ErrorKind;
use std::marker::Brand;
use std::sync::ledger::{Blank, Ledger};
use test_script::{Devices, Script};
use ts_db::Db;
use ts_sample::Steps;

/// The devices.
#[derive(Drop)]
pub(crate) struct DatabaseDevices;

impl Devices for DatabaseDevices {
    fn run(&self, device: &str, script: &mut Script) -> io::Result<()> {
        run(device, script)
    }
}

fn run(device: &str, script: &mut Script) -> io::Result<()> {
    // owned, since no ghost members can be picked at a call that passes a `&str`
    let device = String::from_str(script.alloc(), device)?;
    run_with_steps::<Brand>(&device, script, Blank::new(1))
}

// Runs the calls of a test with a counter of steps of its own.
fn run_with_steps<L: Ledger>(device: &String, script: &mut Script, blank: Blank) -> io::Result<()>
    requires name { blank.name ≡ L.name }
    requires parts { blank.parts ≡ L.parts }
    requires some { 0 < blank.parts }
{
    let (kind, text) = split(device.as_str());
    run_on(kind, text, script, Steps::<L>::new(blank))
}

fn run_on<L: Ledger>(
    kind: &str,
    text: &str,
    script: &mut Script,
    steps: Steps<L>,
) -> io::Result<()> {
    let (alloc, limits) = (script.alloc(), limits_of(text));
    match kind {
        "Series" | "Restored" => match SeriesCalls::new(alloc, kind, text, steps) {
            Some(mut calls) => script.run(&mut calls),
            None => Err(io::Error::from(ErrorKind::InvalidInput)),
        },
        "Rule" => script.run(&mut RuleCalls::new(alloc, small(text), steps)),
        "Db" => script.run(&mut DbCalls::new(alloc, Db::new(alloc, limits), steps)),
        "Retried" => {
            let db = Db::new(alloc, limits);
            script.run(&mut RetriedCalls::new(alloc, limits, db, steps))
        }
        "Faults" => script.run(&mut FaultCalls),
        _ => Err(io::Error::from(ErrorKind::InvalidInput)),
    }
}

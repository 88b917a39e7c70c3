// The messages of the errors of ts_db, ts_rules and ts_series.
use std::alloc::Global;
use std::error::Error;
use std::io;
use test_script::{Device, answer_of};
use ts_db::DbFault;
use ts_rules::RuleFault;
use ts_sample::Id;
use ts_series::PutFault;

/// `Faults`: `DbFault NoKey` is the message of this fault.
#[derive(Drop)]
pub(crate) struct FaultCalls;

impl Device for FaultCalls {
    fn answer(&mut self, alloc: Global, verb: &str, text: &str) -> io::Result<Option<String>> {
        match verb {
            "DbFault" => of_database(alloc, text),
            "PutFault" => of_series(alloc, text),
            "RuleFault" => message(alloc, &[RuleFault::Full], text),
            _ => Ok(None),
        }
    }
}

fn of_database(alloc: Global, name: &str) -> io::Result<Option<String>> {
    let full = DbFault::SamplesFull {
        id: Id(1),
        written: true,
    };
    let faults = [
        full,
        DbFault::TooOld,
        DbFault::Duplicate,
        DbFault::OutOfRange,
        DbFault::BeforeLast,
        DbFault::KeyExists,
        DbFault::NoKey,
        DbFault::KeysFull,
        DbFault::LabelsFull,
        DbFault::DeleteBeyondRetention,
        DbFault::SameKey,
        DbFault::SourceIsDest,
        DbFault::DestIsSource,
        DbFault::DestHasSource,
        DbFault::RulesSpent,
        DbFault::RulesFull,
        DbFault::NoRule,
    ];
    message(alloc, &faults, name)
}

fn of_series(alloc: Global, name: &str) -> io::Result<Option<String>> {
    let faults = [
        PutFault::TooOld,
        PutFault::Duplicate,
        PutFault::OutOfRange,
        PutFault::Full,
    ];
    message(alloc, &faults, name)
}

// The message of the fault that `Debug` prints with this name.
fn message<F: Error>(alloc: Global, faults: &[F], name: &str) -> io::Result<Option<String>> {
    for fault in faults {
        if format!(in alloc; "{fault:?}")?.as_str() == name {
            return Ok(Some(fault.to_string(alloc)?));
        }
    }
    Ok(None)
}

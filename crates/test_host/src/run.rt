// Runs the program over devices in memory.
use crate::setting::Setting;
use crate::short_log::ShortLog;
use std::alloc::AllocError;
use ts_engine::{Limits, Status, top, usual_budget};
use ts_io::{MemClock, MemHub, MemListener, MemLog, MemSink, MemSource};

// What a run leaves.
#[derive(Drop)]
pub(crate) struct Seen {
    pub(crate) hub: MemHub,
    pub(crate) out: MemSink,
    pub(crate) err: MemSink,
    pub(crate) log: ShortLog,
    pub(crate) status: Status,
}

// A run from this setting.
pub(crate) fn run(setting: Setting) -> Result<Seen, AllocError> {
    let Setting {
        alloc,
        words,
        steps,
        had,
        is_slow,
        hub_fails,
        output_fails,
        journal_fails,
    } = setting;
    let mut input = MemSource::new(Vec::new(alloc), 1, Vec::new(alloc));
    let mut out = MemSink::new(alloc, 4096, output_fails);
    let mut err = MemSink::new(alloc, 4096, Vec::new(alloc));
    let mut clock = MemClock::new(Vec::new(alloc));
    let mut net = MemListener::new(alloc, Vec::new(alloc), Vec::new(alloc))?;
    let mut log = ShortLog::new(MemLog::new(had, journal_fails), is_slow, Vec::new(alloc));
    let mut hub = MemHub::new(alloc, steps, hub_fails);
    let status = top(
        alloc,
        &words,
        &mut input,
        &mut out,
        &mut err,
        &mut clock,
        &mut net,
        &mut log,
        &mut hub,
        Limits::usual(),
        usual_budget(),
    );
    Ok(Seen {
        hub,
        out,
        err,
        log,
        status,
    })
}

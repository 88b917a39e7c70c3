// Clocks.
use std::alloc::Global;
use std::io;
use std::io::ErrorKind;
use std::time::SystemTime;
use test_script::{Device, Script, answer_of, numbers_of};
use ts_io::{Clock, MemClock, SystemClock};

/// `MemClock 5 7`: has these readings. `now` is the next one.
pub(crate) fn in_memory(script: &mut Script, text: &str) -> io::Result<()> {
    let clock = MemClock::new(numbers_of(script.alloc(), text)?);
    script.run(&mut ClockCalls { clock })
}

#[derive(Drop)]
struct ClockCalls<C> {
    clock: C,
}

impl<C: Clock> Device for ClockCalls<C> {
    fn answer(&mut self, alloc: Global, verb: &str, _text: &str) -> io::Result<Option<String>> {
        match verb {
            "now" => answer_of(alloc, self.clock.now()),
            _ => Ok(None),
        }
    }
}

/// `SystemClock`. Whether it `is-in-time`: its reading is between two of std.
pub(crate) fn system(rt: &HostRuntime, script: &mut Script) -> io::Result<()> {
    let before = milliseconds(rt)?;
    let time = u128::from(time_of(&mut SystemClock::new(rt)));
    let after = milliseconds(rt)?;
    let is_in_time = before <= time && time <= after;
    script.check("is-in-time", answer_of(script.alloc(), is_in_time)?)
}

fn time_of<C: Clock>(clock: &mut C) -> u64 {
    clock.now()
}

// The milliseconds since 1970, by std.
fn milliseconds(rt: &HostRuntime) -> io::Result<u128> {
    match SystemTime::now(rt)?.duration_since(SystemTime::UNIX_EPOCH) {
        Ok(since) => Ok(since.as_millis()),
        Err(_) => Err(io::Error::from(ErrorKind::InvalidData)),
    }
}

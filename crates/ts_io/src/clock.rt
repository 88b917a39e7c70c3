// The clock that a session reads: the trait, the system clock, and one in memory for tests and proofs.
ghost use Rattle.std.specs.Prelude.{◌≡◌, ◌-◌, ◌/◌, ◌^◌, ℕ, List, Option, IfSome, None, min, Some};
ghost use Rattle.std.specs.Option.{option_map};
ghost use Rattle.std.specs.Time.{system_time_nanos};
ghost use Rattle.ts_io.specs.Clocks.{reading_of, readings_after};

use std::marker::Model;
use std::rt;
use std::time::SystemTime;

/// A clock.
pub trait Clock {
    /// The readings to come, if the clock knows them beforehand.
    ghost readings: { Self → Option (List ℕ) };

    /// The time in milliseconds since 1970. It can't fail.
    fn now(&mut self) -> u64
        ensures reading { IfSome (readings self.old) (λ rs. result ≡ reading_of rs) }
        ensures after { readings self.new ≡ option_map readings_after (readings self.old) };
}

/// The system clock. Its readings are not known beforehand.
#[derive(Drop)]
pub struct SystemClock<R> {
    rt: R,
}

impl<R: rt::Clock> SystemClock<R> {
    pub fn new(rt: R) -> Self
        ensures { ⟦<SystemClock<R> as Clock>⟧.readings result ≡ None }
    {
        SystemClock { rt }
    }
}

impl<R: rt::Clock> Clock for SystemClock<R> {
    ghost readings = { λ _. None };

    /// Milliseconds since 1970, or 0 if the system clock can't be read or is set before 1970.
    fn now(&mut self) -> u64 {
        match SystemTime::now(&self.rt) {
            Ok(time) => milliseconds_since_1970(time),
            Err(_) => 0,
        }
    }
}

fn milliseconds_since_1970(time: SystemTime) -> u64
    ensures { result ≡ min (system_time_nanos time / 1000000) (2 ^ 64 - 1) }
{
    match time.duration_since(SystemTime::UNIX_EPOCH) {
        Ok(since) => u64::try_from(since.as_millis()).unwrap_or(u64::MAX),
        Err(_) => 0,
    }
}

/// A clock with its readings in memory. It repeats the last reading, and reads 0 if it has none.
#[derive(Drop)]
pub struct MemClock {
    readings: Vec<u64>,
    place: usize,
}

impl Model for MemClock {
    ghost use Rattle.std.specs.Prelude.{◌≤◌, List, ℕ, drop, length};

    ghost Value = { List ℕ };

    ghost view = { λ c. drop c.place c.readings.items };

    ghost invariant = { λ c. c.place ≤ length c.readings.items };
}

impl MemClock {
    /// Creates a clock that gives these readings in order.
    pub fn new(readings: Vec<u64>) -> Self
        ensures { result ≡ readings.items }
    {
        MemClock { readings, place: 0 }
    }
}

impl Clock for MemClock {
    ghost readings = { λ c. Some c };

    fn now(&mut self) -> u64
        ensures reading { result ≡ reading_of self.old }
        ensures after { self.new ≡ readings_after self.old }
    {
        let reading = self.readings.get(self.place).copied().unwrap_or(0);
        if self.place + 1 < self.readings.len() {
            self.place += 1;
        }
        reading
    }
}

// Which calls of a device in memory fail.
ghost use Rattle.std.specs.Prelude.{◌≡◌, ◌≤◌, ◌↔◌, IsErr, Contains, is_err};
ghost use Rattle.ts_io.specs.Causes.{HasCause, saturating_succ};

use crate::Failed;
use crate::failed::count_failure;
use std::marker::Model;

/// The numbers of the calls that fail, and how many calls were made and have failed so far.
#[derive(Drop)]
pub(crate) struct Schedule {
    to_fail: Vec<u64>,
    made: u64,
    failed: u64,
}

impl Model for Schedule {
    ghost use Rattle.ts_io.specs.Calls.{Calls};

    ghost Value = { Calls };

    ghost view = { λ s. record { to_fail = s.to_fail.items; made = s.made; failed = s.failed } };
}

impl Schedule {
    ghost use Rattle.ts_io.specs.Calls.{next_call_number, after_call};

    pub(crate) fn new(to_fail: Vec<u64>) -> Self
        ensures { result ≡ record { to_fail = to_fail.items; made = 0; failed = 0 } }
    {
        Schedule {
            to_fail,
            made: 0,
            failed: 0,
        }
    }

    /// Counts a call, which fails if its number is one of the chosen.
    pub(crate) fn call(&mut self) -> Result<(), Failed>
        ensures fails { IsErr result ↔ Contains self.old.to_fail (next_call_number self.old) }
        ensures saturating_succ { self.new ≡ after_call self.old (is_err result) }
        ensures cause { HasCause self.old.failed self.new.failed result }
    {
        self.made = self.made.saturating_add(1);
        if self.to_fail.contains(&self.made) {
            return Err(self.fault());
        }
        Ok(())
    }

    /// Counts a failure of the last call.
    pub(crate) fn fault(&mut self) -> Failed
        ensures saturating_succ { self.new ≡ record self.old { failed = saturating_succ self.old.failed } }
        ensures later { self.old.failed ≤ self.new.failed }
    {
        count_failure(&mut self.failed)
    }
}

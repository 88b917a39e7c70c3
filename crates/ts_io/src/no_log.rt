// A log for data in memory alone.
ghost use Rattle.std.specs.Prelude.{None};

use crate::{Cause, Failed, Log};

/// A log that stores nothing, for a server that keeps its data in memory. Each call succeeds.
#[derive(Drop)]
pub struct NoLog;

impl Log for NoLog {
    ghost content = { λ s. None };

    ghost drafted = { λ s. None };

    ghost place = { λ s. 0 };

    ghost faults = { λ s. 0 };

    ghost last_cause = { λ s. None };

    fn open(&mut self, _name: &str) -> Result<(), Failed> {
        Ok(())
    }

    fn read(&mut self, _buf: &mut [u8]) -> Result<usize, Failed> {
        Ok(0)
    }

    fn cut(&mut self, _len: u64) -> Result<(), Failed> {
        Ok(())
    }

    fn append(&mut self, bytes: &[u8]) -> Result<usize, Failed> {
        Ok(bytes.len())
    }

    fn sync(&mut self) -> Result<(), Failed> {
        Ok(())
    }

    fn draft(&mut self) -> Result<(), Failed> {
        Ok(())
    }

    fn write_draft(&mut self, bytes: &[u8]) -> Result<usize, Failed> {
        Ok(bytes.len())
    }

    fn publish(&mut self) -> Result<(), Failed> {
        Ok(())
    }

    fn last_cause(&self) -> Option<Cause> {
        None
    }
}

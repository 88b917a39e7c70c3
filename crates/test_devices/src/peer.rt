// A peer in memory that accepts a limited number of bytes per call, or none, or fails.
ghost use Rattle.std.specs.Prelude.{◌≡◌, ◌<◌, ◌≤◌, None};
ghost use Rattle.ts_io.specs.Causes.{Rose};

use std::alloc::Global;
use ts_io::{Connection, Failed, Wait};

// A send accepts at most `most` bytes, and at least one if it waits for the peer. The first `silent` reads that don't
// wait find nothing; later reads get the bytes to come, each an `x`.
#[derive(Drop)]
pub(crate) struct Peer {
    pub(crate) taken: Vec<u8>,
    pub(crate) most: usize,
    pub(crate) fails: bool,
    pub(crate) silent: u64,
    pub(crate) coming: usize,
    pub(crate) sends: u32,
    faults: u64,
}

impl Peer {
    pub(crate) fn new(alloc: Global, most: usize) -> Self {
        Peer {
            taken: Vec::new(alloc),
            most,
            fails: false,
            silent: 0,
            coming: 0,
            sends: 0,
            faults: 0,
        }
    }

    fn most(&self, wait: Wait) -> usize
        ensures { wait ≡ Wait.Long → 0 < result }
    {
        match wait {
            Wait::Long => self.most.max(1),
            _ => self.most,
        }
    }
}

fn counted(faults: &mut u64) -> Failed
    ensures rose { Rose faults.old faults.new }
    ensures later { faults.old ≤ faults.new }
{
    *faults = faults.saturating_add(1);
    Failed
}

impl Connection for Peer {
    ghost left = { λ _. None };

    ghost has = { λ _ _. ⊥ };

    ghost faults = { λ p. p.faults };

    fn send(&mut self, bytes: &[u8], wait: Wait) -> Result<usize, Failed> {
        self.sends = self.sends.saturating_add(1);
        if self.fails {
            return Err(counted(&mut self.faults));
        }
        let count = self.most(wait).min(bytes.len());
        match self.taken.extend_from_slice(&bytes[..count]) {
            Ok(()) => Ok(count),
            Err(_) => Err(counted(&mut self.faults)),
        }
    }

    fn receive(&mut self, buf: &mut [u8]) -> Result<usize, Failed> {
        let count = self.coming.min(buf.len());
        buf[..count].fill(b'x');
        self.coming -= count;
        Ok(count)
    }

    fn try_receive(&mut self, buf: &mut [u8]) -> Result<Option<usize>, Failed> {
        if self.silent > 0 {
            self.silent -= 1;
            return Ok(None);
        }
        match self.receive(buf) {
            Ok(count) => Ok(Some(count)),
            Err(failed) => Err(failed),
        }
    }
}

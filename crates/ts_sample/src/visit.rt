// Visitors of samples, and one that collects them.
ghost use Rattle.std.specs.Prelude.{◌≡◌, ℕ, ◌+◌, ◌≤◌, [], IfOk};
ghost use Rattle.ts_spec.specs.Sample.{Point};
ghost use Rattle.ts_sample.specs.SampleCollector.{with_one_more};

use crate::sample::Sample;
use std::alloc::{AllocError, Global};
use std::marker::Model;

/// Receives samples one by one. `visited` in specs/Visit.antt is its state after a list of them.
pub trait Visit {
    // The state after one sample.
    ghost step: { Self → Point → Self };

    // How many more samples it can receive.
    ghost room: { Self → ℕ };

    /// Receives one sample.
    fn sample(&mut self, sample: &Sample)
        requires room { 1 ≤ room self.old }
        ensures { self.new ≡ step self.old sample.now };

    // Each sample lowers the capacity by at most one.
    ghost lowers: { (v : Self) (p : Point) → room v ≤ room (step v p) + 1 };
}

/// A visitor that collects the samples that it receives, in their order.
#[derive(Drop)]
pub struct SampleCollector {
    samples: Vec<Sample>,
}

impl Model for SampleCollector {
    ghost use Rattle.std.specs.Prelude.{◌-◌, vec_len, vec_capacity};
    ghost use Rattle.ts_sample.specs.SampleCollector.{CollectedSamples};

    ghost Value = { CollectedSamples };

    ghost view = { λ g. record { list = g.samples.items; room = vec_capacity g.samples - vec_len g.samples } };
}

impl SampleCollector {
    /// An empty collector with capacity for `count` samples.
    pub fn with_reserved(alloc: Global, count: usize) -> Result<SampleCollector, AllocError>
        ensures empty { IfOk result (λ g. g.list ≡ []) }
        ensures room { IfOk result (λ g. count ≤ g.room) }
    {
        Ok(SampleCollector {
            samples: Vec::with_capacity(alloc, count)?,
        })
    }

    /// Returns the collected samples.
    pub fn into_samples(self) -> Vec<Sample>
        ensures { result.items ≡ self.list }
    {
        self.samples
    }
}

impl Visit for SampleCollector {
    ghost use Rattle.std.proofs.Common.{arith};

    ghost step = { with_one_more };

    ghost room = { λ g. g.room };

    // Allocates no memory.
    fn sample(&mut self, sample: &Sample) {
        self.samples.push_reserved(*sample);
    }

    ghost lowers = { λ g p. Prim.omega arith };
}

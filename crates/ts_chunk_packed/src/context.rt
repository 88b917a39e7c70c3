// The coding context of a sample: the sample before it, and the step from the one before that.
ghost use Rattle.std.specs.Prelude.{◌≡◌, ◌≤◌, ◌-◌, pos, unwrap_or, is_some, if◌then◌else◌, None, Some};
ghost use Rattle.ts_spec.specs.Sample.{MAX_TIME};
ghost use Rattle.ts_chunk_packed.specs.Laws.{IsKnown};
ghost use Rattle.ts_chunk_packed.specs.Packed.{begin, gap, next};

use std::marker::Model;
use ts_sample::{Sample, Units};

/// The state that codes the next sample.
#[derive(Drop)]
pub struct Context {
    before: Sample,
    step: u64,
    begun: bool,
}

impl Model for Context {
    ghost use Rattle.std.specs.Prelude.{◌≤◌, pos};
    ghost use Rattle.ts_spec.specs.Sample.{MAX_TIME};
    ghost use Rattle.ts_chunk_packed.specs.Packed.{State};

    ghost Value = { State };

    ghost view = { λ c. record { before = c.before; step = pos c.step; begun = c.begun } };

    ghost invariant = { λ c. c.step ≤ MAX_TIME };
}

impl Context {
    /// The context after sample `last`, which came `step` milliseconds after the one before it.
    #[inline(always)]
    pub fn new(last: Option<Sample>, step: u64) -> Context
        requires { step ≤ MAX_TIME }
        ensures { result ≡ record { before = unwrap_or last begin.before; step = pos step; begun = is_some last } }
    {
        Context {
            before: last.unwrap_or(zero_sample()),
            step,
            begun: last.is_some(),
        }
    }

    /// Does nothing at run time. Its contract gives the caller the bounds of a borrowed context.
    #[inline(always)]
    pub fn known(&self)
        ensures { IsKnown self.now }
    {
        let _step = self.step;
        self.before.known();
    }

    /// The last sample, or zeros if there is none.
    #[inline(always)]
    pub fn before(&self) -> &Sample
        ensures { result.now ≡ self.now.before }
    {
        &self.before
    }

    /// The last sample, if there is one.
    pub fn last(&self) -> Option<Sample>
        ensures { result ≡ (if self.now.begun then Some self.now.before else None) }
    {
        if self.begun { Some(self.before) } else { None }
    }

    /// The milliseconds from the sample before the last one to the last one.
    #[inline(always)]
    pub fn step(&self) -> u64
        ensures { pos result ≡ self.now.step }
    {
        self.step
    }

    /// The context after one more sample.
    #[inline(always)]
    pub fn after(&self, sample: &Sample) -> Context
        requires { self.now.before.time ≤ sample.now.time }
        ensures { result ≡ next self.now sample.now }
    {
        Context {
            before: *sample,
            step: self.step_to(sample),
            begun: true,
        }
    }

    /// The milliseconds from the last sample to `sample`, or 0 for the first sample.
    #[inline(always)]
    pub fn step_to(&self, sample: &Sample) -> u64
        requires { self.now.before.time ≤ sample.now.time }
        ensures step { pos result ≡ (next self.now sample.now).step }
        ensures bounded { result ≤ MAX_TIME }
    {
        if self.begun {
            sample.time - self.before.time
        } else {
            0
        }
    }
}

/// The sample of zeros that the first sample is coded against.
#[inline(always)]
pub fn zero_sample() -> Sample
    ensures { result ≡ begin.before }
{
    Sample {
        value: Units::ZERO,
        time: 0,
        made: 0,
    }
}

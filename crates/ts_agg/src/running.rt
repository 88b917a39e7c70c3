// A running summary of samples, from which every aggregator can be computed at any time, and a visitor that summarizes
// what a rule counts of its source.
ghost use Rattle.std.specs.Prelude.{◌≡◌, ◌<◌, ◌^◌, ◌↔◌, List, [], ◌∷◌, ◌++◌, length, nat_lt, int_lt, if◌then◌else◌};
ghost use Rattle.std.specs.Prelude.{Some, IsNone, nat_le, filter};
ghost use Rattle.ts_spec.specs.Sample.{Point};
ghost use Rattle.ts_spec.specs.Aggregate.{aggregate, push, result_of, nothing, summary};
ghost use Rattle.ts_sample.specs.Visit.{visited};
ghost use Rattle.ts_agg.specs.Running.{Summarizes};
ghost use Rattle.ts_agg.specs.Counted.{counted_one};

mod restored;

use std::marker::Model;
use ts_decimal::{clamp, div_round};
use ts_sample::{Sample, Units, Visit};
use ts_spec::Aggregator;

// The most samples that a summary can count.
const MOST: u64 = 100_000_000_000_000;

/// The count, sum, least, greatest, first and last value of a list of samples.
#[derive(Clone, Copy, Debug, PartialEq, Eq)]
pub struct Running {
    sum: i128,
    least: Units,
    greatest: Units,
    first: Units,
    last: Units,
    count: u64,
}

impl Model for Running {
    ghost use Rattle.ts_spec.specs.Aggregate.{Summary};
    ghost use Rattle.ts_agg.specs.Running.{IsSmall};

    ghost Value = { Summary };

    ghost view = { λ r. record {
      count = r.count;
      sum = r.sum;
      least = r.least;
      greatest = r.greatest;
      first = r.first;
      last = r.last;
    } };

    ghost invariant = { λ r. IsSmall r.count r.sum };

    ghost inverse = { λ s. record {
      sum = s.sum;
      least = s.least;
      greatest = s.greatest;
      first = s.first;
      last = s.last;
      count = s.count;
    } };
}

impl Running {
    /// The summary of no samples.
    pub fn new() -> Running
        ensures { Summarizes result [] }
    {
        Running {
            sum: 0,
            least: Units::ZERO,
            greatest: Units::ZERO,
            first: Units::ZERO,
            last: Units::ZERO,
            count: 0,
        }
    }

    /// Whether it can count one more sample.
    pub fn has_capacity(&self) -> bool
        ensures { result ≡ nat_lt self.now.count (10 ^ 14) }
    {
        self.count < MOST
    }

    /// Appends a sample. It counts at most 10^14 samples.
    pub fn push(&mut self, s: &Sample)
        requires { self.old.count < 10 ^ 14 }
        ensures pushed { self.new ≡ push self.old s.now }
        ensures stands { (ps : List Point) → Summarizes self.old ps
            → Summarizes self.new (ps ++ s.now ∷ []) }
    {
        let value = s.value;
        if self.count == 0 {
            self.least = value;
            self.greatest = value;
            self.first = value;
        } else {
            self.least = lesser(self.least, value);
            self.greatest = greater(self.greatest, value);
        }
        self.last = value;
        self.sum += value.get();
        self.count += 1;
    }

    /// Returns the result of an aggregator, or `None` if there are no samples.
    pub fn result(&self, agg: Aggregator) -> Option<Units>
        ensures value { (ps : List Point) → Summarizes self.now ps → 0 < length ps
            → result ≡ Some (aggregate agg ps) }
        ensures of_summary { 0 < self.now.count → result ≡ Some (result_of agg self.now) }
        ensures none { IsNone result ↔ (self.now.count ≡ 0) }
    {
        if self.count == 0 {
            None
        } else {
            Some(self.value(agg))
        }
    }

    // The result of an aggregator over at least one sample.
    fn value(&self, agg: Aggregator) -> Units
        requires { 0 < self.now.count }
        ensures { result ≡ result_of agg self.now }
    {
        match agg {
            Aggregator::Avg => clamp(div_round(self.sum, self.count)),
            Aggregator::Sum => clamp(self.sum),
            Aggregator::Min => self.least,
            Aggregator::Max => self.greatest,
            Aggregator::Range => clamp(self.greatest.get() - self.least.get()),
            Aggregator::Count => clamp(i128::from(self.count) * 1_000_000),
            Aggregator::First => self.first,
            Aggregator::Last => self.last,
        }
    }
}

// The lesser of two values.
#[inline]
pub(crate) fn lesser(old: Units, new: Units) -> Units
    ensures { result ≡ (if int_lt new old then new else old) }
{
    if new < old { new } else { old }
}

// The greater of two values.
#[inline]
pub(crate) fn greater(old: Units, new: Units) -> Units
    ensures { result ≡ (if int_lt old new then new else old) }
{
    if old < new { new } else { old }
}

/// A visitor that summarizes the samples written since a rule was created. It can receive 10^14 samples.
#[derive(Drop)]
pub struct Counted {
    made: u32,
    running: Running,
}

impl Model for Counted {
    ghost use Rattle.ts_agg.specs.Counted.{Counting};

    ghost Value = { Counting };

    ghost view = { λ c. record { made = c.made; running = c.running } };
}

impl Counted {
    /// Starts with no samples. `made` is how many rules the source had ever had when the rule was created.
    pub fn new(made: u32) -> Counted
        ensures empty { result ≡ record { made = made; running = nothing } }
        ensures visited { (ps : List Point) → (visited counted_one result ps).running
            ≡ summary (filter (λ p. nat_le made p.made) ps) }
    {
        Counted {
            made,
            running: Running::new(),
        }
    }

    /// Returns the summary so far.
    pub fn running(&self) -> Running
        ensures { result ≡ self.now.running }
    {
        self.running
    }
}

impl Visit for Counted {
    ghost use Rattle.std.specs.Prelude.{◌-◌, ◌^◌};
    ghost use Rattle.std.proofs.Common.{arith};
    ghost use Rattle.ts_agg.specs.Counted.{lowered};

    ghost step = { counted_one };

    ghost room = { λ c. 10 ^ 14 - c.running.count };

    fn sample(&mut self, sample: &Sample) {
        if sample.made >= self.made {
            self.running.push(sample);
        }
    }

    ghost lowers = { lowered };
}

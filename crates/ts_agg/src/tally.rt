// The running state of a single aggregator over the samples of a bucket, with its count and sum.
ghost use Rattle.std.specs.Prelude.{◌≡◌, ◌<◌, ◌≤◌, ◌+◌, ◌^◌, List, [], ◌∷◌, ◌++◌, ◌*◌, ℕ, pos, ◌+ℤ◌};
ghost use Rattle.ts_spec.specs.Sample.{Point};
ghost use Rattle.ts_spec.specs.Aggregate.{aggregate};
ghost use Rattle.ts_spec.specs.Value.{clamp, div_round};
ghost use Rattle.ts_agg.specs.Tally.{IsTallyOf, counted};

use crate::running::{greater, lesser};
use std::marker::Model;
use ts_decimal::{clamp, div_round};
use ts_sample::{Sample, Units};
use ts_spec::Aggregator;

/// The state of one aggregator over a non-empty list of samples. It has only what that aggregator needs.
#[derive(Clone, Copy, Debug, PartialEq, Eq)]
pub enum Tally {
    Avg(Total),
    Sum(Total),
    /// The least value.
    Min(Units),
    /// The greatest value.
    Max(Units),
    /// The least and the greatest value.
    Range(Units, Units),
    Count(SampleCount),
    First(Units),
    Last(Units),
}

impl Tally {
    /// Starts an aggregator with one sample.
    #[inline]
    pub fn of(agg: Aggregator, first: &Sample) -> Tally
        ensures tells { IsTallyOf agg result (first.now ∷ []) }
        ensures one { counted result ≤ 1 }
    {
        let value = first.value;
        match agg {
            Aggregator::Avg => Tally::Avg(Total::of(value)),
            Aggregator::Sum => Tally::Sum(Total::of(value)),
            Aggregator::Min => Tally::Min(value),
            Aggregator::Max => Tally::Max(value),
            Aggregator::Range => Tally::Range(value, value),
            Aggregator::Count => Tally::Count(SampleCount::one()),
            Aggregator::First => Tally::First(value),
            Aggregator::Last => Tally::Last(value),
        }
    }

    /// Appends a sample. Aggregators that count samples accept at most 10^14.
    #[inline]
    pub fn push(&mut self, s: &Sample)
        requires { counted self.old < 10 ^ 14 }
        ensures tells { (agg : Aggregator) (ps : List Point) → IsTallyOf agg self.old ps
            → IsTallyOf agg self.new (ps ++ s.now ∷ []) }
        ensures few { counted self.new ≤ counted self.old + 1 }
    {
        match self {
            Tally::Avg(total) => total.add(s.value),
            Tally::Sum(total) => total.add(s.value),
            Tally::Min(least) => *least = lesser(*least, s.value),
            Tally::Max(greatest) => *greatest = greater(*greatest, s.value),
            Tally::Range(least, greatest) => {
                *least = lesser(*least, s.value);
                *greatest = greater(*greatest, s.value);
            }
            Tally::Count(amount) => amount.increase(),
            Tally::First(_) => {}
            Tally::Last(last) => *last = s.value,
        }
    }

    /// Returns the result of the aggregator.
    pub fn value(&self) -> Units
        ensures { (agg : Aggregator) (ps : List Point) → IsTallyOf agg self.now ps
            → result ≡ aggregate agg ps }
    {
        match self {
            Tally::Avg(total) => total.mean(),
            Tally::Sum(total) => total.sum(),
            Tally::Min(least) => *least,
            Tally::Max(greatest) => *greatest,
            Tally::Range(least, greatest) => ts_decimal::clamp(greatest.get() - least.get()),
            Tally::Count(amount) => amount.value(),
            Tally::First(first) => *first,
            Tally::Last(last) => *last,
        }
    }
}

/// A count of samples, at most 10^14.
#[derive(Clone, Copy, Debug, PartialEq, Eq)]
pub struct SampleCount {
    count: u64,
}

impl Model for SampleCount {
    ghost use Rattle.std.specs.Prelude.{ℕ, ◌≤◌, ◌^◌};

    ghost Value = { ℕ };

    ghost view = { λ a. a.count };

    ghost invariant = { λ a. a.count ≤ 10 ^ 14 };

    ghost inverse = { λ n. record { count = n } };
}

impl SampleCount {
    /// Starts a count at one sample.
    #[inline]
    pub fn one() -> SampleCount
        ensures { result ≡ 1 }
    {
        SampleCount { count: 1 }
    }

    /// Counts one more sample. The count must be below 10^14.
    #[inline]
    pub fn increase(&mut self)
        requires { self.old < 10 ^ 14 }
        ensures { self.new ≡ self.old + 1 }
    {
        self.count += 1;
    }

    /// Returns the count as a value.
    pub fn value(&self) -> Units
        ensures { result ≡ pos (self.now * 1000000) }
    {
        clamp(i128::from(self.count) * 1_000_000)
    }
}

/// A count of samples, at most 10^14, and the sum of their values in millionths.
#[derive(Clone, Copy, Debug, PartialEq, Eq)]
pub struct Total {
    sum: i128,
    count: u64,
}

impl Model for Total {
    ghost use Rattle.ts_agg.specs.Amounts.{Totals, IsTotal};

    ghost Value = { Totals };

    ghost view = { λ t. record { count = t.count; sum = t.sum } };

    ghost invariant = { λ t. IsTotal t.count t.sum };

    ghost inverse = { λ t. record { sum = t.sum; count = t.count } };
}

impl Total {
    ghost use Rattle.ts_agg.specs.Amounts.{added};

    /// Starts with one value.
    #[inline]
    pub fn of(value: Units) -> Total
        ensures { result ≡ record { count = 1; sum = value } }
    {
        Total {
            sum: value.get(),
            count: 1,
        }
    }

    /// Adds one value. The count must be below 10^14.
    #[inline]
    pub fn add(&mut self, value: Units)
        requires { self.old.count < 10 ^ 14 }
        ensures { self.new ≡ added self.old value }
    {
        self.sum += value.get();
        self.count += 1;
    }

    /// Returns the sum, clamped to the range of values.
    pub fn sum(&self) -> Units
        ensures { result ≡ clamp self.now.sum }
    {
        clamp(self.sum)
    }

    /// Returns the mean, rounded half away from zero.
    pub fn mean(&self) -> Units
        ensures { result ≡ div_round self.now.sum self.now.count }
    {
        clamp(div_round(self.sum, self.count))
    }
}

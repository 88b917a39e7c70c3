// Time buckets: where they start and end.
ghost use Rattle.std.specs.Prelude.{◌≡◌, ◌≤◌, ◌<◌, ◌↔◌, pos, ◌+ℤ◌, IsSome, IfSome, IfNone};
ghost use Rattle.ts_spec.specs.Sample.{MAX_TIME};
ghost use Rattle.ts_spec.specs.Bucket.{raw, start, stamp};
ghost use Rattle.ts_bucket.specs.Grid.{IsGrid, IsLastOf, IsNextOf, HasNoNext};

use std::marker::Model;
use ts_sample::MAX_TIME;
use ts_spec::Stamp;

/// The longest bucket, in milliseconds.
pub const LONGEST: u64 = 100_000_000_000_000;

/// A grid of buckets of equal duration. One of them starts at the alignment.
#[derive(Clone, Copy, Debug, PartialEq, Eq)]
pub struct Grid {
    align: u64,
    duration: u64,
}

impl Model for Grid {
    ghost use Rattle.ts_spec.specs.Bucket as spec;
    ghost use Rattle.ts_bucket.specs.Grid.{IsGrid};

    ghost Value = { spec.Grid };

    ghost view = { λ g. record { align = g.align; duration = g.duration } };

    ghost invariant = { λ g. IsGrid (record { align = g.align; duration = g.duration }) };

    ghost inverse = { λ g. record { align = g.align; duration = g.duration } };
}

impl Grid {
    /// Returns the grid of an alignment (at most `MAX_TIME`) and a duration (1 to 10^14), both in milliseconds, or
    /// `None` if one is out of range.
    pub fn new(align: u64, duration: u64) -> Option<Grid>
        ensures valid { IsSome result ↔ IsGrid (record { align = align; duration = duration }) }
        ensures value { IfSome result (λ g. g ≡ record { align = align; duration = duration }) }
    {
        if align <= MAX_TIME && 1 <= duration && duration <= LONGEST {
            Some(Grid { align, duration })
        } else {
            None
        }
    }

    /// The start of one of the buckets, in milliseconds.
    pub fn align(&self) -> u64
        ensures { result ≡ self.now.align }
    {
        self.align
    }

    /// The duration of each bucket, in milliseconds.
    pub fn duration(&self) -> u64
        ensures { result ≡ self.now.duration }
    {
        self.duration
    }

    /// Does nothing at run time. It gives the prover the bounds of a grid behind a reference.
    pub fn known(&self)
        ensures { IsGrid self.now }
    {
        let _align = self.align;
    }

    /// Returns the start of the bucket of `t`, at least 0.
    pub fn start_of(&self, t: u64) -> u64
        requires { t ≤ MAX_TIME }
        ensures { result ≡ start self.now t }
    {
        t.saturating_sub(self.offset(t))
    }

    /// Returns the last time in the bucket of `t`, at most `MAX_TIME`.
    pub fn last_of(&self, t: u64) -> u64
        requires { t ≤ MAX_TIME }
        ensures { IsLastOf self.now t result }
    {
        MAX_TIME.min(t + (self.duration - 1 - self.offset(t)))
    }

    /// Returns the start of the bucket after that of `t`, or `None` if it is past `MAX_TIME`.
    pub fn next_of(&self, t: u64) -> Option<u64>
        requires { t ≤ MAX_TIME }
        ensures next { IfSome result (IsNextOf self.now t) }
        ensures within { IfSome result (λ next. next ≤ MAX_TIME) }
        ensures none { IfNone result (HasNoNext self.now t) }
    {
        let next = t + (self.duration - self.offset(t));
        if next <= MAX_TIME { Some(next) } else { None }
    }

    /// Returns the timestamp reported for the bucket of `t`, at most `MAX_TIME`.
    pub fn stamp(&self, t: u64, mode: Stamp) -> u64
        requires { t ≤ MAX_TIME }
        ensures { result ≡ stamp self.now t mode }
    {
        let offset = self.offset(t);
        let stamp = match mode {
            Stamp::Low => t.saturating_sub(offset),
            Stamp::High => t + (self.duration - offset),
            Stamp::Mid => (t + self.duration / 2).saturating_sub(offset),
        };
        MAX_TIME.min(stamp)
    }

    // The distance of a time from the start of its bucket, even if that start is negative.
    fn offset(&self, t: u64) -> u64
        requires { t ≤ MAX_TIME }
        ensures below { result < self.now.duration }
        ensures value { raw self.now t +ℤ pos result ≡ pos t }
    {
        if self.align <= t {
            (t - self.align) % self.duration
        } else {
            self.duration - 1 - (self.align - 1 - t) % self.duration
        }
    }
}

// The starts of consecutive buckets.
ghost use Rattle.std.specs.Prelude.{◌+◌, ◌-◌, ◌*◌, ◌≤◌};
ghost use Rattle.ts_spec.specs.Sample.{MAX_TIME};

use crate::query::Query;
use ts_bucket::Grid;

// Starts of consecutive buckets, in milliseconds.
#[derive(Clone, Copy)]
pub(crate) struct Starts {
    first: u64,
    // The start of the second bucket, if there is one.
    second: u64,
    // The distance between starts, from the second one on.
    duration: u64,
    // The number of buckets.
    count: u64,
    ghost some: { 1 ≤ count },
    ghost first_fits: { first ≤ MAX_TIME },
    ghost fits: { second + (count - 2) * duration ≤ MAX_TIME },
}

impl Starts {
    ghost use Rattle.std.specs.Prelude.{◌≡◌, ◌<◌, [], ◌∷◌, length, Some, slice_get};
    ghost use Rattle.ts_spec.specs.Answer.{starts_between};
    ghost use Rattle.ts_range.specs.Order.{in_order};
    ghost use Rattle.ts_range.specs.Starts.{starts_of, starts_if, starts_within};
    ghost use Rattle.ts_range.specs.AskedSamples.{most_of};

    // The starts for a query over a series whose first and last sample have the times `ends`.
    pub(crate) fn over(query: &Query, grid: &Grid, ends: Option<(u64, u64)>) -> Option<Starts>
        ensures { starts_if result ≡ starts_within grid.now query.now.from query.now.to ends }
    {
        let (first, last) = ends?;
        let first = query.from.max(first);
        let last = query.to.min(last);
        if first <= last {
            Some(Starts::between(grid, first, last))
        } else {
            None
        }
    }

    // The starts from the bucket of `from` to the bucket of `to`.
    pub(crate) fn between(grid: &Grid, from: u64, to: u64) -> Starts
        requires ordered { from ≤ to }
        requires time { to ≤ MAX_TIME }
        ensures { starts_of result ≡ starts_between grid.now from to }
    {
        grid.known();
        let first = grid.start_of(from);
        let duration = grid.duration();
        let Some(second) = grid.next_of(from) else {
            return Starts::one(first);
        };
        if to < second {
            return Starts::one(first);
        }
        Starts {
            first,
            second,
            duration,
            count: (to - second) / duration + 2,
        }
    }

    // A single bucket.
    fn one(start: u64) -> Starts
        requires { start ≤ MAX_TIME }
        ensures { starts_of result ≡ start ∷ [] }
    {
        Starts {
            first: start,
            second: start,
            duration: 0,
            count: 1,
        }
    }

    // The number of rows, at most `count`.
    pub(crate) fn wanted(&self, count: Option<u64>) -> u64
        ensures { result ≡ most_of count (length (starts_of self.now)) }
    {
        match count {
            None => self.count,
            Some(count) => self.count.min(count),
        }
    }

    // The start at index `i`, counted from the end if `reverse`.
    pub(crate) fn at(&self, reverse: bool, i: u64) -> u64
        requires { i < length (starts_of self.now) }
        ensures start { slice_get (in_order reverse (starts_of self.now)) i ≡ Some result }
        ensures time { result ≤ MAX_TIME }
    {
        let number = self.number(reverse, i);
        if number == 0 {
            self.first
        } else {
            self.second + (number - 1) * self.duration
        }
    }

    // The index from the front that `i` stands for.
    fn number(&self, reverse: bool, i: u64) -> u64
        requires { i < length (starts_of self.now) }
        ensures within { result < self.now.count }
        ensures same { slice_get (in_order reverse (starts_of self.now)) i
            ≡ slice_get (starts_of self.now) result }
    {
        if reverse { self.count - 1 - i } else { i }
    }
}

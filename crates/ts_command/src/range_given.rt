// The option values of a range query. Queries over one series and over many share them.
ghost use Rattle.std.specs.Prelude.{◌≡◌, ◌≤◌, All};
ghost use Rattle.std.specs.Option.{ForSome};
ghost use Rattle.ts_spec.specs.Ranges.{IsDuration, IsAlign};
ghost use Rattle.ts_spec.specs.Sample.{MAX_TIME};

use crate::fault::WordFault;
use ts_bucket::{Grid, Stamp};
use ts_range::{Buckets, Query};
use ts_sample::Units;
use ts_spec::{Aggregation, Align};

// The option values of a range query so far.
#[derive(Drop)]
pub(crate) struct RangeGiven {
    pub(crate) times: Option<Vec<u64>>,
    pub(crate) values: Option<(Units, Units)>,
    pub(crate) count: Option<u64>,
    pub(crate) aggregation: Option<Aggregation>,
    pub(crate) align: Option<Align>,
    pub(crate) stamp: Option<Stamp>,
    pub(crate) empty: bool,
    ghost times_fit: { ForSome times (λ ts. All (λ t. t ≤ MAX_TIME) ts.items) },
    ghost duration_fits: { ForSome aggregation (λ a. IsDuration a.duration) },
    ghost align_fits: { ForSome align IsAlign },
}

impl RangeGiven {
    ghost use Rattle.std.specs.Prelude.{option_map};
    ghost use Rattle.ts_spec.specs.Settings.{nothing};
    ghost use Rattle.ts_spec.specs.Ranges.{lacks_aggregation, lacks_end, aligned, buckets, query};
    ghost use Rattle.ts_range.specs.Query.{buckets_of, query_of};
    ghost use Rattle.ts_command.specs.Faults.{Matches};
    ghost use Rattle.ts_command.specs.Given.{range_given_of};

    pub(crate) fn nothing() -> RangeGiven
        ensures { range_given_of result ≡ nothing }
    {
        RangeGiven {
            times: None,
            values: None,
            count: None,
            aggregation: None,
            align: None,
            stamp: None,
            empty: false,
        }
    }

    // Whether ALIGN, BUCKETTIMESTAMP or EMPTY is given without AGGREGATION.
    fn lacks_aggregation(&self) -> bool
        ensures { result ≡ lacks_aggregation (range_given_of self.now) }
    {
        let speaks = self.align.is_some() || self.stamp.is_some() || self.empty;
        speaks && self.aggregation.is_none()
    }

    // Whether buckets are aligned to an end of the interval that the client left open with `-` or `+`.
    fn lacks_end(&self, from: &[u8], to: &[u8]) -> bool
        ensures { result ≡ lacks_end self.now.align from.now to.now }
    {
        match self.align {
            Some(Align::From) => from == b"-".as_slice(),
            Some(Align::To) => to == b"+".as_slice(),
            _ => false,
        }
    }

    // A time at which a bucket begins.
    fn alignment(&self, from: u64, to: u64) -> u64
        requires from { from ≤ MAX_TIME }
        requires to { to ≤ MAX_TIME }
        ensures value { result ≡ aligned from to self.now.align }
        ensures bound { result ≤ MAX_TIME }
    {
        match self.align {
            None => 0,
            Some(Align::From) => from,
            Some(Align::To) => to,
            Some(Align::Time(time)) => time,
        }
    }

    // The buckets to aggregate into, if AGGREGATION is given.
    fn buckets(&self, from: u64, to: u64) -> Option<Buckets>
        requires from { from ≤ MAX_TIME }
        requires to { to ≤ MAX_TIME }
        ensures { option_map buckets_of result ≡ buckets from to (range_given_of self.now) }
    {
        let aggregation = self.aggregation?;
        let grid = Grid::new(self.alignment(from, to), aggregation.duration)?;
        Some(Buckets {
            grid,
            agg: aggregation.agg,
            stamp: self.stamp.unwrap_or(Stamp::Low),
            empty: self.empty,
        })
    }

    // Builds the query. Fails if the bucket options contradict each other. `from` and `to` are the words for the
    // interval, and `first` and `last` their times.
    pub(crate) fn query(
        self,
        reverse: bool,
        from: &[u8],
        to: &[u8],
        first: u64,
        last: u64,
    ) -> Result<Query, WordFault>
        requires first { first ≤ MAX_TIME }
        requires last { last ≤ MAX_TIME }
        ensures { Matches query_of result (query reverse from.now to.now first last (range_given_of self)) }
    {
        if self.lacks_aggregation() || self.lacks_end(from, to) {
            return Err(WordFault::BadOption);
        }
        let buckets = self.buckets(first, last);
        Ok(Query {
            from: first,
            to: last,
            times: self.times,
            values: self.values,
            count: self.count,
            buckets,
            reverse,
        })
    }
}

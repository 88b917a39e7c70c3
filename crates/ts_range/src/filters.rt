// Filters by time and by value, prepared for checking each sample quickly.
ghost use Rattle.std.specs.Prelude.{◌≡◌, ◌≤◌, ◌<◌, ℕ, true, false, ◌&&◌, None, IfOk, IfSome, IfNone, IsTrue};
ghost use Rattle.std.specs.Prelude.{option_map};
ghost use Rattle.std.specs.Option.{ForSome};
ghost use Rattle.std.specs.List.Sorted.{IsNonDecreasing};
ghost use Rattle.ts_spec.specs.Answer.{contains_time};

use crate::query::Query;
use std::alloc::{AllocError, Global};
use ts_sample::{Sample, Units};

/// The FILTER_BY_TS and FILTER_BY_VALUE filters of a query.
#[derive(Drop)]
pub struct Filters {
    // In ascending order.
    times: Option<Vec<u64>>,
    values: Option<(Units, Units)>,
    // Whether there is no filter, so that samples need no check.
    passes_all: bool,
    ghost times_rise: { ForSome times (λ times. IsNonDecreasing times.items) },
    ghost lets_all_times: { IsTrue passes_all → times ≡ None },
    ghost lets_all_values: { IsTrue passes_all → values ≡ None },
}

impl Filters {
    ghost use Rattle.ts_spec.specs.Sample.{Point, is_within};
    ghost use Rattle.ts_spec.specs.Answer.{passes_filters, passes_time_filter, passes_value_filter};
    ghost use Rattle.ts_range.specs.Query.{query_of, span_of};
    ghost use Rattle.ts_range.specs.Filters.{passes};

    /// Prepares the filters of a query. Fails if there is no memory for the sorted times.
    pub fn of(query: &Query) -> Result<Filters, AllocError>
        ensures { IfOk result (λ f. (p : Point) →
            passes f p ≡ passes_filters (query_of query.now) p) }
    {
        let values = query.values;
        let Some(times) = &query.times else {
            return Ok(Filters {
                times: None,
                values,
                passes_all: values.is_none(),
            });
        };
        Ok(Filters {
            times: Some(sorted(*times.allocator(), times)?),
            values,
            passes_all: false,
        })
    }

    // Whether there is no filter.
    pub(crate) fn pass_everything(&self) -> bool
        ensures { result ≡ true → (p : Point) → passes self.now p ≡ true }
    {
        self.passes_all
    }

    // Whether a sample passes both filters.
    #[inline(always)]
    pub(crate) fn lets_pass(&self, sample: &Sample) -> bool
        ensures { result ≡ passes self.now sample.now }
    {
        if self.passes_all {
            return true;
        }
        self.passes_time(sample.time) && self.passes_value(sample.value)
    }

    // The part of the interval that can contain samples that pass, if any can.
    pub(crate) fn part_of(&self, from: u64, to: u64) -> Option<(u64, u64)>
        ensures within { IfSome result (λ part. (from ≤ part.0) × ((part.0 ≤ part.1) × (part.1 ≤ to))) }
        ensures all { IfSome result (λ part. (p : Point) →
            (is_within part.0 part.1 p.time && passes self.now p) ≡ (is_within from to p.time && passes self.now p)) }
        ensures none { IfNone result ((p : Point) → (is_within from to p.time && passes self.now p) ≡ false) }
    {
        let (first, last) = match &self.times {
            None => (from, to),
            Some(times) => (first_from(times, from)?, last_upto(times, to)?),
        };
        if last < first {
            return None;
        }
        Some((first, last))
    }

    // Whether the time is one of the listed times.
    #[inline]
    fn passes_time(&self, time: u64) -> bool
        ensures { result ≡ passes_time_filter (option_map (λ times. times.items) self.now.times) time }
    {
        match &self.times {
            None => true,
            Some(times) => times.binary_search(&time).is_ok(),
        }
    }

    // Whether the value is within the bounds, both included.
    #[inline]
    fn passes_value(&self, value: Units) -> bool
        ensures { result ≡ passes_value_filter (option_map span_of self.now.values) value }
    {
        match self.values {
            None => true,
            Some((least, greatest)) => least <= value && value <= greatest,
        }
    }
}

// The times in ascending order.
fn sorted(alloc: Global, times: &[u64]) -> Result<Vec<u64>, AllocError>
    ensures rising { IfOk result (λ sorted. IsNonDecreasing sorted.items) }
    ensures same { IfOk result (λ sorted. (t : ℕ) → contains_time sorted.items t ≡ contains_time times.now t) }
{
    let mut sorted = times.to_vec(alloc)?;
    sorted.sort_unstable();
    Ok(sorted)
}

// The first listed time at or after `from`.
fn first_from(times: &[u64], from: u64) -> Option<u64>
    requires { IsNonDecreasing times.now }
    ensures first { IfSome result (λ first. (from ≤ first)
        × ((t : ℕ) → from ≤ t → t < first → contains_time times.now t ≡ false)) }
    ensures none { IfNone result ((t : ℕ) → from ≤ t → contains_time times.now t ≡ false) }
{
    let place = times.partition_point(|time| *time < from);
    if place == times.len() {
        return None;
    }
    Some(times[place])
}

// The last listed time at or before `to`.
fn last_upto(times: &[u64], to: u64) -> Option<u64>
    requires { IsNonDecreasing times.now }
    ensures last { IfSome result (λ last. (last ≤ to)
        × ((t : ℕ) → last < t → t ≤ to → contains_time times.now t ≡ false)) }
    ensures none { IfNone result ((t : ℕ) → t ≤ to → contains_time times.now t ≡ false) }
{
    let count = times.partition_point(|time| *time <= to);
    if count == 0 {
        return None;
    }
    Some(times[count - 1])
}

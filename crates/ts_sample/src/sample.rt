// A sample, the value of a row, the id of a series, the greatest time, and searches by time in ascending samples.
ghost use Rattle.std.specs.Prelude.{◌≡◌, ◌≤◌, nat_lt, nat_le, ◌∷◌, ◌++◌, length, take, drop, slice_get, slice_range};
ghost use Rattle.std.specs.Prelude.{None, Some, IfOk, IfErr, IsSomeAnd};
ghost use Rattle.ts_spec.specs.Sample.{Point, IsAscending, at, at_times, between, outside, put};

use std::marker::Model;
use std::ops::Range;
use ts_spec::Units;

/// The greatest time, in milliseconds.
pub const MAX_TIME: u64 = 9_223_372_036_854_775_807;

/// A sample: a value at a time.
#[derive(Clone, Copy, Debug, PartialEq, Eq)]
pub struct Sample {
    // Fields are laid out in this order. With the widest one first, a sample takes 32 bytes.
    pub value: Units,
    /// In milliseconds, at most `MAX_TIME`.
    pub time: u64,
    /// How many rules were ever made on the series when the sample was last written.
    pub made: u32,
}

impl Model for Sample {
    ghost use Rattle.std.specs.Prelude.{◌≤◌};
    ghost use Rattle.ts_spec.specs.Sample.{Point, MAX_TIME};

    ghost Value = { Point };

    ghost view = { λ s. record { time = s.time; value = s.value; made = s.made } };

    ghost invariant = { λ s. s.time ≤ MAX_TIME };

    ghost inverse = { λ p. record { time = p.time; value = p.value; made = p.made } };
}

impl Sample {
    ghost use Rattle.ts_sample.specs.Sample.{IsInBounds};

    /// Does nothing at run time. It gives the prover the bounds of a sample behind a reference.
    pub fn known(&self)
        ensures { IsInBounds self.now }
    {
        let _made = self.made;
        let _value = self.value.get();
    }
}

/// The value of a row in a reply, which may be missing.
#[derive(Clone, Copy, Debug, PartialEq, Eq)]
pub enum Cell {
    /// A value.
    Number(Units),
    /// No value; the reply has `NaN`.
    Nan,
}

/// The id of a series in a database.
#[derive(Clone, Copy, Debug, PartialEq, Eq, PartialOrd, Ord, Hash)]
pub struct Id(pub usize);

/// Returns the number of samples before `time` in an ascending list. A time past the last sample needs no search.
pub fn lower_bound(list: &[Sample], time: u64) -> usize
    requires { IsAscending list.now }
    ensures within { result ≤ length list.now }
    ensures before { take result list.now ≡ at_times (λ t. nat_lt t time) list.now }
    ensures after { drop result list.now ≡ at_times (nat_le time) list.now }
{
    let Some(last) = list.last() else {
        return 0;
    };
    if last.time < time {
        return list.len();
    }
    list.partition_point(|sample| sample.time < time)
}

/// Returns the index of the sample at `time` in an ascending list, or as an error the index at which to insert one.
pub fn find(list: &[Sample], time: u64) -> Result<usize, usize>
    requires { IsAscending list.now }
    ensures found { IfOk result (λ i. IsSomeAnd (at time list.now) (λ p. slice_get list.now i ≡ Some p)) }
    ensures absent { IfErr result (λ _. at time list.now ≡ None) }
    ensures between { IfErr result (λ i. (i ≤ length list.now)
        × ((p : Point) → p.time ≡ time → take i list.now ++ p ∷ drop i list.now ≡ put p list.now)) }
{
    let place = lower_bound(list, time);
    let Some(there) = list.get(place) else {
        return Err(place);
    };
    if there.time == time {
        Ok(place)
    } else {
        Err(place)
    }
}

/// Returns the index range of the samples from `from` to `to`, both included, in an ascending list.
pub fn index_range(list: &[Sample], from: u64, to: u64) -> Range<usize>
    requires { IsAscending list.now }
    ensures ordered { result.start ≤ result.end }
    ensures within { result.end ≤ length list.now }
    ensures inside { slice_range list.now result.start result.end ≡ between from to list.now }
    ensures outside { take result.start list.now ++ drop result.end list.now ≡ outside from to list.now }
{
    let end = upper_bound(list, to);
    lower_bound(&list[..end], from)..end
}

/// Returns the number of samples at or before `time` in an ascending list. A time at or past the last sample needs no
/// search.
pub fn upper_bound(list: &[Sample], time: u64) -> usize
    requires { IsAscending list.now }
    ensures within { result ≤ length list.now }
    ensures upto { take result list.now ≡ at_times (λ t. nat_le t time) list.now }
    ensures past { drop result list.now ≡ at_times (nat_lt time) list.now }
{
    let Some(last) = list.last() else {
        return 0;
    };
    if last.time <= time {
        return list.len();
    }
    list.partition_point(|sample| sample.time <= time)
}

// The public queries of a series, for either encoding.
ghost use Rattle.std.specs.Prelude.{◌≡◌, ◌≤◌, ◌+◌, ◌*◌, ◌⊎◌, ℕ, suc, nat_lt, length};
ghost use Rattle.ts_spec.specs.Sample.{MAX_TIME, at, at_times, between, first_of, last_of};
ghost use Rattle.ts_sample.specs.Visit.{visited};
ghost use Rattle.ts_spec.specs.Valid.{Every};
ghost use Rattle.ts_sample.specs.Steps.{Takes};
ghost use Rattle.ts_series.specs.History.{list_of, reach, IsKept};
ghost use Rattle.ts_series.specs.Seams.{IsSeam, IsSeamed, Around};

use crate::series::{Series, SeriesByEncoding};
use std::sync::ledger::Ledger;
use ts_sample::{Sample, Steps, Visit};

impl Series {
    /// Does nothing at run time. Its contract states what holds for every series, which a borrow hides.
    pub fn known(&self)
        ensures kept { IsKept self.now }
        ensures times { Every (λ p. p.time ≤ MAX_TIME) (list_of self.now) }
    {
        match &self.by_encoding {
            SeriesByEncoding::Plain(line) => line.known(),
            SeriesByEncoding::Packed(line) => line.known(),
        }
    }

    /// The largest number of samples a new chunk can hold. The contract also bounds the cost of a split scan: near each
    /// interval there are seams, times that split no chunk, and any one time splits at most one chunk.
    pub fn chunk_reach(&self) -> u64
        ensures within { result ≤ reach self.now }
        ensures around { (from to : ℕ)
            → Around from to (length (between from to (list_of self.now)) + 2 * reach self.now) self.now.held.pieces }
        ensures cuts { (t : ℕ) → Around (suc t) t (reach self.now) self.now.held.pieces }
    {
        match &self.by_encoding {
            SeriesByEncoding::Plain(line) => line.chunk_reach(),
            SeriesByEncoding::Packed(line) => line.chunk_reach(),
        }
    }

    /// The first sample.
    pub fn first<L: Ledger>(&self, steps: &mut Steps<L>) -> Option<Sample>
        ensures first { result ≡ first_of (list_of self.now) }
        ensures steps { Takes steps.old steps.new (reach self.now) }
    {
        match &self.by_encoding {
            SeriesByEncoding::Plain(line) => line.first(steps),
            SeriesByEncoding::Packed(line) => line.first(steps),
        }
    }

    /// The number of samples.
    pub fn len<L: Ledger>(&self, steps: &mut Steps<L>) -> usize
        ensures len { result ≡ length (list_of self.now) }
        ensures steps { Takes steps.old steps.new (reach self.now) }
    {
        match &self.by_encoding {
            SeriesByEncoding::Plain(line) => line.len(steps),
            SeriesByEncoding::Packed(line) => line.len(steps),
        }
    }

    /// The sample at time `t`, in milliseconds.
    pub fn at<L: Ledger>(&self, t: u64, steps: &mut Steps<L>) -> Option<Sample>
        ensures at { result ≡ at t (list_of self.now) }
        ensures steps { Takes steps.old steps.new (reach self.now) }
    {
        match &self.by_encoding {
            SeriesByEncoding::Plain(line) => line.at(t, steps),
            SeriesByEncoding::Packed(line) => line.at(t, steps),
        }
    }

    /// The last sample before time `t`, in milliseconds.
    pub fn before<L: Ledger>(&self, t: u64, steps: &mut Steps<L>) -> Option<Sample>
        ensures before { result ≡ last_of (at_times (λ u. nat_lt u t) (list_of self.now)) }
        ensures steps { Takes steps.old steps.new (reach self.now) }
    {
        match &self.by_encoding {
            SeriesByEncoding::Plain(line) => line.before(t, steps),
            SeriesByEncoding::Packed(line) => line.before(t, steps),
        }
    }

    /// A buffer capacity for the samples from `from` to `to`, in milliseconds, both inclusive. It is at least their
    /// number and exceeds it by at most two chunks. Decodes nothing.
    pub fn room_for(&self, from: u64, to: u64) -> usize
        ensures least { length (between from to (list_of self.now)) ≤ result }
        ensures most { result ≤ length (between from to (list_of self.now)) + 2 * reach self.now }
    {
        match &self.by_encoding {
            SeriesByEncoding::Plain(line) => line.room_for(from, to),
            SeriesByEncoding::Packed(line) => line.room_for(from, to),
        }
    }

    /// An end time for a scan from `from` that yields at least `count` samples, or `to` if it finds none before. All
    /// times are in milliseconds. Reads only the sample count and the last sample of each chunk: it allocates
    /// nothing, decodes nothing and takes no steps.
    pub fn end_for_count(&self, from: u64, to: u64, count: u64) -> u64
        requires { from ≤ to }
        ensures within { (from ≤ result) × (result ≤ to) }
        ensures reach { (result ≡ to) ⊎ (count ≤ length (between from result (list_of self.now))) }
        ensures seam { (result ≡ to) ⊎ IsSeam (result + 1) self.now.held.pieces }
    {
        match &self.by_encoding {
            SeriesByEncoding::Plain(line) => line.end_for_count(from, to, count),
            SeriesByEncoding::Packed(line) => line.end_for_count(from, to, count),
        }
    }

    /// A start time for a scan up to `to` that yields at least `count` samples, or `from` if it finds none after it.
    /// All times are in milliseconds. Reads only the sample count and the first sample of each chunk, from the end of
    /// the interval: it allocates nothing, decodes nothing and takes no steps.
    pub fn start_for_count(&self, from: u64, to: u64, count: u64) -> u64
        requires { from ≤ to }
        ensures within { (from ≤ result) × (result ≤ to) }
        ensures reach { (result ≡ from) ⊎ (count ≤ length (between result to (list_of self.now))) }
        ensures seam { (result ≡ from) ⊎ IsSeam result self.now.held.pieces }
    {
        match &self.by_encoding {
            SeriesByEncoding::Plain(line) => line.start_for_count(from, to, count),
            SeriesByEncoding::Packed(line) => line.start_for_count(from, to, count),
        }
    }

    /// Passes the samples from `from` to `to`, in milliseconds, both inclusive, to `visit`, oldest first.
    pub fn scan<V: Visit, L: Ledger>(&self, from: u64, to: u64, visit: &mut V, steps: &mut Steps<L>)
        requires room { length (between from to (list_of self.now)) ≤ V.room visit.old }
        ensures visited { visit.new ≡ visited V.step visit.old (between from to (list_of self.now)) }
        ensures counted { steps.old + length (between from to (list_of self.now)) ≤ steps.new }
        ensures bounded { steps.new ≤ steps.old + length (between from to (list_of self.now)) + 2 * reach self.now }
        ensures seams { IsSeamed self.now.held.pieces from to steps.old steps.new }
    {
        match &self.by_encoding {
            SeriesByEncoding::Plain(line) => line.scan(from, to, visit, steps),
            SeriesByEncoding::Packed(line) => line.scan(from, to, visit, steps),
        }
    }

    /// Whether there is a sample from `from` to `to`, in milliseconds, both inclusive.
    pub fn has_between<L: Ledger>(&self, from: u64, to: u64, steps: &mut Steps<L>) -> bool
        ensures has { result ≡ nat_lt 0 (length (between from to (list_of self.now))) }
        ensures steps { Takes steps.old steps.new (reach self.now) }
    {
        match &self.by_encoding {
            SeriesByEncoding::Plain(line) => line.has_between(from, to, steps),
            SeriesByEncoding::Packed(line) => line.has_between(from, to, steps),
        }
    }
}

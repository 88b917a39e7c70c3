// The public type of a series.
ghost use Rattle.std.specs.Prelude.{◌≡◌, ◌<◌, ◌+◌, ◌-◌, ◌^◌, [], None};
ghost use Rattle.ts_spec.specs.StoredUpdates.{high_after_rows};
ghost use Rattle.ts_spec.specs.Sample.{IsAscending, last_of};
ghost use Rattle.ts_spec.specs.State.{edge_of};
ghost use Rattle.ts_series.specs.History.{list_of, low, IsKept, KeepsLimits, KeepsReach};
ghost use Rattle.ts_series.specs.Plan.{after, IsFor};

use crate::chunked_series::ChunkedSeries;
use crate::plan::{PlanByEncoding, SeriesPlan};
use std::alloc::Global;
use std::marker::Model;
use ts_chunk_packed::PackedChunk;
use ts_chunk_plain::PlainChunk;
use ts_sample::Sample;
use ts_spec::{Encoding, Options, Policy};

/// A time series: its samples in order of time, and its options.
#[derive(Drop)]
pub struct Series {
    pub(crate) by_encoding: SeriesByEncoding,
}

// A series of either encoding.
#[derive(Drop)]
pub(crate) enum SeriesByEncoding {
    Plain(ChunkedSeries<PlainChunk>),
    Packed(ChunkedSeries<PackedChunk>),
}

impl Model for Series {
    ghost use Rattle.ts_series.specs.Encoded.{history_in, HasEncoding};
    ghost use Rattle.ts_series.specs.History.{History};

    ghost Value = { History };

    ghost view = { λ s. history_in s.by_encoding };

    ghost invariant = { λ s. HasEncoding s.by_encoding };
}

impl Series {
    /// An empty series.
    pub fn new(alloc: Global, options: Options) -> Series
        ensures options { result.options ≡ options }
        ensures empty { list_of result ≡ [] }
        ensures high { result.high ≡ None }
        ensures born { result.born ≡ 0 }
        ensures kept { IsKept result }
    {
        let by_encoding = match options.encoding {
            Encoding::Uncompressed => SeriesByEncoding::Plain(ChunkedSeries::new(alloc, options)),
            Encoding::Compressed => SeriesByEncoding::Packed(ChunkedSeries::new(alloc, options)),
        };
        Series { by_encoding }
    }

    /// The series' options.
    pub fn options(&self) -> Options
        ensures { result ≡ self.now.options }
    {
        match &self.by_encoding {
            SeriesByEncoding::Plain(line) => line.options(),
            SeriesByEncoding::Packed(line) => line.options(),
        }
    }

    /// The duplicate policy: what a write does at a time that has a sample.
    pub fn policy(&self) -> Policy
        ensures { result ≡ self.now.options.policy }
    {
        match &self.by_encoding {
            SeriesByEncoding::Plain(line) => line.policy(),
            SeriesByEncoding::Packed(line) => line.policy(),
        }
    }

    /// The highest time, in milliseconds, that the series ever had a sample at.
    pub fn high(&self) -> Option<u64>
        ensures { result ≡ self.now.high }
    {
        match &self.by_encoding {
            SeriesByEncoding::Plain(line) => line.high(),
            SeriesByEncoding::Packed(line) => line.high(),
        }
    }

    /// The number of rules ever created on the series.
    pub fn born(&self) -> u32
        ensures { result ≡ self.now.born }
    {
        match &self.by_encoding {
            SeriesByEncoding::Plain(line) => line.born(),
            SeriesByEncoding::Packed(line) => line.born(),
        }
    }

    /// The retention edge: the earliest time that the series keeps, in milliseconds.
    pub fn edge(&self) -> u64
        ensures { result ≡ low self.now }
    {
        match &self.by_encoding {
            SeriesByEncoding::Plain(line) => line.edge(),
            SeriesByEncoding::Packed(line) => line.edge(),
        }
    }

    /// The retention edge after writing `rows`, in milliseconds. The rows are in ascending time.
    pub fn edge_with(&self, rows: &[Sample]) -> u64
        requires { IsAscending rows.now }
        ensures { result ≡ edge_of self.now.options.retention (high_after_rows rows.now self.now.high) }
    {
        match &self.by_encoding {
            SeriesByEncoding::Plain(line) => line.edge_with(rows),
            SeriesByEncoding::Packed(line) => line.edge_with(rows),
        }
    }

    /// The last sample.
    pub fn last(&self) -> Option<Sample>
        ensures { result ≡ last_of (list_of self.now) }
    {
        match &self.by_encoding {
            SeriesByEncoding::Plain(line) => line.last(),
            SeriesByEncoding::Packed(line) => line.last(),
        }
    }

    /// Carries out the plan.
    pub fn commit(&mut self, plan: SeriesPlan)
        requires { IsFor plan self.old }
        ensures done { self.new ≡ record (after plan self.old) { held = self.new.held } }
        ensures kept { IsKept self.new }
        ensures limits { KeepsLimits self.old self.new }
        ensures reach { KeepsReach self.old self.new }
    {
        match &mut self.by_encoding {
            SeriesByEncoding::Plain(line) => {
                if let PlanByEncoding::Plain(plan) = plan.plans {
                    line.commit(plan);
                }
            }
            SeriesByEncoding::Packed(line) => {
                if let PlanByEncoding::Packed(plan) = plan.plans {
                    line.commit(plan);
                }
            }
        }
    }

    /// Counts one more rule created on the series.
    pub fn raise_born(&mut self)
        requires { self.old.born < 2 ^ 32 - 1 }
        ensures raised { self.new ≡ record self.old { born = self.old.born + 1 } }
        ensures kept { IsKept self.new }
    {
        match &mut self.by_encoding {
            SeriesByEncoding::Plain(line) => line.raise_born(),
            SeriesByEncoding::Packed(line) => line.raise_born(),
        }
    }
}

// Fails to compile if a field is added, such as a second copy of the samples.
fn fields(it: &Series) {
    let Series { by_encoding } = it;
    match by_encoding {
        SeriesByEncoding::Plain(_) | SeriesByEncoding::Packed(_) => {}
    }
}

// A series of one kind of chunk, its retention edge and its highest time.
ghost use Rattle.std.specs.Prelude.{◌≡◌, ◌<◌, ◌+◌, ◌-◌, ◌^◌, [], None};
ghost use Rattle.ts_spec.specs.StoredUpdates.{high_after_rows};
ghost use Rattle.ts_spec.specs.Sample.{IsAscending, last_of};
ghost use Rattle.ts_spec.specs.State.{edge_of};
ghost use Rattle.ts_spec.specs.Rules.{raised};
ghost use Rattle.ts_series.specs.History.{list_of, low, IsKeptIn, KeepsLimits, KeepsReach};
ghost use Rattle.ts_series.specs.Plan.{after, IsForIn};

use crate::chunked_series_plan::ChunkedSeriesPlan;
use crate::chunks::Chunks;
use std::alloc::Global;
use std::marker::Model;
use ts_sample::{Chunk, Sample};
use ts_spec::{Options, Policy};

// A series' samples in chunks of type `C`, with its options.
#[derive(Drop)]
pub(crate) struct ChunkedSeries<C: Chunk> {
    pub(crate) alloc: Global,
    pub(crate) options: Options,
    pub(crate) chunks: Chunks<C>,
    pub(crate) high: Option<u64>,
    pub(crate) born: u32,
}

impl<C: Chunk> Model for ChunkedSeries<C> {
    ghost use Rattle.ts_series.specs.History.{History, IsKeptIn, history_of};

    ghost Value = { History };

    ghost view = { λ s. history_of s.options s.high s.born s.chunks };

    ghost invariant = { λ s. IsKeptIn C.format (history_of s.options s.high s.born s.chunks) };
}

impl<C: Chunk> ChunkedSeries<C> {
    // An empty series.
    pub(crate) fn new(alloc: Global, options: Options) -> ChunkedSeries<C>
        ensures options { result.options ≡ options }
        ensures empty { list_of result ≡ [] }
        ensures high { result.high ≡ None }
        ensures born { result.born ≡ 0 }
        ensures kept { IsKeptIn C.format result }
    {
        ChunkedSeries {
            alloc,
            options,
            chunks: Chunks::new(alloc),
            high: None,
            born: 0,
        }
    }

    // The series' options.
    pub(crate) fn options(&self) -> Options
        ensures { result ≡ self.now.options }
    {
        self.options
    }

    // The duplicate policy: what a write does at a time that has a sample.
    pub(crate) fn policy(&self) -> Policy
        ensures { result ≡ self.now.options.policy }
    {
        self.options.policy
    }

    // The highest time, in milliseconds, that the series ever had a sample at.
    pub(crate) fn high(&self) -> Option<u64>
        ensures { result ≡ self.now.high }
    {
        self.high
    }

    // The number of rules ever created on the series.
    pub(crate) fn born(&self) -> u32
        ensures { result ≡ self.now.born }
    {
        self.born
    }

    // The retention edge: the earliest time that the series keeps, in milliseconds.
    pub(crate) fn edge(&self) -> u64
        ensures { result ≡ low self.now }
    {
        edge_at(self.options.retention, self.high)
    }

    // The retention edge after writing `rows`, in milliseconds.
    pub(crate) fn edge_with(&self, rows: &[Sample]) -> u64
        requires { IsAscending rows.now }
        ensures { result ≡ edge_of self.now.options.retention (high_after_rows rows.now self.now.high) }
    {
        edge_at(self.options.retention, high_after(rows, self.high))
    }

    // The last sample.
    pub(crate) fn last(&self) -> Option<Sample>
        ensures { result ≡ last_of (list_of self.now) }
    {
        self.chunks.last()
    }

    // Carries out the plan.
    pub(crate) fn commit(&mut self, plan: ChunkedSeriesPlan<C>)
        requires { IsForIn C.format plan self.old }
        ensures done { self.new ≡ record (after plan self.old) { held = self.new.held } }
        ensures kept { IsKeptIn C.format self.new }
        ensures limits { KeepsLimits self.old self.new }
        ensures reach { KeepsReach self.old self.new }
    {
        let ChunkedSeriesPlan {
            cut: _,
            removed: _,
            encoding: _,
            wrote,
            options,
            change,
            larger,
        } = plan;
        let high = high_after(wrote.as_slice(), self.high);
        let options = options.unwrap_or(self.options);
        self.chunks.grow_capacity(larger);
        self.chunks.apply(change);
        self.chunks.expire(edge_at(options.retention, high));
        self.options = options;
        self.high = high;
    }

    // Counts one more rule created on the series.
    pub(crate) fn raise_born(&mut self)
        requires { self.old.born < 2 ^ 32 - 1 }
        ensures raised { self.new ≡ record self.old { born = self.old.born + 1 } }
        ensures kept { IsKeptIn C.format self.new }
    {
        self.born += 1;
    }
}

// Fails to compile if a field is added, such as a second copy of the samples.
fn fields<C: Chunk>(it: &ChunkedSeries<C>) {
    let ChunkedSeries {
        alloc: _,
        options: _,
        chunks: _,
        high: _,
        born: _,
    } = it;
}

// The retention edge: the earliest time, in milliseconds, that a series with this retention and this highest time
// keeps.
pub(crate) fn edge_at(retention: u64, high: Option<u64>) -> u64
    ensures { result ≡ edge_of retention high }
{
    match high {
        None => 0,
        Some(high) => {
            if retention == 0 {
                0
            } else {
                high.saturating_sub(retention)
            }
        }
    }
}

// The later of a time and the highest time so far.
pub(crate) fn raise(time: u64, high: Option<u64>) -> Option<u64>
    ensures { result ≡ raised time high }
{
    match high {
        None => Some(time),
        Some(high) => Some(high.max(time)),
    }
}

// The highest time after these samples are written.
pub(crate) fn high_after(rows: &[Sample], high: Option<u64>) -> Option<u64>
    requires { IsAscending rows.now }
    ensures { result ≡ high_after_rows rows.now high }
{
    match rows.last() {
        None => high,
        Some(last) => raise(last.time, high),
    }
}

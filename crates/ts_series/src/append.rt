// Writes that only the last sample decides: one appended to the last chunk, the fast path of most writes, and one that
// IGNORE drops because it is close to the last sample.
ghost use Rattle.std.specs.Prelude.{◌≡◌, ◌≤◌, true, IfSome, Some, Ok};
ghost use Rattle.ts_spec.specs.Sample.{MAX_TIME, last_of};
ghost use Rattle.ts_spec.specs.declared.series.Merge.{Merge as TheMerge};
ghost use Rattle.ts_spec.specs.Ignoring.{is_near, is_close, ignored_after};
ghost use Rattle.ts_sample.specs.Chunk.{IsPast};
ghost use Rattle.ts_series.specs.Stored.{points, LastChunkFits};
ghost use Rattle.ts_series.specs.History.{reach, IsKeptIn, KeepsLimits, list_of};
ghost use Rattle.ts_series.specs.Plan.{IsForIn, after, appends};
ghost use Rattle.ts_series.specs.Put.{met, PutAnswers};

use crate::chunked_series::{ChunkedSeries, edge_at, raise};
use crate::chunks::Chunks;
use crate::series::{Series, SeriesByEncoding};
use std::marker::Model;
use ts_sample::{Chunk, Sample, Units};
use ts_spec::{Encoding, Ignore, Policy};

/// A planned append of one sample to the last chunk. It allocates nothing.
#[derive(Drop)]
pub struct Append {
    pub(crate) sample: Sample,
    // The encoding of the series that the plan was made for.
    pub(crate) encoding: Encoding,
}

impl Model for Append {
    ghost use Rattle.ts_series.specs.Plan.{Plan, appends};

    ghost Value = { Plan };

    ghost view = { λ a. appends a.encoding a.sample };
}

impl Append {
    /// The sample to write.
    pub fn sample(&self) -> Sample
        ensures { self.now ≡ appends self.now.encoding result }
    {
        self.sample
    }
}

impl<C: Chunk> ChunkedSeries<C> {
    // Plans a write after the last sample, if the last chunk can hold it and the series cannot be full. `None` says
    // nothing about whether the write is valid otherwise.
    pub(crate) fn plan_append(&self, time: u64, value: Units, limit: u32) -> Option<Append>
        requires { time ≤ MAX_TIME }
        ensures planned { IfSome result (λ plan. IsForIn C.format plan self.now) }
        ensures answer { (how : TheMerge)
            → IfSome result (λ plan. PutAnswers (met how time value self.now) limit time self.now (Ok plan)) }
    {
        if time < self.edge() {
            return None;
        }
        if self.is_late(time) {
            return None;
        }
        if self.chunks.len() >= limit as usize {
            return None;
        }
        let made = self.born;
        let sample = Sample { time, value, made };
        if !self.chunks.last_chunk_fits(&sample) {
            return None;
        }
        let encoding = self.options.encoding;
        Some(Append { sample, encoding })
    }

    // Carries out the plan.
    pub(crate) fn commit_append(&mut self, plan: Append)
        requires { IsForIn C.format plan self.old }
        ensures done { self.new ≡ record (after plan self.old) { held = self.new.held } }
        ensures kept { IsKeptIn C.format self.new }
        ensures limits { KeepsLimits self.old self.new }
        ensures reach { reach self.new ≤ reach self.old }
    {
        let sample = plan.sample();
        let high = raise(sample.time, self.high);
        self.chunks.append(&sample);
        self.chunks.expire(edge_at(self.options.retention, high));
        self.high = high;
    }
}

impl<C: Chunk> Chunks<C> {
    // Whether there is a last chunk that can hold a sample after its last one.
    fn last_chunk_fits(&self, sample: &Sample) -> bool
        requires past { IsPast (last_of (points self.now)) sample.now.time }
        ensures room { result ≡ true → LastChunkFits C.format (Some sample.now) self.now.pieces self.now.limits }
    {
        match self.chunks.back() {
            None => false,
            Some(chunk) => chunk.fits(sample),
        }
    }
}

impl Series {
    /// The time of the last sample, in milliseconds, if the series ignores a sample with this time and value as too
    /// close to it. This applies only with the policy `Last` and if no rule writes to the series, which the caller
    /// has checked. Decodes nothing.
    pub fn ignored(&self, time: u64, value: Units) -> Option<u64>
        ensures { result ≡ ignored_after self.now.options (last_of (list_of self.now)) time value }
    {
        match &self.by_encoding {
            SeriesByEncoding::Plain(line) => line.ignored(time, value),
            SeriesByEncoding::Packed(line) => line.ignored(time, value),
        }
    }
}

impl<C: Chunk> ChunkedSeries<C> {
    // The time of the last sample, if the series ignores a sample with this time and value.
    fn ignored(&self, time: u64, value: Units) -> Option<u64>
        ensures { result ≡ ignored_after self.now.options (last_of (list_of self.now)) time value }
    {
        if self.options.policy != Policy::Last {
            return None;
        }
        let Some(last) = self.last() else {
            return None;
        };
        if is_close(&self.options.ignore, &last, time, value) {
            Some(last.time)
        } else {
            None
        }
    }
}

// Whether a sample is close to the last one: not before it, not too much later, and with a value that differs too
// little.
fn is_close(most: &Ignore, last: &Sample, time: u64, value: Units) -> bool
    ensures { result ≡ is_close most.now last.now time value }
{
    if time < last.time {
        return false;
    }
    if time - last.time > most.time {
        return false;
    }
    is_near(most.value, last.value, value)
}

// Whether two values differ by at most `most`.
fn is_near(most: Units, old: Units, new: Units) -> bool
    ensures { result ≡ is_near most old new }
{
    (new.get() - old.get()).abs() <= most.get()
}

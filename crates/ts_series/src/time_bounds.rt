// Where a scan for a number of samples may stop or start.
ghost use Rattle.std.specs.Prelude.{◌≡◌, ◌≤◌, ◌+◌, ◌⊎◌, nat_lt, [], length, drop, take};
ghost use Rattle.ts_spec.specs.Sample.{at_times, between};
ghost use Rattle.ts_sample.specs.Chunk.{joined};
ghost use Rattle.ts_series.specs.Stored.{points};
ghost use Rattle.ts_series.specs.History.{list_of};
ghost use Rattle.ts_series.specs.Seams.{IsSeam};

use crate::chunked_series::ChunkedSeries;
use crate::chunks::Chunks;
use ts_sample::Chunk;

impl<C: Chunk> Chunks<C> {
    // The number of chunks that start before `time`.
    fn begun_before(&self, time: u64) -> usize
        ensures within { result ≤ length self.now.pieces }
        ensures later { at_times (λ t. nat_lt t time) (joined (drop result self.now.pieces)) ≡ [] }
    {
        if time == 0 {
            return 0;
        }
        self.upto(time - 1)
    }

    // An end time for a scan from `from` that yields at least `count` samples, or `to`. Decodes nothing.
    pub(crate) fn end_for_count(&self, from: u64, to: u64, count: u64) -> u64
        requires { from ≤ to }
        ensures within { (from ≤ result) × (result ≤ to) }
        ensures reach { (result ≡ to) ⊎ (count ≤ length (between from result (points self.now))) }
        ensures seam { (result ≡ to) ⊎ IsSeam (result + 1) self.now.pieces }
    {
        // Does nothing at run time: it tells the proof that the total count does not overflow.
        let _all = self.len();
        let start = self.begun_before(from);
        let mut found = 0;
        for place in start..self.chunks.len() {
            let chunk = &self.chunks[place];
            found += chunk.len();
            if count <= found as u64 {
                return match chunk.last() {
                    None => to,
                    Some(last) => last.time.min(to),
                };
            }
        }
        to
    }

    // The number of chunks that end at or before `time`.
    fn ended_by(&self, time: u64) -> usize
        ensures within { result ≤ length self.now.pieces }
        ensures earlier { at_times (nat_lt time) (joined (take result self.now.pieces)) ≡ [] }
    {
        self.before(time.saturating_add(1))
    }

    // A start time for a scan up to `to` that yields at least `count` samples, or `from`. Decodes nothing.
    pub(crate) fn start_for_count(&self, from: u64, to: u64, count: u64) -> u64
        requires { from ≤ to }
        ensures within { (from ≤ result) × (result ≤ to) }
        ensures reach { (result ≡ from) ⊎ (count ≤ length (between result to (points self.now))) }
        ensures seam { (result ≡ from) ⊎ IsSeam result self.now.pieces }
    {
        // Does nothing at run time: it tells the proof that the total count does not overflow.
        let _all = self.len();
        let end = self.ended_by(to);
        let mut found = 0;
        for place in (0..end).rev() {
            let chunk = &self.chunks[place];
            found += chunk.len();
            if count <= found as u64 {
                return match chunk.first() {
                    None => from,
                    Some(first) => first.time.max(from),
                };
            }
        }
        from
    }
}

impl<C: Chunk> ChunkedSeries<C> {
    // An end time, in milliseconds, for a scan from `from` that yields at least `count` samples, or `to`. Decodes
    // nothing.
    pub(crate) fn end_for_count(&self, from: u64, to: u64, count: u64) -> u64
        requires { from ≤ to }
        ensures within { (from ≤ result) × (result ≤ to) }
        ensures reach { (result ≡ to) ⊎ (count ≤ length (between from result (list_of self.now))) }
        ensures seam { (result ≡ to) ⊎ IsSeam (result + 1) self.now.held.pieces }
    {
        let start = from.max(self.edge());
        if to < start {
            return to;
        }
        self.chunks.end_for_count(start, to, count)
    }

    // A start time, in milliseconds, for a scan up to `to` that yields at least `count` samples, or `from`. Decodes
    // nothing.
    pub(crate) fn start_for_count(&self, from: u64, to: u64, count: u64) -> u64
        requires { from ≤ to }
        ensures within { (from ≤ result) × (result ≤ to) }
        ensures reach { (result ≡ from) ⊎ (count ≤ length (between result to (list_of self.now))) }
        ensures seam { (result ≡ from) ⊎ IsSeam result self.now.held.pieces }
    {
        let start = from.max(self.edge());
        if to < start {
            return from;
        }
        let time = self.chunks.start_for_count(start, to, count);
        if time == start {
            return from;
        }
        time
    }
}

// Replaces an interval's samples with rows, or deletes them. Rules update their destinations this way.
ghost use Rattle.std.specs.Prelude.{◌≡◌, ◌*◌, nat_lt, nat_le, length, IfOk};
ghost use Rattle.ts_spec.specs.Sample.{IsAscending, at_times, between, outside, put_all};
ghost use Rattle.ts_spec.specs.StoredUpdates.{high_after_rows};
ghost use Rattle.ts_sample.specs.Chunk.{joined, AreMade};
ghost use Rattle.ts_sample.specs.Steps.{Takes};
ghost use Rattle.ts_series.specs.Stored.{points, pieces_after, IsReady, HasLimits};
ghost use Rattle.ts_series.specs.History.{list_of, limit_for, reach};
ghost use Rattle.ts_series.specs.Plan.{AreWithin, IsForIn, after, Cuts};
ghost use Rattle.ts_series.specs.Mend.{IsUpdateAnswer, IsRowPast, list_after_update};

use crate::change::Change;
use crate::chunked_series::{ChunkedSeries, edge_at, high_after};
use crate::chunked_series_plan::{ChunkedSeriesPlan, Interval, Rows};
use crate::chunks::new_limit;
use crate::plan::PutFault;
use std::alloc::AllocError;
use std::sync::ledger::Ledger;
use ts_sample::{Chunk, Sample, Steps, lower_bound};

#[tactic(auto, using(crate::proofs::Reach::within_reach))]
impl<C: Chunk> ChunkedSeries<C> {
    // Plans to replace the samples from `from` to `to`, in milliseconds, both inclusive, with `rows`, whose times are
    // in the interval. Fails with `Full` if the series then has more than `limit` samples, even if memory runs out
    // too.
    pub(crate) fn mend<L: Ledger>(
        &self,
        from: u64,
        to: u64,
        rows: &[Sample],
        limit: u32,
        steps: &mut Steps<L>,
    ) -> Result<ChunkedSeriesPlan<C>, PutFault>
        requires ascending { IsAscending rows.now }
        requires within { AreWithin from to rows.now }
        requires made { AreMade self.now.born rows.now }
        ensures planned { IfOk result (λ plan. IsForIn C.format plan self.now) }
        ensures answer { IsUpdateAnswer from to rows.now limit self.now result }
        ensures steps { Takes steps.old steps.new (3 * reach self.now) }
        ensures easy { IsRowPast from to rows.now limit self.now → steps.new ≡ steps.old }
    {
        let size = new_limit(self.options.chunk_size);
        let (updated_list, removed) = self
            .chunks
            .updated_list(self.alloc, from, to, rows, size, steps);
        if self.exceeds(limit, from, to, rows, removed, steps) {
            return Err(PutFault::Full);
        }
        let change = match updated_list {
            Ok(change) => change,
            Err(fault) => return Err(PutFault::Memory(fault)),
        };
        match self.with_change(from, to, rows, change) {
            Ok(plan) => Ok(plan),
            Err(fault) => Err(PutFault::Memory(fault)),
        }
    }

    // The plan that updates the interval by this change of the chunks.
    fn with_change(
        &self,
        from: u64,
        to: u64,
        rows: &[Sample],
        change: Change<C>,
    ) -> Result<ChunkedSeriesPlan<C>, AllocError>
        requires ascending { IsAscending rows.now }
        requires made { AreMade self.now.born rows.now }
        requires ready { IsReady C.format self.now.held change }
        requires limits { HasLimits (limit_for self.now.options.chunk_size) self.now.held.limits change }
        requires list { joined (pieces_after change self.now.held.pieces)
            ≡ put_all rows.now (outside from to (points self.now.held)) }
        ensures planned { IfOk result (λ plan. IsForIn C.format plan self.now) }
        ensures list { IfOk result (λ plan. list_of (after plan self.now)
            ≡ list_after_update from to rows.now self.now) }
        ensures high { IfOk result (λ plan. (after plan self.now).high ≡ high_after_rows rows.now self.now.high) }
        ensures options { IfOk result (λ plan. (after plan self.now).options ≡ self.now.options) }
    {
        let larger = self.chunks.larger(&change, self.alloc)?;
        let wrote = Rows::of(self.alloc, rows)?;
        Ok(ChunkedSeriesPlan {
            cut: Some(Interval { from, to }),
            removed: 0,
            encoding: self.options.encoding,
            wrote,
            options: None,
            change,
            larger,
        })
    }

    // Whether the series would have more than `limit` samples after `rows` replace the `removed` samples of the
    // interval. Samples that expire because the rows raise the retention edge do not count.
    fn exceeds<L: Ledger>(
        &self,
        limit: u32,
        from: u64,
        to: u64,
        rows: &[Sample],
        removed: usize,
        steps: &mut Steps<L>,
    ) -> bool
        requires ascending { IsAscending rows.now }
        requires within { AreWithin from to rows.now }
        requires removed { removed ≡ length (between from to (points self.now.held)) }
        ensures exceeds { result ≡ nat_lt limit (length (list_after_update from to rows.now self.now)) }
        ensures steps { Takes steps.old steps.new (reach self.now) }
        ensures easy { IsRowPast from to rows.now limit self.now → steps.new ≡ steps.old }
    {
        if self.chunks.len().saturating_add(rows.len()) <= limit as usize {
            return false;
        }
        let edge = edge_at(self.options.retention, high_after(rows, self.high));
        let left = self.count_left(edge, from, to, removed, steps);
        let written = rows.len() - lower_bound(rows, edge);
        (limit as usize) < left.saturating_add(written)
    }

    // The number of samples at or after `edge` without the `removed` samples from `from` to `to`.
    fn count_left<L: Ledger>(
        &self,
        edge: u64,
        from: u64,
        to: u64,
        removed: usize,
        steps: &mut Steps<L>,
    ) -> usize
        requires removed { removed ≡ length (between from to (points self.now.held)) }
        ensures left { result ≡ length (at_times (nat_le edge) (outside from to (points self.now.held))) }
        ensures steps { Takes steps.old steps.new (reach self.now) }
    {
        let all = self.chunks.len();
        if to < edge {
            return all - self.chunks.count_before(edge, steps);
        }
        all - removed - self.chunks.count_before(from.min(edge), steps)
    }
}

impl<C: Chunk> ChunkedSeries<C> {
    // Plans the deletion of the samples from `from` to `to`, in milliseconds, both inclusive. The interval is empty
    // if `from` is above `to`. The retention edge does not move.
    pub(crate) fn cut<L: Ledger>(
        &self,
        from: u64,
        to: u64,
        steps: &mut Steps<L>,
    ) -> Result<ChunkedSeriesPlan<C>, AllocError>
        ensures planned { IfOk result (λ plan. IsForIn C.format plan self.now) }
        ensures cut { IfOk result (Cuts from to (length (between from to (list_of self.now)))) }
        ensures steps { Takes steps.old steps.new (3 * reach self.now) }
    {
        let (change, removed) = self
            .chunks
            .without(self.alloc, from.max(self.edge()), to, steps)?;
        let larger = self.chunks.larger(&change, self.alloc)?;
        Ok(ChunkedSeriesPlan {
            cut: Some(Interval { from, to }),
            removed: removed as u64,
            encoding: self.options.encoding,
            wrote: Rows::Empty,
            options: None,
            change,
            larger,
        })
    }
}

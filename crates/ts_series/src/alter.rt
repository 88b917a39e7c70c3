// Changes a series' options and drops the samples that a new retention expires.
ghost use Rattle.std.specs.Prelude.{◌≡◌, ℕ, ◌*◌, nat_le, IfOk};
ghost use Rattle.ts_spec.specs.Sample.{at_times};
ghost use Rattle.ts_sample.specs.Chunk.{joined};
ghost use Rattle.ts_sample.specs.Steps.{Takes};
ghost use Rattle.ts_series.specs.Stored.{longest, pieces_after, IsReady, HasLimits};
ghost use Rattle.ts_series.specs.History.{list_of, reach};
ghost use Rattle.ts_series.specs.Plan.{IsForIn, Alters, options_with};

use crate::change::Change;
use crate::chunked_series::{ChunkedSeries, edge_at};
use crate::chunked_series_plan::{ChunkedSeriesPlan, Rows};
use std::alloc::AllocError;
use std::sync::ledger::Ledger;
use ts_sample::{Chunk, Steps};
use ts_spec::{Ignore, Options, Policy};

impl<C: Chunk> ChunkedSeries<C> {
    // Plans new options; `None` leaves an option as it is. `retention` is in milliseconds, and 0 keeps samples
    // forever. `chunk_size` is in bytes and applies to chunks created later. Drops samples before the old or the new
    // retention edge.
    pub(crate) fn alter<L: Ledger>(
        &self,
        retention: Option<u64>,
        chunk_size: Option<u32>,
        policy: Option<Policy>,
        ignore: Option<Ignore>,
        steps: &mut Steps<L>,
    ) -> Result<ChunkedSeriesPlan<C>, AllocError>
        ensures planned { IfOk result (λ plan. IsForIn C.format plan self.now) }
        ensures options { IfOk result (Alters (options_with retention chunk_size policy ignore self.now.options)) }
        ensures steps { Takes steps.old steps.new (2 * reach self.now) }
    {
        let old = self.options;
        let options = Options {
            retention: retention.unwrap_or(old.retention),
            encoding: old.encoding,
            chunk_size: chunk_size.unwrap_or(old.chunk_size),
            policy: policy.unwrap_or(old.policy),
            ignore: ignore.unwrap_or(old.ignore),
        };
        let change = self.without_expired(edge_at(options.retention, self.high), steps)?;
        let larger = self.chunks.larger(&change, self.alloc)?;
        Ok(ChunkedSeriesPlan {
            cut: None,
            removed: 0,
            encoding: self.options.encoding,
            wrote: Rows::Empty,
            options: Some(options),
            change,
            larger,
        })
    }

    // The chunks without the samples before `edge`, for when the new options lower the edge.
    fn without_expired<L: Ledger>(
        &self,
        edge: u64,
        steps: &mut Steps<L>,
    ) -> Result<Change<C>, AllocError>
        ensures ready { IfOk result (λ c. IsReady C.format self.now.held c) }
        ensures limits { (one : ℕ) → IfOk result (λ c. HasLimits one self.now.held.limits c) }
        ensures list { IfOk result (λ c. at_times (nat_le edge) (joined (pieces_after c self.now.held.pieces))
            ≡ at_times (nat_le edge) (list_of self.now)) }
        ensures steps { Takes steps.old steps.new (2 * longest self.now.held.pieces) }
    {
        let old = self.edge();
        if edge < old {
            let (change, _removed) = self.chunks.without(self.alloc, 0, old - 1, steps)?;
            Ok(change)
        } else {
            Ok(Change::nothing(self.alloc))
        }
    }
}

// Reduces the rows of a group, time by time, as they arrive.
ghost use Rattle.std.specs.Prelude.{◌≡◌, false, List, []};
ghost use Rattle.ts_spec.specs.Answer.{Row as TheRow};
ghost use Rattle.ts_group.specs.Rows.{group_rows};
ghost use Rattle.ts_group.specs.Summaries.{HasAccepted};

use crate::rows::GroupRows;
use crate::summaries::Summaries;
use std::alloc::Global;
use std::marker::Model;
use ts_agg::Reducer;
use ts_range::{FallibleRowSink, Row, RowSink};

/// A sink that aggregates the rows of a group by time. Its memory grows with the number of distinct times, not with the
/// number of rows. Rows may arrive in any order of time.
#[derive(Drop)]
pub struct Reduction {
    kept: Summaries,
    // Whether memory ran out for a row.
    lost: bool,
}

impl Model for Reduction {
    ghost use Rattle.ts_group.specs.Summaries.{ReductionState, AreTimely};

    ghost Value = { ReductionState };

    ghost view = { λ r. record { summaries = r.kept; lost = r.lost } };

    ghost invariant = { λ r. AreTimely r.kept };
}

impl Reduction {
    /// No rows yet. Allocates nothing.
    pub fn new(alloc: Global) -> Reduction
        ensures taken { HasAccepted result [] }
        ensures kept { result.lost ≡ false }
    {
        Reduction {
            kept: Summaries::new(alloc),
            lost: false,
        }
    }

    /// Whether memory ran out for a row.
    pub fn is_lost(&self) -> bool
        ensures { result ≡ self.now.lost }
    {
        self.lost
    }

    /// The reduced rows, at most `count` of them, newest first if `reverse`. Allocates nothing.
    pub fn rows(&self, reducer: Reducer, count: Option<u64>, reverse: bool) -> GroupRows<'_>
        ensures { (rows : List TheRow) → HasAccepted self.now rows → self.now.lost ≡ false
            → result ≡ group_rows reducer count reverse rows }
    {
        GroupRows::new(&self.kept, reducer, count, reverse)
    }
}

impl RowSink for Reduction {
    ghost use Rattle.ts_range.specs.SinkState.{no_limit};

    ghost has = { λ r rows. HasAccepted r rows };

    ghost limit = { λ r. no_limit };

    fn row(&mut self, row: Row) {
        if self.lost {
            return;
        }
        match self.kept.add(row) {
            Ok(()) => {}
            Err(_) => self.lost = true,
        }
    }

    fn is_full(&self) -> bool {
        self.lost
    }
}

impl FallibleRowSink for Reduction {
    fn lose(&mut self) {
        self.lost = true;
    }
}

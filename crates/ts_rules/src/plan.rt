// The plan of a change for one rule: the rule after it, and the update of its destination.
ghost use Rattle.std.specs.Prelude.{Some, ◌≡◌, ◌≤◌, ◌*◌, false, length};
ghost use Rattle.std.specs.Option.{ForSome};
ghost use Rattle.ts_spec.specs.Sample.{MAX_TIME, IsAscending, is_within};
ghost use Rattle.ts_sample.specs.Steps.{Takes};
ghost use Rattle.ts_sample.specs.Chunk.{AreMade};
ghost use Rattle.ts_series.specs.History.{list_of, reach};
ghost use Rattle.ts_series.specs.Mend.{IsRowPast};
ghost use Rattle.ts_series.specs.Plan.{AreWithin};
ghost use Rattle.ts_rules.specs.FaultNames.{name_of};
ghost use Rattle.ts_rules.specs.Rules.{one_of};
ghost use Rattle.ts_rules.specs.Plans.{IsUpdate};
ghost use Rattle.ts_rules.specs.Shares.{IsPastAll};

use crate::rule::Rule;
use std::alloc::AllocError;
use std::fmt;
use std::sync::ledger::Ledger;
use thiserror::Error;
use ts_sample::{Sample, Steps};
use ts_series::{PutFault, Series, SeriesPlan};

/// The planned effect of a change of a source on one of its rules.
#[derive(Drop)]
pub struct RulePlan {
    /// The rule after the change.
    pub rule: Rule,
    /// The change of the destination, or `None` if it stays as it is.
    pub dest: Option<SeriesPlan>,
}

/// Why a change fails for a rule.
#[derive(Drop, Error)]
pub enum RuleFault {
    /// The destination would have too many samples.
    #[error("too many samples of a destination")]
    Full,
    /// Out of memory.
    #[error(transparent)]
    Memory(AllocError),
}

impl fmt::Debug for RuleFault {
    ghost debug_output = { λ fault. Some (name_of fault) };

    fn fmt<W: fmt::Write>(&self, f: &mut fmt::Formatter<W>) -> fmt::Result {
        f.write_str(match self {
            RuleFault::Full => "Full",
            RuleFault::Memory(_) => "Memory(AllocError)",
        })
    }
}

// Replaces the destination's samples from `from` to `to` with `rows`. Fails with `Full` if it then exceeds the limit,
// even if memory runs out too.
pub(crate) fn updated_list<L: Ledger>(
    dest: &Series,
    from: u64,
    to: u64,
    rows: &[Sample],
    limit: u32,
    steps: &mut Steps<L>,
) -> Result<Option<SeriesPlan>, RuleFault>
    requires ascending { IsAscending rows.now }
    requires within { AreWithin from to rows.now }
    requires made { AreMade dest.now.born rows.now }
    ensures updated_list { IsUpdate limit (is_within from to) rows.now dest.now result }
    ensures steps { Takes steps.old steps.new (3 * reach dest.now) }
    ensures easy { IsRowPast from to rows.now limit dest.now → steps.new ≡ steps.old }
{
    match dest.mend(from, to, rows, limit, steps) {
        Ok(plan) => Ok(Some(plan)),
        Err(PutFault::Full) => Err(RuleFault::Full),
        Err(PutFault::Memory(fault)) => Err(RuleFault::Memory(fault)),
        Err(_) => unreachable!(),
    }
}

// Writes this row to the destination, if there is one.
pub(crate) fn with_row<L: Ledger>(
    dest: &Series,
    row: Option<Sample>,
    limit: u32,
    steps: &mut Steps<L>,
) -> Result<Option<SeriesPlan>, RuleFault>
    requires made { AreMade dest.now.born (one_of row) }
    requires fits { length (list_of dest.now) ≤ limit }
    ensures updated_list { IsUpdate limit (λ t. false) (one_of row) dest.now result }
    ensures steps { Takes steps.old steps.new (3 * reach dest.now) }
    ensures easy { ForSome row (λ row. IsPastAll limit dest.now row.time) → steps.new ≡ steps.old }
{
    dest.known();
    match row {
        None => Ok(None),
        Some(row) => updated_list(dest, row.time, row.time, &[row], limit, steps),
    }
}

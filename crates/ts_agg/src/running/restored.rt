// The parts of a running summary, as a checkpoint stores them, and back.
ghost use Rattle.std.specs.Prelude.{◌≡◌, ◌≤◌, ◌↔◌, List, unsigned_abs, IsSome, IfSome};
ghost use Rattle.ts_spec.specs.Sample.{Point};
ghost use Rattle.ts_spec.specs.Value.{bound};
ghost use Rattle.ts_restore.specs.Summaries.{IsShortSummary, summary_of};
ghost use Rattle.ts_agg.specs.Running.{Summarizes};

use super::Running;
use ts_restore::{SummaryParts, is_summary};

impl Running {
    /// The summary with these parts, or `None` if no list of at most 10^14 samples has such a summary.
    pub fn restored(parts: SummaryParts) -> Option<Running>
        ensures valid { IsSome result ↔ IsShortSummary (summary_of parts) }
        ensures value { IfSome result (λ r. r ≡ summary_of parts) }
    {
        if !is_summary(&parts) {
            return None;
        }
        known(&parts);
        Some(Running {
            sum: parts.sum,
            least: parts.least,
            greatest: parts.greatest,
            first: parts.first,
            last: parts.last,
            count: parts.count,
        })
    }

    /// Its parts. `restored` accepts them if it summarizes some samples, and returns the same summary.
    pub fn parts(&self) -> SummaryParts
        ensures value { summary_of result ≡ self.now }
        ensures valid { (ps : List Point) → Summarizes self.now ps → IsShortSummary (summary_of result) }
    {
        SummaryParts {
            count: self.count,
            sum: self.sum,
            least: self.least,
            greatest: self.greatest,
            first: self.first,
            last: self.last,
        }
    }
}

// Does nothing at run time. Its contract gives the prover the bounds of the values.
fn known(parts: &SummaryParts)
    ensures least { unsigned_abs parts.now.least ≤ bound }
    ensures greatest { unsigned_abs parts.now.greatest ≤ bound }
    ensures first { unsigned_abs parts.now.first ≤ bound }
    ensures last { unsigned_abs parts.now.last ≤ bound }
{
    let _least = parts.least.get();
    let _greatest = parts.greatest.get();
    let _first = parts.first.get();
    let _last = parts.last.get();
}

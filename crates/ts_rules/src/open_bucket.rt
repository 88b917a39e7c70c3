// The open bucket of a rule, and the rows of its buckets.
ghost use Rattle.std.specs.Prelude.{◌≡◌, ◌≤◌};
ghost use Rattle.std.specs.Option.{ForSome};
ghost use Rattle.ts_spec.specs.Sample.{MAX_TIME, first_of};
ghost use Rattle.ts_spec.specs.StoredUpdates.{bucket_row};
ghost use Rattle.ts_rules.specs.Rules.{IsOpenAt, open_row, one_of};

use crate::rule::Rule;
use ts_agg::Running;
use ts_sample::Sample;
use ts_spec::Aggregator;

/// The row that the destination would get for the open bucket, or `None` if the bucket is empty. `born` is the
/// destination's rule count. Allocates nothing.
pub fn latest(rule: &Rule, born: u32) -> Option<Sample>
    ensures { result ≡ first_of (open_row born rule.now) }
{
    row(rule.agg, born, rule.current?, &rule.running)
}

// The row of the bucket that starts at `start`, or `None` if the bucket is empty.
pub(crate) fn row(agg: Aggregator, born: u32, start: u64, running: &Running) -> Option<Sample>
    requires { start ≤ MAX_TIME }
    ensures { one_of result ≡ bucket_row agg born start running.now }
{
    let value = running.result(agg)?;
    Some(Sample {
        time: start,
        value,
        made: born,
    })
}

// The rule with another open bucket.
pub(crate) fn opened(rule: &Rule, current: Option<u64>, running: Running) -> Rule
    requires { ForSome current (λ t. t ≤ MAX_TIME) }
    ensures { IsOpenAt current running rule.now result }
{
    Rule {
        dest: rule.dest,
        agg: rule.agg,
        grid: rule.grid,
        made: rule.made,
        current,
        running,
    }
}

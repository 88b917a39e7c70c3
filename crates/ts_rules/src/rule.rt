// A compaction rule.
ghost use Rattle.std.specs.Prelude.{◌≡◌, ◌≤◌};
ghost use Rattle.std.specs.Option.{ForSome};
ghost use Rattle.ts_spec.specs.Sample.{MAX_TIME};
ghost use Rattle.ts_spec.specs.Rules.{is_past};

use ts_agg::Running;
use ts_bucket::Grid;
use ts_sample::Id;
use ts_spec::Aggregator;

/// A compaction rule of a source series. Once a bucket of the source's samples is closed, the rule writes its
/// aggregate to the destination series as one sample.
#[derive(Clone, Copy, Debug, PartialEq, Eq)]
pub struct Rule {
    /// The destination.
    pub dest: Id,
    pub agg: Aggregator,
    pub grid: Grid,
    /// The source's rule count once this rule was created. The rule counts the samples written since then.
    pub made: u32,
    /// The start of the open bucket, in milliseconds. All buckets before it are closed.
    pub current: Option<u64>,
    /// The running aggregate of the open bucket.
    pub running: Running,
    pub ghost in_time: { ForSome current (λ t. t ≤ MAX_TIME) },
}

impl Rule {
    // Whether the bucket that starts at `start` is before the open one.
    pub(crate) fn is_closed(&self, start: u64) -> bool
        ensures { result ≡ is_past self.now.current start }
    {
        match self.current {
            None => false,
            Some(open) => start < open,
        }
    }
}

// Fails to compile if a field is added, such as a second copy of the samples.
fn fields(it: &Rule) {
    let Rule {
        dest: _,
        agg: _,
        grid: _,
        made: _,
        current: _,
        running: _,
    } = it;
}

// What the rules of a source share while one change is planned.
ghost use Rattle.std.specs.Prelude.{◌≡◌, ◌≤◌, List};
ghost use Rattle.std.specs.Option.{ForSome};
ghost use Rattle.ts_spec.specs.Sample.{Point};
ghost use Rattle.ts_rules.specs.SharedBucket.{counted_between, IsShared};
ghost use Rattle.ts_rules.specs.SharedBuckets.{AreShared};

use std::marker::Model;
use ts_agg::Running;

/// A bucket as the last rule counted it, with the samples that the source has after the change. A later rule reuses
/// the count if it has the same bucket and counts all samples in it.
#[derive(Clone, Copy, Debug)]
pub struct SharedBucket {
    first: u64,
    last: u64,
    running: Running,
    // The smallest rule count at which any of its samples was written.
    least: u32,
}

impl Model for SharedBucket {
    ghost use Rattle.ts_rules.specs.SharedBucket.{SharedBucketState};

    ghost Value = { SharedBucketState };

    ghost view = { λ t. record { first = t.first; last = t.last; running = t.running; least = t.least } };

    ghost inverse = { λ t. record { first = t.first; last = t.last; running = t.running; least = t.least } };
}

impl SharedBucket {
    /// No bucket yet: an interval that contains no time.
    pub fn new() -> SharedBucket
        ensures { (ps : List Point) → IsShared ps result }
    {
        SharedBucket {
            first: 1,
            last: 0,
            running: Running::new(),
            least: 0,
        }
    }

    // The count of the samples from `first` to `last`, if it is known here and holds for a rule created at rule count
    // `made`.
    pub(crate) fn find(&self, first: u64, last: u64, made: u32) -> Option<Running>
        ensures { (ps : List Point) → IsShared ps self.now
            → ForSome result (λ s. s ≡ counted_between made first last ps) }
    {
        if self.first != first {
            return None;
        }
        if self.last != last {
            return None;
        }
        if self.least < made {
            return None;
        }
        Some(self.running)
    }

    // Stores what a rule counted from `first` to `last`, if it counted all samples there: the rule was created at
    // rule count `made`, and no sample was written before rule count `least`.
    pub(crate) fn keep(&mut self, first: u64, last: u64, running: Running, least: u32, made: u32)
        ensures { (ps : List Point) → IsShared ps self.old
            → (made ≤ least → IsShared ps (record { first = first; last = last; running = running; least = least }))
            → IsShared ps self.new }
    {
        if made <= least {
            *self = SharedBucket {
                first,
                last,
                running,
                least,
            };
        }
    }
}

/// The buckets that the rules of a source share while one change is planned.
#[derive(Clone, Copy, Debug)]
pub struct SharedBuckets {
    /// The bucket of a written sample, or that of the first deleted time.
    pub first: SharedBucket,
    /// The bucket of the last deleted time.
    pub last: SharedBucket,
}

impl SharedBuckets {
    /// No bucket yet.
    pub fn new() -> SharedBuckets
        ensures { (ps : List Point) → AreShared ps result }
    {
        SharedBuckets {
            first: SharedBucket::new(),
            last: SharedBucket::new(),
        }
    }
}

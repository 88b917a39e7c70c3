// The open bucket of a rule.
ghost use Rattle.std.specs.Prelude.{◌≤◌, length, IfSome};
ghost use Rattle.std.specs.Option.{ForSome};
ghost use Rattle.ts_spec.specs.Sample.{MAX_TIME};

use crate::texts::{sample_at, split, time_of};
use std::alloc::{AllocError, Global};
use ts_agg::Running;
use ts_sample::MAX_TIME;

/// Where it starts, if there is one, and the values that it counts, in millionths.
#[derive(Drop)]
pub(crate) struct OpenBucket {
    start: Option<u64>,
    counted: Vec<i128>,
}

impl OpenBucket {
    pub(crate) fn none(alloc: Global) -> OpenBucket {
        OpenBucket {
            start: None,
            counted: Vec::new(alloc),
        }
    }

    /// The bucket in a text such as `10 5 6` or `none`.
    pub(crate) fn of(alloc: Global, text: &str) -> Result<OpenBucket, AllocError> {
        let (start, values) = split(text);
        let mut counted = Vec::new(alloc);
        for word in values.split(' ') {
            if let Ok(value) = word.parse::<i128>() {
                counted.push(value)?;
            }
        }
        Ok(OpenBucket {
            start: time_of(start),
            counted,
        })
    }

    pub(crate) fn start(&self) -> Option<u64>
        ensures { ForSome result (λ t. t ≤ MAX_TIME) }
    {
        self.start.filter(|time| *time <= MAX_TIME)
    }

    /// The summary of the values, if there are at most a hundred.
    pub(crate) fn running(&self) -> Option<Running>
        ensures { IfSome result (λ running. running.count ≤ 100) }
    {
        if self.counted.len() > 100 {
            return None;
        }
        summed(&self.counted)
    }
}

fn summed(counted: &[i128]) -> Option<Running>
    requires { length counted.now ≤ 100 }
    ensures { IfSome result (λ running. running.count ≤ 100) }
{
    let mut running = Running::new();
    for millionths in counted {
        running.push(&sample_at(0, *millionths)?);
    }
    Some(running)
}

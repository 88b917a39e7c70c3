// The values of options. Options come in any order, so they are collected before a command is built from them.
ghost use Rattle.std.specs.Prelude.{◌≡◌, ◌≤◌, [], unwrap_or};
ghost use Rattle.std.specs.Option.{ForSome};
ghost use Rattle.ts_spec.specs.Sample.{MAX_TIME};
ghost use Rattle.ts_spec.specs.Settings.{IsTime};
ghost use Rattle.ts_spec.specs.SeriesOptions.{IsChunkSize};

use crate::range_given::RangeGiven;
use crate::range_options::GroupBy;
use std::alloc::Global;
use ts_labels::{Change, Filter, Labels, Show, Spec};
use ts_spec::{At, Encoding, Ignore, Options, Policy};

// The default chunk size, in bytes.
const DEFAULT_CHUNK_SIZE: u32 = 4096;

// The option values of a command so far.
#[derive(Drop)]
pub(crate) struct Given {
    pub(crate) retention: Option<u64>,
    pub(crate) encoding: Option<Encoding>,
    pub(crate) chunk_size: Option<u32>,
    pub(crate) policy: Option<Policy>,
    pub(crate) ignore: Option<Ignore>,
    pub(crate) on: Option<Policy>,
    pub(crate) at: Option<At>,
    pub(crate) labels: Option<Labels>,
    pub(crate) range: RangeGiven,
    // LATEST: whether open buckets count too.
    pub(crate) latest: bool,
    pub(crate) show: Option<Show>,
    pub(crate) filters: Option<Vec<Filter>>,
    pub(crate) group: Option<GroupBy>,
    ghost retention_fits: { ForSome retention (λ n. n ≤ MAX_TIME) },
    ghost chunk_size_fits: { ForSome chunk_size IsChunkSize },
    ghost ignore_fits: { ForSome ignore (λ i. i.time ≤ MAX_TIME) },
    ghost at_fits: { ForSome at IsTime },
}

impl Given {
    ghost use Rattle.ts_spec.specs.Settings.{nothing};
    ghost use Rattle.ts_spec.specs.SeriesOptions.{spec, change};
    ghost use Rattle.ts_labels.specs.Spec.{spec_of, change_of};
    ghost use Rattle.ts_command.specs.Given.{given_of};

    pub(crate) fn nothing() -> Given
        ensures { given_of result ≡ nothing }
    {
        Given {
            retention: None,
            encoding: None,
            chunk_size: None,
            policy: None,
            ignore: None,
            on: None,
            at: None,
            labels: None,
            range: RangeGiven::nothing(),
            latest: false,
            show: None,
            filters: None,
            group: None,
        }
    }

    // The default options of a new series.
    pub(crate) fn default_spec(alloc: Global) -> Spec
        ensures { spec_of result ≡ spec nothing }
    {
        Spec {
            options: Options {
                retention: 0,
                encoding: Encoding::Compressed,
                chunk_size: DEFAULT_CHUNK_SIZE,
                policy: Policy::Block,
                ignore: Ignore::EQUAL,
            },
            labels: Labels::new(alloc),
        }
    }

    // The options and labels of a new series.
    pub(crate) fn spec(self, alloc: Global) -> Spec
        ensures { spec_of result ≡ spec (given_of self) }
    {
        Spec {
            options: Options {
                retention: self.retention.unwrap_or(0),
                encoding: self.encoding.unwrap_or(Encoding::Compressed),
                chunk_size: self.chunk_size.unwrap_or(DEFAULT_CHUNK_SIZE),
                policy: self.policy.unwrap_or(Policy::Block),
                ignore: self.ignore.unwrap_or(Ignore::EQUAL),
            },
            labels: labels_or_none(alloc, self.labels),
        }
    }

    // The changes to an existing series.
    pub(crate) fn change(self) -> Change
        ensures { change_of result ≡ change (given_of self) }
    {
        Change {
            retention: self.retention,
            chunk_size: self.chunk_size,
            policy: self.policy,
            ignore: self.ignore,
            labels: self.labels,
        }
    }
}

// The given labels, or none.
fn labels_or_none(alloc: Global, labels: Option<Labels>) -> Labels
    ensures { result ≡ unwrap_or labels [] }
{
    match labels {
        Some(labels) => labels,
        None => Labels::new(alloc),
    }
}

// The options and labels of a series, as a command gives them.
ghost use Rattle.std.specs.Prelude.{◌≤◌};
ghost use Rattle.std.specs.Option.{ForSome};
ghost use Rattle.ts_spec.specs.Sample.{MAX_TIME};
ghost use Rattle.ts_spec.specs.SeriesOptions.{IsChunkSize};

use crate::labels::Labels;
use ts_spec::{Ignore, Options, Policy};

/// The options and labels of a new series.
#[derive(Debug, Drop)]
pub struct Spec {
    pub options: Options,
    pub labels: Labels,
    ghost retention_fits: { options.retention ≤ MAX_TIME },
    ghost ignore_fits: { options.ignore.time ≤ MAX_TIME },
    ghost chunk_size_fits: { IsChunkSize options.chunk_size },
}

/// The changes that TS.ALTER makes. `None` leaves a setting unchanged.
#[derive(Debug, Drop)]
pub struct Change {
    /// In milliseconds; 0 keeps samples forever.
    pub retention: Option<u64>,
    /// In bytes. Applies to chunks that are started later.
    pub chunk_size: Option<u32>,
    pub policy: Option<Policy>,
    pub ignore: Option<Ignore>,
    /// Replaces all labels of the series.
    pub labels: Option<Labels>,
    ghost retention_fits: { ForSome retention (λ n. n ≤ MAX_TIME) },
    ghost ignore_fits: { ForSome ignore (λ i. i.time ≤ MAX_TIME) },
    ghost chunk_size_fits: { ForSome chunk_size IsChunkSize },
}

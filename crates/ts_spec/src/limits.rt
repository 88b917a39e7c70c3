// The limits of the database.
ghost use Rattle.std.specs.Prelude.{◌≡◌};

use crate::wire::WireLimits;

/// The limits of the database.
#[derive(Clone, Copy, Debug, PartialEq, Eq)]
pub struct Limits {
    /// The limits on one request.
    pub wire: WireLimits,
    /// The number of keys.
    pub keys: u32,
    /// The number of labels per series.
    pub labels: u32,
    /// The number of rules per source.
    pub rules: u32,
    /// The number of samples that a series may show.
    pub samples: u32,
    /// The number of rows per series in a reply with empty buckets (EMPTY).
    pub empty_rows: u32,
    /// The number of rules created on a series in its lifetime.
    pub born: u32,
}

impl Limits {
    ghost use Rattle.ts_spec.specs.Limits.{usual};

    /// The limits that the program runs with.
    pub fn usual() -> Limits
        ensures { result ≡ usual }
    {
        Limits {
            wire: WireLimits {
                words: 1_048_576,
                word_bytes: 1_048_576,
                request_bytes: 16_777_216,
                line_bytes: 65_536,
            },
            keys: 65_536,
            labels: 64,
            rules: 16,
            samples: 16_777_216,
            empty_rows: 1_000_000,
            born: u32::MAX,
        }
    }
}

// The options of a series, and what a write does if its time already has a sample.
use crate::units::Units;

/// What a write does if its time already has a sample.
#[derive(Clone, Copy, Debug, PartialEq, Eq)]
pub enum Policy {
    /// Reject the write.
    Block,
    /// Keep the old value.
    First,
    /// Overwrite the old value.
    Last,
    /// Keep the lower value.
    Min,
    /// Keep the higher value.
    Max,
    /// Store the sum of both.
    Sum,
}

/// How a write merges with the value that its time already has.
#[derive(Clone, Copy, Debug, PartialEq, Eq)]
pub enum Merge {
    /// By a duplicate policy.
    By(Policy),
    /// Overwrite the old value, whatever the policy.
    Set,
}

/// How the chunks of a series are encoded.
#[derive(Clone, Copy, Debug, PartialEq, Eq)]
pub enum Encoding {
    /// Delta-encoded, in few bytes.
    Compressed,
    /// Fixed-size samples.
    Uncompressed,
}

/// How close a sample must be to the last one to be ignored, if the policy is `Last` (IGNORE).
#[derive(Clone, Copy, Debug, PartialEq, Eq)]
pub struct Ignore {
    /// The greatest time difference, in milliseconds.
    pub time: u64,
    /// The greatest value difference.
    pub value: Units,
}

impl Ignore {
    /// The default: ignores an equal value at the same time.
    pub const EQUAL: Ignore = Ignore {
        time: 0,
        value: Units::ZERO,
    };
}

/// The options of a series.
#[derive(Clone, Copy, Debug, PartialEq, Eq)]
pub struct Options {
    /// How long samples are kept, in milliseconds; 0 keeps them forever.
    pub retention: u64,
    pub encoding: Encoding,
    /// The size of a chunk in bytes.
    pub chunk_size: u32,
    /// What a write does if its time already has a sample.
    pub policy: Policy,
    /// How close to the last sample a write is ignored.
    pub ignore: Ignore,
}

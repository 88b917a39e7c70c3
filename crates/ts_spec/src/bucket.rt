/// Which timestamp a bucket is reported with (BUCKETTIMESTAMP).
#[derive(Clone, Copy, Debug, PartialEq, Eq)]
pub enum Stamp {
    /// Its start.
    Low,
    /// Its end.
    High,
    /// Its middle.
    Mid,
}

/// How the samples of a bucket are aggregated.
#[derive(Clone, Copy, Debug, PartialEq, Eq)]
pub enum Aggregator {
    /// Their mean, rounded half away from zero.
    Avg,
    /// Their sum.
    Sum,
    /// The least value.
    Min,
    /// The greatest value.
    Max,
    /// The greatest value less the least.
    Range,
    /// How many there are.
    Count,
    /// The value of the first.
    First,
    /// The value of the last.
    Last,
}

/// How the values that the series of a group have at one time are combined (GROUPBY).
#[derive(Clone, Copy, Debug, PartialEq, Eq)]
pub enum Reducer {
    /// Their mean, rounded half away from zero.
    Avg,
    /// Their sum.
    Sum,
    /// The least value.
    Min,
    /// The greatest value.
    Max,
    /// The greatest value less the least.
    Range,
    /// How many there are.
    Count,
}

/// The AGGREGATION option: the aggregator and the bucket duration.
#[derive(Clone, Copy, Debug, PartialEq, Eq)]
pub struct Aggregation {
    pub agg: Aggregator,
    /// In milliseconds, from 1 to 10^14.
    pub duration: u64,
}

/// Where one of the buckets of a query starts (ALIGN).
#[derive(Clone, Copy, Debug, PartialEq, Eq)]
pub enum Align {
    /// At the start of the interval.
    From,
    /// At the end of the interval.
    To,
    /// At this time, in milliseconds.
    Time(u64),
}

//! Aggregators over lists of samples that grow at their end. Nothing here allocates.
#![tactic(auto)]

mod names;
mod running;
mod tally;

pub use names::{AggFault, aggregator_of, is_name, name, named, read_aggregator, read_reducer};
pub use running::{Counted, Running};
pub use tally::{SampleCount, Tally, Total};
pub use ts_restore::SummaryParts;
pub use ts_spec::{Aggregator, Reducer};

//! Answers range queries over one series: filters samples, aggregates them into buckets, and fills empty buckets.
#![tactic(auto)]

mod answers;
mod bucket;
mod bucket_range;
mod cutter;
mod fill_plan;
mod filters;
mod gap_filler;
mod last_values;
mod query;
mod row_scan;
mod row_sinks;
mod starts;
mod trail;

pub use answers::{answer, in_requested_order};
pub use bucket_range::BucketRange;
pub use fill_plan::{are_too_many, gap_filling_buckets};
pub use filters::Filters;
pub use gap_filler::GapFiller;
pub use last_values::LastValues;
pub use query::{Asked, Buckets, Query, RangeFault, Row};
pub use row_scan::RowScan;
pub use row_sinks::{FallibleRowSink, Limited, RowList, RowSink};

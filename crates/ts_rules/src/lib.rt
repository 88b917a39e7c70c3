//! Compaction rules: what a write to a source or a deletion on it means for the rule and for its destination, which
//! stores one row per closed bucket. This crate plans the change, and ts_series commits it.
#![tactic(auto)]

mod count;
mod deletion;
mod deletion_buffers;
mod end_rows;
mod ends_left;
mod fullness;
mod interval_cursor;
mod laws;
mod open_bucket;
mod plan;
mod rule;
mod rule_plans;
mod shared_bucket;
mod source_deletion;
mod write;

pub use laws::plans_match_stored_state;
pub use open_bucket::latest;
pub use plan::{RuleFault, RulePlan};
pub use rule::Rule;
pub use rule_plans::{plan_delete, plan_delete_shared, plan_put, plan_put_shared};
pub use shared_bucket::{SharedBucket, SharedBuckets};
pub use source_deletion::SourceDeletion;

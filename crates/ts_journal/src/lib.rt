//! Records of changes for a journal. Each record is a RESP request that has the same effect whenever it is executed.
#![tactic(auto)]

mod addition;
mod changes;
mod draft;
mod laws;
mod names;
mod options;
mod record;
mod reply;
mod triples;

pub use laws::{records_read_back, steps_are_executed, what_is_not_recorded_changes_nothing};
pub use names::{encoding_name, policy_name};
pub use record::{Record, limits_of};

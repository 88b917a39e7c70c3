//! The database: time series by key, and the effect of each command on them.
#![tactic(auto)]

mod alter;
mod by_id;
mod changes;
mod create;
mod db;
mod deletion;
mod dropping;
mod fault;
mod hints;
mod increase;
mod info;
mod key_order;
mod keys;
mod latest;
mod node;
mod node_changes;
mod nodes;
mod open_append;
mod plan_fault;
mod planning;
mod queries;
mod restorable;
mod restore;
mod restoring;
mod row_merger;
mod ruling;
mod scans;
mod store;
mod stored;
mod write;

pub use db::Db;
pub use fault::DbFault;
pub use hints::Hints;
pub use info::{Info, RuleInfo};
pub use restoring::RestoredRule;
pub use ts_index::Candidates;
pub use ts_labels::{Change, Spec};
pub use ts_rules::Rule;
pub use ts_sample::Id;
pub use ts_series::Cursor;
pub use ts_spec::Limits;

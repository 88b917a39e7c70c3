//! Answers queries from the database: reads one series or many, and writes the text of the reply.
#![tactic(auto)]

mod by_value;
mod emit_planned_rows;
mod faults;
mod few_samples;
mod gap_filled;
mod gathering;
mod group_query;
mod grouped;
mod member;
mod members;
mod multi_reply;
mod query_replies;
mod reversed_samples;
mod row_plans;
mod row_texts;
mod series_query;
mod walked;

pub use faults::{refusal_reply, write_or_out_of_memory, write_out_of_memory};
pub use members::{MemberContent, MemberQuery, write_members};
pub use query_replies::{write_get, write_range, write_ranges};

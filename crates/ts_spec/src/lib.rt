//! The specification of the server: every definition that contracts of more than one crate use, and the plain types
//! that these definitions name. It depends on no other crate of this repository.
#![tactic(auto)]

mod bucket;
mod command;
mod laws;
mod limits;
mod reply_laws;
mod series;
mod units;
mod wire;

pub use bucket::{Aggregation, Aggregator, Align, Reducer, Stamp};
pub use command::At;
pub use laws::{
    a_failed_triple_changes_nothing, a_new_rule_counts_all_that_its_source_has,
    each_step_keeps_a_state_valid, one_bucket_affects_one_row, resolved_times_have_the_same_effect,
    settling_is_idempotent, stored_data_is_enough,
};
pub use limits::Limits;
pub use reply_laws::{
    replies_are_plain, reply_texts_are_self_delimiting, the_memory_error_is_unique,
};
pub use series::{Encoding, Ignore, Merge, Options, Policy};
pub use units::{Units, ValueFault};
pub use wire::{
    Kind, WireLimits, a_stream_prefix_stays, encoded_requests_read_back,
    requests_of_a_stream_are_within_its_limits, streams_concatenate_after_whole_requests,
};

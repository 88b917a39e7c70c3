//! What a checkpoint says of a database: the data, when it is valid, and the state that it restores to. Nothing here
//! allocates.
#![tactic(auto)]

mod check_number;
mod laws;
mod summary_parts;

pub use check_number::CheckNumber;
pub use laws::{
    a_changed_byte_changes_the_check_number, a_checkpoint_restores_what_was_stored,
    restored_parts_are_represented, states_with_the_same_stored_data_answer_alike,
};
pub use summary_parts::{SummaryParts, is_summary};

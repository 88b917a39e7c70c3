//! Executes commands and handles requests: the effect of each on the database, its reply, and its journal record. Also
//! loads a journal, and writes a checkpoint.
#![tactic(auto)]

mod answers;
mod changes;
mod checkpoint;
mod checkpoint_records;
mod checkpoint_rules;
mod checkpoint_series;
mod execution;
mod handler;
mod handling;
mod heads;
mod info;
mod journal_piece;
mod journal_replay;
mod load_state;
mod loading;
mod multi_add;
mod names;
mod next_change;
mod open_series;
mod parts;
mod plain_add;
mod recorded;
mod recorded_add;
mod redis_commands;
mod stage;

pub use checkpoint::{CheckpointFault, write_checkpoint};
pub use execution::{execute, triples_with_memory_are_one_step};
pub use handler::{Handler, Plain};
pub use handling::handle_request;
pub use loading::{Extent, LoadFault, PIECE, load};
pub use recorded::{Handled, handle_recorded};

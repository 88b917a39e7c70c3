//! The command line, the exit statuses, and the lines that the program writes about itself. No call allocates: each
//! line is written into a buffer of the caller.
#![tactic(auto)]

mod fault_causes;
mod lines;
mod mode;
mod status;

pub use fault_causes::{LastCauses, host_line};
pub use lines::{LinkEnd, link_line, summary};
pub use mode::{Mode, Storage};
pub use status::{Status, line};

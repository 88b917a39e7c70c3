//! The engine: sessions, the modes of the program, and the function `top` that runs them.
#![tactic(auto)]

mod address;
mod appending;
mod capture;
mod capture_run;
mod capture_session;
mod ending;
mod fold;
mod folding;
mod framing;
mod generated;
mod host_end;
mod host_links;
mod host_mode;
mod host_run;
mod journaling;
mod keep;
mod opened;
mod piped;
mod replying;
mod running;
mod serving;
mod session;
mod status;

pub use piped::{End, Outcome, pipe};
pub use replying::Go;
pub use running::{top, usual_budget};
pub use serving::{Served, serve};
pub use session::Session;
pub use ts_command::{Command, CommandFault, read};
pub use ts_db::{Db, DbFault, Limits};
pub use ts_execution::{execute, triples_with_memory_are_one_step};
pub use ts_words::Status;

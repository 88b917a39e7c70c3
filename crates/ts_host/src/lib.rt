//! A server of many connections at once over one database: it answers the requests of a hub, keeps a journal, and lets
//! replies out once their records are in the journal.
#![tactic(auto)]

mod connections;
mod handling;
mod host;
mod recorder;
mod reply_buffer;
mod request_counts;
mod serving;

pub use handling::{InJournal, InMemory, Recording};
pub use host::{Host, HostFault};
pub use reply_buffer::ReplyBuffer;
pub use serving::{HubEnd, serve_hub};

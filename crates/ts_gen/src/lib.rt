//! A generated workload for the server: the requests drawn from a seed, as the bytes that a client sends.
#![tactic(auto)]

mod keys;
mod laws;
mod words;
mod workload;

pub use laws::a_workload_reads_back;
pub use workload::script;

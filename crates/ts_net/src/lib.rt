//! A hub over the system's network: many TCP connections at once, in one thread, by readiness.
#![tactic(auto)]

mod arrivals;
mod link;
mod links;
mod sending;
mod sockets;
mod tcp_hub;

pub use tcp_hub::TcpHub;

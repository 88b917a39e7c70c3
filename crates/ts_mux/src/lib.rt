//! Interleaved connections: parses the frames of a capture, and yields the requests of all connections in order.
#![tactic(auto)]

mod current_connection;
mod found_header;
mod found_number;
mod frame;
mod frames;
mod laws;
mod mux;
mod open_connections;

pub use current_connection::Turn;
pub use frame::{Frame, HEADER_CAPACITY, Header, write_header};
pub use frames::{FoundFrame, FrameSpan, Frames, NextFrame};
pub use laws::{
    bytes_bring_nothing_of_others, closings_make_the_order, connections_stand_apart,
    each_connection_has_its_own_requests, written_frames_read_back,
};
pub use mux::Mux;

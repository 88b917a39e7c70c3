//! RESP2: parses requests from a byte stream and encodes replies.
#![tactic(auto)]

mod header;
mod line;
mod order;
mod out;
mod parts;
mod protocol;
mod reader;
mod reply;
mod text;
mod word;

pub use out::Out;
pub use parts::{
    GAP, PAIR_BYTES, close_array, encode_bulk, encode_count, open_array, reserve_items, write_pair,
};
pub use protocol::Protocol;
pub use reader::{Next, Reader};
pub use reply::{Reply, begin_array, encode, put, size_of};
pub use ts_spec::{Kind, WireLimits};
pub use word::Word;

//! The plain chunk format: 28 bytes per sample, little-endian. Lookups need no decoding. Only a scan decodes, and
//! only the samples it visits.
#![tactic(auto)]

mod chunk;
mod pieces;

pub use chunk::PlainChunk;

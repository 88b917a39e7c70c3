//! The packed chunk format: each sample as its differences from the sample before it, in variable-length integers.
//! Lookups of the first, the last and the number of samples need no decoding. A scan decodes from the last mark
//! before the interval.
#![tactic(auto)]

mod chunk;
mod coding;
mod context;
mod decoder;
mod interval_scan;
mod late_marks;
mod mark;
mod marks;
mod untrusted;
mod varint;
mod zigzag;

pub use chunk::{PackedChunk, RestoredChunk};
pub use coding::packed_samples_read_back;

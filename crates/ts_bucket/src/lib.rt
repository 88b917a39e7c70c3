//! Grids of time buckets, and the timestamp that a bucket is reported with. Nothing here allocates.
#![tactic(auto)]

mod grid;

pub use grid::{Grid, LONGEST};
pub use ts_spec::Stamp;

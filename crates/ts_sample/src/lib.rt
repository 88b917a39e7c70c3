//! Samples of a series, the visitors that receive them one by one, and the chunks that store them as bytes. Also the
//! id of a series in a database, and a counter of decoding steps that costs nothing at run time.
#![tactic(auto)]

mod changed;
mod chunk;
mod sample;
mod steps;
mod visit;

pub use chunk::Chunk;
pub use sample::{Cell, Id, MAX_TIME, Sample, find, index_range, lower_bound, upper_bound};
pub use steps::Steps;
pub use ts_spec::Units;
pub use visit::{SampleCollector, Visit};

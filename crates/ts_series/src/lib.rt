//! One time series: its samples in order of time, its options, the queries it answers and the changes it takes. A
//! change is planned first, which can fail, and then committed, which cannot.
#![tactic(auto)]

mod alter;
mod append;
mod change;
mod chunk_plans;
mod chunk_queries;
mod chunk_restoring;
mod chunked_series;
mod chunked_series_plan;
mod chunked_series_queries;
mod chunked_series_restoring;
mod chunks;
mod cursor;
mod late;
mod mend;
mod plan;
mod put;
mod recoding;
mod remaining_samples;
mod ring;
mod row;
mod series;
mod series_plans;
mod series_queries;
mod series_restoring;
mod time_bounds;
mod updated_list;

pub use append::Append;
pub use cursor::Cursor;
pub use plan::{PutFault, SeriesPlan};
pub use series::Series;
pub use series_restoring::PackedBytes;
pub use ts_spec::{Encoding, Ignore, Merge, Options, Policy};

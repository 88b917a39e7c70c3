//! Parses requests into commands, or finds their first error. Names and options follow the RedisTimeSeries command
//! reference; letter case does not matter.
#![tactic(auto)]

mod clock;
mod command;
mod fault;
mod forms;
mod given;
mod list_arguments;
mod names;
mod option_word;
mod options;
mod queries;
mod range_given;
mod range_options;
mod request;
mod series_options;
mod simple_add;
mod simple_commands;
mod triple;
mod words;

pub use command::{Command, Triple};
pub use fault::CommandFault;
pub use range_options::GroupBy;
pub use request::read;
pub use simple_add::SimpleAdd;
pub use ts_agg::{AggFault, read_reducer};
pub use ts_bucket::Grid;
pub use ts_labels::{Change, Filter, Show, Spec};
pub use ts_range::Query;
pub use ts_spec::{Aggregator, At, Encoding, Ignore, Options, Policy, Reducer, ValueFault};

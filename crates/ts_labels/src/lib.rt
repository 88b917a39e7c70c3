//! Labels of series, label filters, and the options and labels in TS.CREATE and TS.ALTER.
#![tactic(auto)]

mod filter;
mod filter_text;
mod labels;
mod pairs;
mod spec;
mod values;

pub use filter::{Filter, has_positive};
pub use filter_text::FilterFault;
pub use labels::{Labels, Show};
pub use spec::{Change, Spec};

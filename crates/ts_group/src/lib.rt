//! Groups series by the value of a label and reduces their rows, for TS.MRANGE and TS.MREVRANGE with GROUPBY.
#![tactic(auto)]

mod group_replies;
mod group_texts;
mod labels;
mod one_group;
mod options;
mod reduction;
mod rows;
mod slots;
mod summaries;

pub use group_replies::{encode_groups, group};
pub use group_texts::{encode_group, encode_group_of, encode_group_rows};
pub use labels::GroupLabels;
pub use one_group::{Group, Sources};
pub use options::GroupOptions;
pub use reduction::Reduction;
pub use rows::GroupRows;
pub use ts_agg::Reducer;

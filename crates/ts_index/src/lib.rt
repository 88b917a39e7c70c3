//! An inverted index over labels: finds the series that match filters.
#![tactic(auto)]

mod candidates;
mod clearing;
mod distinct;
mod index;
mod lists;
mod most_selective;
mod pairs;
mod posting_list;
mod select;
mod taking;

pub use candidates::Candidates;
pub use index::Index;

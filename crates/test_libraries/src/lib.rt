//! Tests of the libraries below ts_series, with ample memory, one module for each. They are a crate of their own so
//! that changing a test does not prove the libraries again.
#![tactic(auto)]

#[cfg(test)]
mod agg;
#[cfg(test)]
mod bucket;
#[cfg(test)]
mod decimal;
#[cfg(test)]
mod faults;
#[cfg(test)]
mod group;
#[cfg(test)]
mod multi;
#[cfg(test)]
mod program;
#[cfg(test)]
mod range;
#[cfg(test)]
mod resp;
#[cfg(test)]
mod sample;

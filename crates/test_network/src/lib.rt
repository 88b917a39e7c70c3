//! Tests of serving over this machine's network. They are a crate of their own because they stand on ts_engine.
#![tactic(auto)]

#[cfg(test)]
mod serving;

//! The lines of a talk, as test_commands describes them: what is sent, what is expected, and the settings of a run.
#![tactic(auto)]

mod expected;
mod line;
mod patterns;
mod setting;
mod stream;
mod texts;

pub use expected::{End, Journal, NextCall, idle_connection};
pub use patterns::Round;
pub use setting::{Numbers, Setting};
pub use stream::Stream;
pub use texts::Exchange;

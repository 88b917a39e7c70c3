//! Values as decimal text, and the rounding and clamping that arithmetic on values needs. Nothing here allocates.
#![tactic(auto)]

mod arithmetic;
mod laws;
mod lexer;
mod printing;
mod reading;
mod short;

pub use arithmetic::{clamp, div_round};
pub use laws::{decimal_is_spelled, printed_reads_back, value_is_nearest};
pub use printing::{print, put_value};
pub use reading::parse;
pub use ts_spec::ValueFault;

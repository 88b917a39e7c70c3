//! Tests as lines that a program reads, because test code is proved and the lines of a file are not.
//!
//! A test begins with a line with its name, and one with a device and what it is made of. Lines with calls of the
//! device follow, and an empty line ends the test. A call is followed by ` = ` and its answer, which may be left out
//! if it is empty. After `100 times: `, a call is made a hundred times, and has this answer each time. A line that
//! begins with `#` is a comment.
#![tactic(auto)]

mod program;
mod script;
mod texts;

pub use program::{Devices, run_tests};
pub use script::{Device, Script};
pub use texts::{
    answer_of, bytes_of, bytes_read, cause, counted, done, number_of, numbers_of, push_bytes,
    shown, silent,
};

// A sink for generated workloads, whose replies are only counted.
ghost use Rattle.std.specs.Prelude.{◌≡◌, ◌<◌, ◌≤◌, [], length, IfOk, IsOk};
ghost use Rattle.std.specs.Io.{WritesAtMost};
ghost use Rattle.std.specs.List.{last_or};
ghost use Rattle.ts_io.specs.Causes.{HasCause};
ghost use Rattle.ts_io.specs.Counts as counts;
ghost use Rattle.ts_io.specs.Counts.{counts_of, error_marks_after};
ghost use Rattle.ts_io.specs.Sinks.{WriteGrows};

use crate::{Failed, Sink};
use std::marker::Model;

/// A sink that discards its bytes and counts them and the error replies. It never fails. Both counts stop at
/// `u64::MAX`.
#[derive(Drop)]
pub struct CountSink {
    total: u64,
    errors: u64,
    last: Option<u8>,
}

impl Model for CountSink {
    ghost use Rattle.ts_io.specs.Counts.{Counts};

    ghost Value = { Counts };

    ghost view = { λ s. record { total = s.total; errors = s.errors; last = s.last } };
}

impl CountSink {
    /// Creates a sink to which nothing was written.
    pub fn new() -> Self
        ensures { result ≡ counts_of [] }
    {
        CountSink {
            total: 0,
            errors: 0,
            last: None,
        }
    }

    /// The number of bytes written.
    pub fn total(&self) -> u64
        ensures { result ≡ self.now.total }
    {
        self.total
    }

    /// The number of `-` bytes that came first or right after a line feed.
    pub fn errors(&self) -> u64
        ensures { result ≡ self.now.errors }
    {
        self.errors
    }
}

impl Sink for CountSink {
    ghost has = { λ s w. s ≡ counts_of w };

    ghost faults = { λ _. 0 };

    /// Accepts all bytes.
    fn write(&mut self, bytes: &[u8]) -> Result<usize, Failed>
        ensures bound { WritesAtMost result bytes.now }
        ensures progress { 0 < length bytes.now → IfOk result (λ n. 0 < n) }
        ensures bytes { WriteGrows (λ w. self.old ≡ counts_of w) (λ w. self.new ≡ counts_of w) result bytes.now }
        ensures cause { HasCause 0 0 result }
        ensures ok { IsOk result }
        ensures all { IfOk result (λ n. n ≡ length bytes.now) }
    {
        self.errors = self
            .errors
            .saturating_add(count_error_marks(self.last, bytes));
        self.total = self.total.saturating_add(bytes.len() as u64);
        self.last = last_of(self.last, bytes);
        Ok(bytes.len())
    }
}

// How many of these bytes are a `-` at the start of a line. `before` is the byte before them, if any.
fn count_error_marks(before: Option<u8>, bytes: &[u8]) -> u64
    ensures { result ≡ error_marks_after before bytes.now }
{
    let mut before = before;
    let mut marks = 0;
    for byte in bytes {
        if begins_line(before) && *byte == b'-' {
            marks += 1;
        }
        before = Some(*byte);
    }
    marks
}

// The last of these bytes, or `before` if there are none.
fn last_of(before: Option<u8>, bytes: &[u8]) -> Option<u8>
    ensures { result ≡ last_or before bytes.now }
{
    match bytes {
        [.., last] => Some(*last),
        [] => before,
    }
}

// Whether a line begins after this byte, or at the start of the output.
fn begins_line(before: Option<u8>) -> bool
    ensures { result ≡ counts.begins_line before }
{
    match before {
        Some(byte) => byte == b'\n',
        None => true,
    }
}

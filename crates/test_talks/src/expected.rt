// What a talk expects of a run: how it ends, the content of the journal, and the next call of the listener.
ghost use Rattle.std.specs.Prelude.{◌≡◌, false};

use crate::setting::take_list;
use crate::texts::{push_bytes, push_request};
use std::alloc::{AllocError, Global};
use ts_io::{Ends, Listener, MemListener, MemLog, MemSink, MemSource};

/// The exit status, and the bytes on standard error.
#[derive(Drop)]
pub struct End {
    status: u8,
    line: Vec<u8>,
}

impl End {
    /// Success.
    pub fn well(alloc: Global) -> End {
        End {
            status: 0,
            line: Vec::new(alloc),
        }
    }

    /// Parses an exit status and the line on standard error, such as `4 tsd: read fault`.
    pub fn read(alloc: Global, text: &str) -> Result<Option<End>, AllocError> {
        let Some((status, text)) = text.split_once(' ') else {
            return Ok(None);
        };
        let Ok(status) = status.parse::<u8>() else {
            return Ok(None);
        };
        let mut line = Vec::from_slice(alloc, text.as_bytes())?;
        line.push(b'\n')?;
        Ok(Some(End { status, line }))
    }

    /// Whether a run ended with this status and these bytes on standard error.
    pub fn is(&self, status: u8, err: &[u8]) -> bool {
        status == self.status && err == self.line.as_slice()
    }
}

/// A journal: its content before the run, the content expected after it, and the numbers of its calls that fail.
#[derive(Drop)]
pub struct Journal {
    alloc: Global,
    had: Vec<u8>,
    has: Vec<u8>,
    failing: Vec<u64>,
}

impl Journal {
    // Creates one that is empty and stays so.
    pub(crate) fn new(alloc: Global) -> Journal {
        Journal {
            alloc,
            had: Vec::new(alloc),
            has: Vec::new(alloc),
            failing: Vec::new(alloc),
        }
    }

    // Parses a setting of the journal, such as `had DEL a` or `fails 1,2`. Returns whether it is one.
    pub(crate) fn take(&mut self, line: &str) -> Result<bool, AllocError> {
        let (name, what) = line.split_once(' ').unwrap_or((line, ""));
        match name {
            "had" => push_request(what, &mut self.had)?,
            "has" => push_request(what, &mut self.has)?,
            "had_bytes" => push_bytes(what, &mut self.had)?,
            "has_bytes" => push_bytes(what, &mut self.has)?,
            "fails" => return take_list(what, &mut self.failing),
            _ => return Ok(false),
        }
        Ok(true)
    }

    /// The journal before the run.
    pub fn log(&self) -> Result<MemLog, AllocError> {
        let had = Vec::from_slice(self.alloc, &self.had)?;
        let failing = Vec::from_slice(self.alloc, &self.failing)?;
        Ok(MemLog::new(had, failing))
    }

    /// Whether the journal has the expected content after the run.
    pub fn is(&self, log: &MemLog) -> bool {
        log.bytes() == self.has.as_slice()
    }
}

/// The expected result of the next `accept`: not called; the waiting connection; or a failure, after which that
/// connection comes.
#[derive(Clone, Copy)]
pub enum NextCall {
    Unmade,
    Comes,
    Fails,
}

impl NextCall {
    // Parses the setting. Returns whether it is one.
    pub(crate) fn take(&mut self, text: &str) -> bool {
        match text {
            "comes" => *self = NextCall::Comes,
            "fails" => *self = NextCall::Fails,
            _ => return false,
        }
        true
    }

    /// Whether a next call is expected.
    pub fn is_made(self) -> bool {
        !matches!(self, NextCall::Unmade)
    }

    /// Whether the listener's next call has this result.
    pub fn is_next(self, net: &mut MemListener) -> bool
        requires { net.old.has_open_link ≡ false }
    {
        match self {
            NextCall::Unmade => true,
            NextCall::Comes => net.accept().is_ok(),
            NextCall::Fails => net.accept().is_err() && net.accept().is_ok(),
        }
    }
}

/// A connection that sends nothing.
pub fn idle_connection(alloc: Global) -> Ends<MemSource, MemSink> {
    Ends {
        input: MemSource::new(Vec::new(alloc), 1, Vec::new(alloc)),
        out: MemSink::new(alloc, 1, Vec::new(alloc)),
    }
}

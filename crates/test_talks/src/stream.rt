// A stream of a talk: standard input and output, or a connection.
use crate::line::Line;
use crate::patterns::Round;
use crate::setting::take_list;
use crate::texts::Exchange;
use std::alloc::{AllocError, Global};
use ts_io::{Ends, MemSink, MemSource};

/// What is sent over a stream of a talk, and what is expected: standard input and output, or a connection.
#[derive(Drop)]
pub struct Stream {
    alloc: Global,
    lines: Vec<Line>,
    // The numbers of the reads and the writes that fail.
    reads: Vec<u64>,
    writes: Vec<u64>,
}

impl Stream {
    /// Creates one that sends and expects nothing.
    pub fn new(alloc: Global) -> Stream {
        Stream {
            alloc,
            lines: Vec::new(alloc),
            reads: Vec::new(alloc),
            writes: Vec::new(alloc),
        }
    }

    /// Parses a line, such as `fails read 2`, or what is sent and expected. Returns whether it could.
    pub fn take(&mut self, line: &str) -> Result<bool, AllocError> {
        if let Some(numbers) = line.strip_prefix("fails read ") {
            return take_list(numbers, &mut self.reads);
        }
        if let Some(numbers) = line.strip_prefix("fails write ") {
            return take_list(numbers, &mut self.writes);
        }
        match Line::read(self.alloc, line)? {
            Some(line) => self.lines.push(line)?,
            None => return Ok(false),
        }
        Ok(true)
    }

    /// What is sent and expected in a round.
    pub fn exchange(&self, round: Round) -> Result<Exchange, AllocError> {
        let mut exchange = Exchange::new(self.alloc);
        for line in &self.lines {
            line.add_to(self.alloc, round, &mut exchange)?;
        }
        Ok(exchange)
    }

    /// Its two ends, with these limits on the bytes per read and per write, at least 1.
    pub fn ends(
        &self,
        exchange: &Exchange,
        piece: usize,
        takes: usize,
    ) -> Result<Ends<MemSource, MemSink>, AllocError> {
        let alloc = self.alloc;
        let input = Vec::from_slice(alloc, &exchange.input)?;
        let reads = Vec::from_slice(alloc, &self.reads)?;
        let writes = Vec::from_slice(alloc, &self.writes)?;
        Ok(Ends {
            input: MemSource::new(input, piece.max(1), reads),
            out: MemSink::new(alloc, takes.max(1), writes),
        })
    }
}

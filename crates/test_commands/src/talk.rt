// A talk: requests with their expected replies, and the settings they run with.
use crate::direct::{goes_on, is_executed};
use crate::run::{Talking, comes_to, is_answered, is_answered_in_two};
use std::alloc::{AllocError, Global};
use test_talks::{End, Round, Setting, Stream};

// What a talk calls.
#[derive(Drop)]
enum Subject {
    Program,
    // The library's `pipe`, with its expected outcome.
    Pipe(String),
    // `Session::piece`, with what is expected of the session after it.
    Session(String),
    // `execute`, for each request.
    Execute,
}

#[derive(Drop)]
pub(crate) struct Talk {
    alloc: Global,
    name: Option<String>,
    setting: Setting,
    // The main stream, and the connections.
    own: Stream,
    links: Vec<Stream>,
    end: End,
    subject: Subject,
    // Whether every line could be parsed.
    readable: bool,
}

// The read sizes used if none is given: 4,096 bytes, and one byte.
const PIECES: [u64; 2] = [4096, 1];

impl Talk {
    // Creates a talk without a name or requests.
    pub(crate) fn new(alloc: Global) -> Talk {
        Talk {
            alloc,
            name: None,
            setting: Setting::new(alloc),
            own: Stream::new(alloc),
            links: Vec::new(alloc),
            end: End::well(alloc),
            subject: Subject::Program,
            readable: true,
        }
    }

    // Parses a line. Lines that begin with `#` are comments.
    pub(crate) fn read(&mut self, line: &str) -> Result<(), AllocError> {
        if line.starts_with('#') {
            return Ok(());
        }
        if let Some(name) = line.strip_prefix("talk ") {
            self.name = Some(String::from_str(self.alloc, name)?);
            return Ok(());
        }
        let taken = self.take(line)?;
        self.readable = self.readable && taken;
        Ok(())
    }

    // Parses a line other than the talk's name. Returns whether it could.
    fn take(&mut self, line: &str) -> Result<bool, AllocError> {
        if let Some(what) = line.strip_prefix("with ") {
            return self.setting.take(self.alloc, what);
        }
        if let Some(text) = line.strip_prefix("ends ") {
            let Some(end) = End::read(self.alloc, text)? else {
                return Ok(false);
            };
            self.end = end;
            return Ok(true);
        }
        if let Some(outcome) = line.strip_prefix("outcome ") {
            self.subject = Subject::Pipe(String::from_str(self.alloc, outcome)?);
            return Ok(true);
        }
        if let Some(expected) = line.strip_prefix("session ") {
            self.subject = Subject::Session(String::from_str(self.alloc, expected)?);
            return Ok(true);
        }
        if line == "executes" {
            self.subject = Subject::Execute;
            return Ok(true);
        }
        if line == "link" {
            self.links.push(Stream::new(self.alloc))?;
            return Ok(true);
        }
        match self.links.last_mut() {
            Some(link) => link.take(line),
            None => self.own.take(line),
        }
    }

    // The line to print for the talk, if it has a name.
    pub(crate) fn outcome(&self) -> Result<Option<String>, AllocError> {
        let Some(name) = &self.name else {
            return Ok(None);
        };
        let outcome = if !self.readable {
            format!(in self.alloc; "{name}: NOT READ")?
        } else if self.is_answered()? {
            format!(in self.alloc; "{name}")?
        } else {
            format!(in self.alloc; "{name}: OTHER REPLIES")?
        };
        Ok(Some(outcome))
    }

    // Whether the replies are as expected, in each encoding and with each word length.
    fn is_answered(&self) -> Result<bool, AllocError> {
        for encoding in self.setting.encodings() {
            if !self.is_answered_in(*encoding)? {
                return Ok(false);
            }
        }
        Ok(true)
    }

    // The same, in one encoding.
    fn is_answered_in(&self, encoding: Option<&str>) -> Result<bool, AllocError> {
        let mut word = String::new(self.alloc);
        for length in 0..self.setting.lengths.end {
            let round = Round {
                numbers: self.setting.numbers,
                word: &word,
                encoding,
            };
            if self.setting.lengths.first <= length && !self.is_answered_with(round)? {
                return Ok(false);
            }
            word.push('w')?;
        }
        Ok(true)
    }

    // The same, in one round, with each read size.
    fn is_answered_with(&self, round: Round) -> Result<bool, AllocError> {
        let own = Talking::in_round(&self.own, round)?;
        let mut links = Vec::new(self.alloc);
        for link in &self.links {
            links.push(Talking::in_round(link, round)?)?;
        }
        let pieces = if self.setting.pieces.is_empty() {
            &PIECES
        } else {
            self.setting.pieces.as_slice()
        };
        for piece in pieces {
            if !self.is_answered_by(&own, &links, *piece as usize)? {
                return Ok(false);
            }
        }
        Ok(!self.setting.cuts || self.is_answered_cut(&own)?)
    }

    // The same, with one read size.
    fn is_answered_by(
        &self,
        own: &Talking,
        links: &[Talking],
        piece: usize,
    ) -> Result<bool, AllocError> {
        match &self.subject {
            Subject::Program => {
                is_answered(self.alloc, &self.setting, own, links, &self.end, piece)
            }
            Subject::Pipe(outcome) => comes_to(self.alloc, &self.setting, own, outcome, piece),
            Subject::Session(expected) => goes_on(self.alloc, &self.setting, own, expected, piece),
            Subject::Execute => is_executed(self.alloc, &self.setting, own),
        }
    }

    // The same, with each size of pieces, and with two pieces cut at each byte.
    fn is_answered_cut(&self, own: &Talking) -> Result<bool, AllocError> {
        for size in 0..own.exchange.input.len() {
            if !self.is_answered_by(own, &[], size)? || !self.is_answered_split(own, size)? {
                return Ok(false);
            }
        }
        Ok(true)
    }

    // The same, with two pieces, of which the first has this many bytes. A session always has two.
    fn is_answered_split(&self, own: &Talking, first: usize) -> Result<bool, AllocError> {
        match &self.subject {
            Subject::Session(_) => Ok(true),
            _ => is_answered_in_two(self.alloc, &self.setting, own, &self.end, first),
        }
    }
}

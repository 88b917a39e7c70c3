// The settings of a talk: limits, clock, read sizes, and the numbers and words of its lines.
ghost use Rattle.std.specs.Prelude.{◌≤◌};

use crate::expected::{Journal, NextCall};
use std::alloc::{AllocError, Global};
use ts_spec::Limits;

/// A range of numbers, without its end.
#[derive(Clone, Copy)]
pub struct Numbers {
    pub first: usize,
    pub end: usize,
}

impl Numbers {
    // Parses two numbers separated by a space.
    fn of(text: &str) -> Option<Numbers> {
        let (first, end) = text.split_once(' ')?;
        let (Ok(first), Ok(end)) = (first.parse::<usize>(), end.parse::<usize>()) else {
            return None;
        };
        Some(Numbers { first, end })
    }
}

// The encodings of new series: none given, or each of both.
const USUAL: [Option<&str>; 1] = [None];

const BOTH: [Option<&str>; 2] = [Some("COMPRESSED"), Some("UNCOMPRESSED")];

/// The settings of a talk.
#[derive(Drop)]
pub struct Setting {
    // The command line, if it is not `pipe`.
    words: Option<String>,
    /// Those given, which may be too small or too large for a run.
    pub limits: Limits,
    /// The budget of input bytes.
    pub budget: u64,
    /// The readings of the clock.
    pub readings: Vec<u64>,
    /// The numbers of the listener's calls that fail.
    pub failing_calls: Vec<u64>,
    pub next_call: NextCall,
    pub journal: Journal,
    /// The most bytes per read, one run for each.
    pub pieces: Vec<u64>,
    /// Whether the requests also come in pieces of each size.
    pub cuts: bool,
    // The most bytes per write.
    takes: usize,
    // Whether series are created in each encoding, one run for each.
    encodings: bool,
    /// The numbers for which a part of a line, or a whole line, is repeated.
    pub numbers: Numbers,
    /// The lengths of the word, one run for each.
    pub lengths: Numbers,
}

impl Setting {
    /// The defaults: `pipe`, the usual limits, an ample budget, a clock without readings, no numbers, and one run with
    /// a word of one letter.
    pub fn new(alloc: Global) -> Setting {
        Setting {
            words: None,
            limits: Limits::usual(),
            budget: 1 << 60,
            readings: Vec::new(alloc),
            failing_calls: Vec::new(alloc),
            next_call: NextCall::Unmade,
            journal: Journal::new(alloc),
            pieces: Vec::new(alloc),
            cuts: false,
            takes: 4096,
            encodings: false,
            numbers: Numbers { first: 0, end: 0 },
            lengths: Numbers { first: 1, end: 2 },
        }
    }

    /// Parses a setting, such as `keys 1`, `clock 1000,900` or `numbers 0 1001`. Returns whether it is one.
    pub fn take(&mut self, alloc: Global, line: &str) -> Result<bool, AllocError> {
        let (name, what) = line.split_once(' ').unwrap_or((line, ""));
        match name {
            "words" => self.words = Some(String::from_str(alloc, what)?),
            "failing_calls" => return take_list(what, &mut self.failing_calls),
            "next_call" => return Ok(self.next_call.take(what)),
            "journal" => return self.journal.take(what),
            "clock" => return take_list(what, &mut self.readings),
            "pieces" => return take_list(what, &mut self.pieces),
            "cuts" => self.cuts = true,
            "encodings" => self.encodings = true,
            "numbers" => return Ok(take_numbers(what, &mut self.numbers)),
            "lengths" => return Ok(take_numbers(what, &mut self.lengths)),
            _ => {
                return match what.parse::<u32>() {
                    Ok(number) => Ok(self.take_limit(name, number)),
                    Err(_) => Ok(false),
                };
            }
        }
        Ok(true)
    }

    // Sets the limit with this name, if there is one.
    fn take_limit(&mut self, name: &str, number: u32) -> bool {
        match name {
            "budget" => self.budget = number as u64,
            "takes" => self.takes = number as usize,
            "wire_words" => self.limits.wire.words = number,
            "word_bytes" => self.limits.wire.word_bytes = number,
            "request_bytes" => self.limits.wire.request_bytes = number,
            "keys" => self.limits.keys = number,
            "labels" => self.limits.labels = number,
            "samples" => self.limits.samples = number,
            "rules" => self.limits.rules = number,
            "born" => self.limits.born = number,
            "empty_rows" => self.limits.empty_rows = number,
            "line_bytes" => self.limits.wire.line_bytes = number,
            _ => return false,
        }
        true
    }

    /// The encodings of new series, one run for each.
    pub fn encodings(&self) -> &'static [Option<&'static str>] {
        if self.encodings { &BOTH } else { &USUAL }
    }

    /// The arguments of the command line, separated by spaces.
    pub fn words(&self, alloc: Global) -> Result<Vec<String>, AllocError> {
        let text = match &self.words {
            None => "pipe",
            Some(words) => words.as_str(),
        };
        let mut words = Vec::new(alloc);
        for word in text.split(' ') {
            if !word.is_empty() {
                words.push(String::from_str(alloc, word)?)?;
            }
        }
        Ok(words)
    }

    /// The most bytes per write, at least 1.
    pub fn takes(&self) -> usize
        ensures { 1 ≤ result }
    {
        self.takes.max(1)
    }
}

// Parses two numbers, if the text has them.
fn take_numbers(text: &str, into: &mut Numbers) -> bool {
    match Numbers::of(text) {
        None => false,
        Some(numbers) => {
            *into = numbers;
            true
        }
    }
}

// Parses a list of numbers, if the text is one.
pub(crate) fn take_list(text: &str, into: &mut Vec<u64>) -> Result<bool, AllocError> {
    for number in text.split(',') {
        let Ok(number) = number.parse::<u64>() else {
            return Ok(false);
        };
        into.push(number)?;
    }
    Ok(true)
}

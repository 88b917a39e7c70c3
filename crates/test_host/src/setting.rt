// What a run begins with, and which calls fail in it.
use crate::known::Known;
use crate::steps;
use crate::texts::push_numbers;
use std::alloc::{AllocError, Global};
use ts_io::Step;

#[derive(Drop)]
pub(crate) struct Setting {
    pub(crate) alloc: Global,
    // The arguments.
    pub(crate) words: Vec<String>,
    pub(crate) steps: Vec<Step>,
    // The content of the journal, and whether it takes one byte a call.
    pub(crate) had: Vec<u8>,
    pub(crate) is_slow: bool,
    // The numbers of the calls that fail.
    pub(crate) hub_fails: Vec<u64>,
    pub(crate) output_fails: Vec<u64>,
    pub(crate) journal_fails: Vec<u64>,
}

impl Setting {
    // A run with these arguments, in which nothing comes and nothing fails.
    pub(crate) fn new(alloc: Global, words: &str) -> Result<Self, AllocError> {
        Ok(Setting {
            alloc,
            words: words_of(alloc, words)?,
            steps: Vec::new(alloc),
            had: Vec::new(alloc),
            is_slow: false,
            hub_fails: Vec::new(alloc),
            output_fails: Vec::new(alloc),
            journal_fails: Vec::new(alloc),
        })
    }

    // Takes a line that says what happens. Returns whether it is one.
    pub(crate) fn take(
        &mut self,
        known: &Known,
        verb: &str,
        text: &str,
    ) -> Result<bool, AllocError> {
        match verb {
            "words" => self.words = words_of(self.alloc, text)?,
            "had" => return known.set_content(&mut self.had, text),
            "slow" => self.is_slow = true,
            "hub-fails" => return push_numbers(&mut self.hub_fails, text),
            "output-fails" => return push_numbers(&mut self.output_fails, text),
            "journal-fails" => return push_numbers(&mut self.journal_fails, text),
            _ => return steps::take(self.alloc, &mut self.steps, verb, text),
        }
        Ok(true)
    }
}

// The words of a text, separated by spaces.
pub(crate) fn words_of(alloc: Global, text: &str) -> Result<Vec<String>, AllocError> {
    let mut words = Vec::new(alloc);
    for word in text.split(' ') {
        words.push(String::from_str(alloc, word)?)?;
    }
    Ok(words)
}

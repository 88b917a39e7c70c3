// A test: what happens in a run, and what is expected of it.
use crate::expected::Expected;
use crate::kept::{Writer, is_key_lost};
use crate::known::Known;
use crate::run::run;
use crate::setting::Setting;
use std::alloc::{AllocError, Global};

#[derive(Drop)]
struct Talk {
    setting: Setting,
    expected: Expected,
    // If there are any, only their keys are expected.
    writers: Vec<Writer>,
}

// What is wrong with the test in these lines, or with the run.
pub(crate) fn fault(
    alloc: Global,
    known: &Known,
    lines: &[String],
) -> Result<Option<String>, AllocError> {
    let mut talk = Talk {
        setting: Setting::new(alloc, "host here")?,
        expected: Expected::new(alloc)?,
        writers: Vec::new(alloc),
    };
    for line in lines {
        if !talk.take(known, line.as_str())? {
            return Ok(Some(format!(in alloc; "`{line}`: this line cannot be read")?));
        }
    }
    match talk.difference()? {
        None => Ok(None),
        Some(part) => Ok(Some(format!(in alloc; "{part}")?)),
    }
}

impl Talk {
    // Takes a line. Returns whether it could be read.
    fn take(&mut self, known: &Known, line: &str) -> Result<bool, AllocError> {
        let (verb, text) = line.split_once(' ').unwrap_or((line, ""));
        if verb == "writes" {
            return self.add_writer(text);
        }
        Ok(self.setting.take(known, verb, text)? || self.expected.take(known, verb, text)?)
    }

    fn add_writer(&mut self, text: &str) -> Result<bool, AllocError> {
        let Some(writer) = Writer::of(self.setting.alloc, text)? else {
            return Ok(false);
        };
        self.writers.push(writer)?;
        Ok(true)
    }

    // What of the run is not as expected.
    fn difference(self) -> Result<Option<&'static str>, AllocError> {
        let Talk {
            setting,
            expected,
            writers,
        } = self;
        if writers.is_empty() {
            let seen = run(setting)?;
            return Ok(expected.difference(&seen));
        }
        if is_key_lost(setting, &writers)? {
            return Ok(Some("a later run lacks a key that was acknowledged"));
        }
        Ok(None)
    }
}

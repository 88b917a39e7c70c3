// The calls of a test, and the answers that they must have.
use std::alloc::{AllocError, Global};
use std::io;

/// A device with calls that are written as text.
pub trait Device {
    /// Makes the call with this verb, and returns its answer as text. `None` if it is none of its calls.
    fn answer(&mut self, alloc: Global, verb: &str, text: &str) -> io::Result<Option<String>>;
}

/// The calls that are left, and the first answer that was wrong.
#[derive(Drop)]
pub struct Script<'a> {
    alloc: Global,
    calls: &'a [String],
    wrong: Option<String>,
}

impl<'a> Script<'a> {
    pub fn new(alloc: Global, calls: &'a [String]) -> Self {
        Script {
            alloc,
            calls,
            wrong: None,
        }
    }

    pub fn alloc(&self) -> Global {
        self.alloc
    }

    /// Makes calls of this device, up to one that is none of its calls, or whose answer is wrong.
    pub fn run<D: Device>(&mut self, device: &mut D) -> io::Result<()> {
        for line in self.calls {
            if self.wrong.is_some() || !self.step(device, line.as_str())? {
                break;
            }
            self.calls = after_first(self.calls);
        }
        Ok(())
    }

    /// The same for one call, whose answer is given.
    pub fn check(&mut self, verb: &str, answer: Option<String>) -> io::Result<()> {
        self.run(&mut Given { verb, answer })
    }

    // Makes the call in a line. Returns whether the device has it.
    fn step<D: Device>(&mut self, device: &mut D, line: &str) -> io::Result<bool> {
        let Some((times, rest)) = times_of(line) else {
            return Ok(false);
        };
        let (call, wanted) = rest.split_once(" = ").unwrap_or((rest, ""));
        let (verb, text) = call.split_once(' ').unwrap_or((call, ""));
        for _ in 0..times {
            match device.answer(self.alloc, verb, text)? {
                None => return Ok(false),
                Some(answer) if answer.as_str() == wanted => {}
                Some(answer) => {
                    self.wrong = Some(format!(in self.alloc;
                        "`{line}`: the answer is `{answer}`"
                    )?);
                    break;
                }
            }
        }
        Ok(true)
    }

    /// Leaves out the calls that are left, where they cannot be made on this machine.
    pub fn skip(&mut self) {
        self.calls = &[];
    }

    /// The error that ended the calls, the first wrong answer, or the first call that no device has.
    pub fn fault(self, outcome: io::Result<()>) -> Result<Option<String>, AllocError> {
        if let Err(error) = outcome {
            return Ok(Some(format!(in self.alloc; "{error}")?));
        }
        match (self.wrong, self.calls) {
            (None, [line, ..]) => Ok(Some(format!(in self.alloc;
                "`{line}`: there is no such call"
            )?)),
            (wrong, _) => Ok(wrong),
        }
    }
}

fn after_first(calls: &[String]) -> &[String] {
    match calls {
        [_, rest @ ..] => rest,
        [] => calls,
    }
}

// How often the call of a line is made, and the rest of the line. `None` if the count is not a number.
fn times_of(line: &str) -> Option<(u64, &str)> {
    match line.split_once(" times: ") {
        Some((count, rest)) => Some((count.parse::<u64>().ok()?, rest)),
        None => Some((1, line)),
    }
}

// A device with one call, whose answer is given.
#[derive(Drop)]
struct Given<'a> {
    verb: &'a str,
    answer: Option<String>,
}

impl Device for Given<'_> {
    fn answer(&mut self, _alloc: Global, verb: &str, _text: &str) -> io::Result<Option<String>> {
        Ok(if verb == self.verb {
            self.answer.take()
        } else {
            None
        })
    }
}

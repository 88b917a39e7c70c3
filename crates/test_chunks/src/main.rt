//! Tests chunks with ample memory. Each line of the input is a command, and its output is one line. A command works on
//! the current packed chunk, or after `plain ` on the current plain one. A sample is written `TIME:VALUE:MADE`: its
//! time in milliseconds, its value in millionths, and how many rules the series had.
//!
//! - `chunk LIMIT SAMPLE ..`: creates a chunk of this many bytes with these samples, and prints it: its limit, the
//!   number of samples, the first and the last one, all samples that a lookup finds, and its bytes;
//! - `more SAMPLE ..`: appends these samples, up to one that does not fit;
//! - `late SAMPLE`: prints the chunk with this sample inserted, or `none` if it does not fit;
//! - `with SAMPLE` and `without FROM TO`: print the chunks after writing a sample or deleting an interval;
//! - `seen FROM TO`: prints the samples that a lookup finds;
//! - `long look-ups`, `long late` and `long order FACTOR`: print whether, in a long packed chunk, lookups find the
//!   list's samples, a late sample gets its place, and samples in this order give the bytes of the format;
//! - `bytes LIMIT HEX`: makes a packed chunk of these bytes and prints it, or `none` if they are no chunk's;
//! - `small`: prints whether a packed chunk takes at most 160 bytes beside its samples, so that a chunk without marks
//!   allocates none.
//!
//! The lines are in a file, not in code, because test code is proved and the lines of a file are not.
#![tactic(auto)]

mod long;
mod restored;
mod texts;
mod trial;

ghost use Rattle.std.specs.Prelude.{◌≡◌, ◌<◌};

use std::alloc::{AllocError, Global};
use std::io;
use std::marker::Brand;
use std::sync::ledger::{Blank, Ledger};
use trial::BothFormats;
use ts_sample::Steps;

fn main(rt: HostRuntime) -> io::Result<()> {
    let alloc = rt.alloc();
    let mut lines = Vec::new(alloc);
    for line in rt.lines(alloc) {
        lines.push(line?)?;
    }
    for answer in &answers::<Brand>(alloc, Blank::new(1), &lines)? {
        println!(rt; "{answer}")?;
    }
    Ok(())
}

// The output for the lines.
fn answers<L: Ledger>(
    alloc: Global,
    blank: Blank,
    lines: &[String],
) -> Result<Vec<String>, AllocError>
    requires name { blank.name ≡ L.name }
    requires parts { blank.parts ≡ L.parts }
    requires some { 0 < blank.parts }
{
    let mut steps = Steps::<L>::new(blank);
    let mut trials = BothFormats::new(alloc)?;
    let mut answers = Vec::new(alloc);
    for line in lines {
        let answer = match trials.answer(line, &mut steps)? {
            Some(answer) => answer,
            None => String::from_str(alloc, "not read")?,
        };
        answers.push(answer)?;
    }
    Ok(answers)
}

//! Tests `ts_command`. Each line of the input is a request, its arguments separated by single spaces. The output is
//! `ok` and a summary of the command, or the message of the first error in it and the error's own text. After `in place
//! `, the line is a TS.ADD to parse without copying, if it can be. The lines are in a file, not in code, because test
//! code is proved and the lines of a file are not.
#![tactic(auto)]

mod summary;
mod texts;

use std::alloc::{AllocError, Global};
use std::io;
use ts_command::{Command, CommandFault, SimpleAdd, read};
use ts_resp::Word;

fn main(rt: HostRuntime) -> io::Result<()> {
    for line in rt.lines(rt.alloc()) {
        let answer = answer(rt.alloc(), line?.as_str())?;
        println!(rt; "{answer}")?;
    }
    Ok(())
}

// The output for a line.
fn answer(alloc: Global, line: &str) -> Result<String, AllocError> {
    if let Some(request) = line.strip_prefix("in place ") {
        return in_place(alloc, request);
    }
    match read(words(alloc, line)?) {
        Ok(command) => line_of(alloc, &command),
        Err(CommandFault::Memory(error)) => Err(error),
        Err(fault) => {
            let message = fault.message();
            format!(in alloc; "{message} ({fault})")
        }
    }
}

// The ON_DUPLICATE of a TS.ADD that can be parsed without copying.
fn in_place(alloc: Global, request: &str) -> Result<String, AllocError> {
    let words = words(alloc, request)?;
    match SimpleAdd::read(&words) {
        Some(addition) => {
            let on = addition.on;
            format!(in alloc; "ok in place, on {on:?}")
        }
        None => String::from_str(alloc, "not in place"),
    }
}

// The arguments of a line. Two spaces in a row, or one at the end, make an empty argument.
fn words(alloc: Global, line: &str) -> Result<Vec<Word>, AllocError> {
    let mut words = Vec::new(alloc);
    for word in line.split(' ') {
        words.push(Word::from_slice(alloc, word.as_bytes())?)?;
    }
    Ok(words)
}

// The output for a command: its summary, and whether it needs the clock.
fn line_of(alloc: Global, command: &Command) -> Result<String, AllocError> {
    let summary = summary::summary(alloc, command)?;
    if command.needs_clock() {
        return format!(in alloc; "ok at the clock: {summary}");
    }
    format!(in alloc; "ok {summary}")
}

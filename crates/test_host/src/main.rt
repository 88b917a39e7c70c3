//! Tests the modes `host` and `fold`: `top` over a hub, a journal and outputs in memory. A test in the input begins
//! with a line with its name, and ends with an empty line. Its other lines say what happens:
//!
//! - `words`: the command line, if it is not `host here`;
//! - `sends 1 PING\r\n`: the hub brings bytes of the link 1. With `spells 1` it brings each byte alone, and with
//!   `both-spell` each byte of the link 1 and then the same of the link 2;
//! - `closes 1`: the link 1 has closed. `pauses`: nothing more has arrived so far;
//! - `had`: the content of the journal before the run, if it is not empty;
//! - `slow`: the journal takes one byte a call;
//! - `hub-fails 1 2`, `output-fails`, `journal-fails`: the calls with these numbers fail, of the hub's `open`, `next`
//!   and `give`, of writes to the output, and of the journal;
//!
//! and what is expected. Nothing else may be let out or written:
//!
//! - `sent 1 +PONG\r\n`: the hub has let out a packet to the link 1;
//! - `line`: a line of the output after `ready here`. `no-output`: there is none, `ready here` neither;
//! - `has`: the content of the journal after the run, if it is not empty;
//! - `synced`: the content that it had at a sync. Its length is compared;
//! - `status` and `error`: the exit status, if it is not 0, and the line on standard error.
//!
//! Instead of all this, `writes 1 a d` expects that a later run over the journal has the keys `a` and `d`, which the
//! link 1 writes, one with each request. A key whose reply is an error may be missing.
//!
//! Bytes are written with the escapes `\r`, `\n`, `\0` and `\x14`. `define CREATED` and bytes gives these a name. The
//! content of a journal is written as parts between ` + `, each a name that is defined or bytes, and so are the bytes
//! of a definition. A group of lines that begins with `scene` and a name is no test: with `as` and that name, a later
//! group takes over its lines. `#` begins a comment.
//!
//! A test passes if all is as expected; its name is then printed. Of any other, the name and what is wrong are printed
//! to standard error, and the status is 1.
#![tactic(auto)]

mod expected;
mod kept;
mod known;
mod run;
mod setting;
mod short_log;
mod steps;
mod talk;
mod texts;

use known::Known;
use std::io;
use std::process::ExitCode;

fn main(rt: HostRuntime) -> io::Result<ExitCode> {
    let alloc = rt.alloc();
    let mut have_failed = false;
    let mut known = Known::new(alloc);
    let mut lines = Vec::new(alloc);
    for line in rt.lines(alloc) {
        let line = line?;
        if line.as_str().is_empty() {
            have_failed |= !passes(&rt, &mut known, &lines)?;
            lines.clear();
        } else {
            known.add(line, &mut lines)?;
        }
    }
    have_failed |= !passes(&rt, &mut known, &lines)?;
    Ok(ExitCode::from(u8::from(have_failed)))
}

// Runs the test in a group of lines, and prints its outcome. Returns whether it passes. A scene and no lines do.
fn passes(rt: &HostRuntime, known: &mut Known, lines: &[String]) -> io::Result<bool> {
    let [name, others @ ..] = lines else {
        return Ok(true);
    };
    if let Some(scene) = name.as_str().strip_prefix("scene ") {
        known.keep_scene(scene, others)?;
        return Ok(true);
    }
    match talk::fault(rt.alloc(), known, others)? {
        None => println!(rt; "{name}")?,
        Some(fault) => {
            eprintln!(rt; "{name}: {fault}")?;
            return Ok(false);
        }
    }
    Ok(true)
}

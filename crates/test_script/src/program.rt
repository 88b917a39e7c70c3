// The loop of a program that runs the tests in its input.
use crate::script::Script;
use std::alloc::{AllocError, Global};
use std::io;
use std::process::ExitCode;

/// The devices that the tests of a program are about.
pub trait Devices {
    /// Makes the calls of a test on the device in its second line.
    fn run(&self, device: &str, script: &mut Script) -> io::Result<()>;
}

/// Runs the tests in the input. An empty line ends a test, and so does the end of the input. A line that begins with
/// `#` is a comment. A test passes if each call has its answer; its name is then printed. Of any other, the name and
/// what is wrong are printed to standard error, and the status is 1.
pub fn run_tests<R: Input + Print + Eprint + AllocGlobal, D: Devices>(
    rt: &R,
    devices: &D,
) -> io::Result<ExitCode> {
    let mut have_failed = false;
    let mut lines = Vec::new(rt.alloc());
    for line in rt.lines(rt.alloc()) {
        let line = line?;
        if line.as_str().is_empty() {
            have_failed |= !passes(rt, devices, &lines)?;
            lines.clear();
        } else if !line.as_str().starts_with('#') {
            lines.push(line)?;
        }
    }
    have_failed |= !passes(rt, devices, &lines)?;
    Ok(ExitCode::from(u8::from(have_failed)))
}

// Runs the test in these lines, and prints its outcome. Returns whether it passes. No lines do.
fn passes<R: Print + Eprint + AllocGlobal, D: Devices>(
    rt: &R,
    devices: &D,
    lines: &[String],
) -> io::Result<bool> {
    let Some(name) = lines.first() else {
        return Ok(true);
    };
    match fault(rt.alloc(), devices, lines)? {
        None => println!(rt; "{name}")?,
        Some(fault) => {
            eprintln!(rt; "{name}: {fault}")?;
            return Ok(false);
        }
    }
    Ok(true)
}

// Runs the test in these lines. Returns what is wrong, if anything is.
fn fault<D: Devices>(
    alloc: Global,
    devices: &D,
    lines: &[String],
) -> Result<Option<String>, AllocError> {
    let [_, device, calls @ ..] = lines else {
        return Ok(Some(String::from_str(alloc, "there is no device")?));
    };
    let mut script = Script::new(alloc, calls);
    let outcome = devices.run(device.as_str(), &mut script);
    script.fault(outcome)
}

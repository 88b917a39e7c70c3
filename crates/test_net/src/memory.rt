// Memory.
use crate::clients::Clients;
use crate::echo::Echo;
use std::io::ErrorKind;
use std::{fs, io};
use test_script::{Script, answer_of, bytes_of};

/// More pages of addresses than a program has. Only the checked build has this many; it does not free memory at once.
const CHECKED_PAGES: usize = 268_435_456;

/// Ten hundreds of clients come and go. The one answer, `is-freed`, is whether they leave less than a MiB in use.
pub(crate) fn run(rt: &HostRuntime, script: &mut Script) -> io::Result<()> {
    if pages(rt, 0)? > CHECKED_PAGES {
        script.skip();
        return Ok(());
    }
    let mut echo = Echo::new(rt)?;
    come_and_go(rt, &mut echo)?;
    let before = pages(rt, 1)?;
    for _ in 0..10 {
        come_and_go(rt, &mut echo)?;
    }
    let is_freed = pages(rt, 1)? < before.saturating_add(256);
    script.check("is-freed", answer_of(rt.alloc(), is_freed)?)
}

// A number of the file in which Linux says how many pages the process has: of addresses, and then of memory.
fn pages(rt: &HostRuntime, place: usize) -> io::Result<usize> {
    let text = fs::read_to_string(rt, "/proc/self/statm")?;
    let word = text.split(' ').nth(place).unwrap_or("");
    match word.parse::<usize>() {
        Ok(count) => Ok(count),
        Err(_) => Err(io::Error::from(ErrorKind::InvalidData)),
    }
}

// A hundred clients send some bytes each and close without reading.
fn come_and_go(rt: &HostRuntime, echo: &mut Echo) -> io::Result<()> {
    let mut clients = Clients::new(rt.alloc());
    clients.connect(echo, 100)?;
    clients.send_each(&bytes_of(rt.alloc(), "numbered 10000")?)?;
    let total = echo.taken.saturating_add(1_000_000);
    echo.serve(total)?;
    drop(clients);
    let links = echo.closed.len().saturating_add(100);
    echo.serve_until_closed(links)
}

// How much a hub takes of its links between two pauses.
use crate::clients::Clients;
use crate::echo::Echo;
use std::alloc::Global;
use std::io;
use test_script::{Device, Script, answer_of, bytes_of, number_of};
use ts_io::Hub;

/// The one call is `largest-is-at-most 163840 10`: whether the hub takes at most 163,840 bytes between two pauses,
/// while ten clients send 40,000 bytes each and have them back.
pub(crate) fn run(rt: &HostRuntime, script: &mut Script) -> io::Result<()> {
    script.run(&mut Rounds { rt })
}

#[derive(Drop)]
struct Rounds<'a> {
    rt: &'a HostRuntime,
}

impl Device for Rounds<'_> {
    fn answer(&mut self, alloc: Global, verb: &str, text: &str) -> io::Result<Option<String>> {
        let (most, links) = text.split_once(' ').unwrap_or((text, ""));
        match verb {
            "largest-is-at-most" => {
                let largest = largest_round(self.rt, number_of(links))?;
                answer_of(alloc, largest as u64 <= number_of(most))
            }
            _ => Ok(None),
        }
    }
}

fn largest_round(rt: &HostRuntime, links: u64) -> io::Result<usize> {
    let mut echo = Echo::new(rt)?;
    let mut clients = Clients::new(rt.alloc());
    clients.connect(&echo, links)?;
    let piece = bytes_of(rt.alloc(), "numbered 40000")?;
    clients.send_each(&piece)?;
    let most = serve(&mut echo, clients.count().saturating_mul(40_000))?;
    if !clients.each_hears(rt.alloc(), &piece)? {
        return Err(io::Error::from(io::ErrorKind::InvalidData));
    }
    Ok(most)
}

// Echoes until this many bytes have come. Returns the most between two pauses.
fn serve(echo: &mut Echo, total: usize) -> io::Result<usize> {
    let mut most: usize = 0;
    for _ in 0..u64::MAX {
        if echo.taken >= total {
            break;
        }
        echo.take()?;
        echo.hub.let_out();
        most = most.max(echo.in_round);
    }
    Ok(most)
}

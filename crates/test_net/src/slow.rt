// Clients that read late or never.
use crate::links::EchoCalls;
use std::alloc::Global;
use std::io;
use std::io::{ErrorKind, Read, Write};
use test_script::{Device, Script, answer_of, bytes_of, number_of, silent};
use ts_io::Hub;

const MEBIBYTE: u64 = 1_048_576;

/// Runs the calls on a hub with a client that reads late or never, the first one, and another one.
pub(crate) fn run(rt: &HostRuntime, script: &mut Script) -> io::Result<()> {
    script.run(&mut SlowCalls {
        calls: EchoCalls::new(rt)?,
    })
}

#[derive(Drop)]
struct SlowCalls<'a> {
    calls: EchoCalls<'a>,
}

impl SlowCalls<'_> {
    // One request of the second client and its reply.
    fn ask(&mut self, alloc: Global) -> io::Result<bool> {
        self.calls.clients.client(2)?.write_all(b"other")?;
        let total = self.calls.echo.taken.saturating_add(5);
        self.calls.echo.serve(total)?;
        self.calls.clients.hears(alloc, 2, b"other")
    }

    // Gives the first link a MiB again and again until it closes, while the other client is served. Returns whether
    // these were more than `least`: some MiB are in the buffers of the system.
    fn give_until_closed(&mut self, alloc: Global, least: u64) -> io::Result<bool> {
        let reply = bytes_of(alloc, "numbered 1048576")?;
        for replies in 0..200 {
            if !self.calls.echo.closed.is_empty() {
                return Ok(replies > least);
            }
            if self.calls.echo.hub.give(1, &reply).is_err() || !self.ask(alloc)? {
                break;
            }
        }
        Ok(false)
    }

    // The first client reads this many MiB. Each time that nothing has arrived the hub sends more, woken by bytes of
    // the second.
    fn read_late(&mut self, alloc: Global, count: u64) -> io::Result<()> {
        let mut room = bytes_of(alloc, "numbered 1048576")?;
        let count = count.saturating_mul(MEBIBYTE);
        let mut heard: u64 = 0;
        self.calls.clients.client(1)?.set_nonblocking(true)?;
        for _ in 0..u64::MAX {
            if heard >= count {
                break;
            }
            heard = heard.saturating_add(self.read_some(&mut room)?);
        }
        self.calls.clients.client(1)?.set_nonblocking(false)
    }

    fn read_some(&mut self, room: &mut [u8]) -> io::Result<u64> {
        match self.calls.clients.client(1)?.read(room) {
            Ok(0) => return Err(io::Error::from(ErrorKind::UnexpectedEof)),
            Ok(more) => return Ok(more as u64),
            Err(_) => {}
        }
        self.calls.clients.client(2)?.write_all(b"other")?;
        self.calls.echo.take()?;
        Ok(0)
    }
}

// The calls of a hub and its clients, `ask` of the second client, `closes-after-more-than 64` for how many MiB are
// given to the first until its link closes, and `read-late 65` MiB.
impl Device for SlowCalls<'_> {
    fn answer(&mut self, alloc: Global, verb: &str, text: &str) -> io::Result<Option<String>> {
        match verb {
            "ask" => answer_of(alloc, self.ask(alloc)?),
            "closes-after-more-than" => answer_of(
                alloc,
                self.give_until_closed(alloc, number_of(text))?,
            ),
            "read-late" => {
                self.read_late(alloc, number_of(text))?;
                silent(alloc)
            }
            _ => self.calls.answer(alloc, verb, text),
        }
    }
}

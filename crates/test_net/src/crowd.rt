// Many links at once.
use crate::descriptors::open_many;
use crate::links::EchoCalls;
use std::alloc::Global;
use std::io;
use std::io::Write;
use test_script::{Device, Script, answer_of, bytes_of, number_of, silent};
use ts_io::Hub;

const MANY: usize = 1000;

/// How many descriptors a test needs beside two for each link.
const OTHERS: usize = 20;

/// Runs the calls on a hub with many clients.
pub(crate) fn run(rt: &HostRuntime, script: &mut Script) -> io::Result<()> {
    script.run(&mut CrowdCalls {
        rt,
        calls: EchoCalls::new(rt)?,
    })
}

#[derive(Drop)]
struct CrowdCalls<'a> {
    rt: &'a HostRuntime,
    calls: EchoCalls<'a>,
}

impl CrowdCalls<'_> {
    // Connects a thousand, or as many as the process may have at both ends. Returns whether there are any.
    fn connect_many(&mut self) -> io::Result<bool> {
        let spare = open_many(self.rt, 2 * MANY + OTHERS)?.len();
        let count = MANY.min(spare.saturating_sub(OTHERS) / 2);
        self.calls.connect(count as u64)?;
        Ok(count > 0)
    }

    // Byte by byte: each client sends the digits of 1000 and its number, one in each round.
    fn send_digits(&mut self, alloc: Global) -> io::Result<()> {
        for place in 0..4 {
            self.send_digit(alloc, place)?;
            let count = self.calls.clients.count();
            self.calls.echo.serve(count.saturating_mul(place + 1))?;
        }
        Ok(())
    }

    fn send_digit(&mut self, alloc: Global, place: usize) -> io::Result<()> {
        for number in 0..self.calls.clients.count() as u64 {
            let digits = digits_of(alloc, number)?;
            if let Some(digit) = digits.as_bytes().get(place) {
                self.calls.clients.client(number + 1)?.write_all(&[*digit])?;
            }
        }
        Ok(())
    }

    // Whether each client receives its own digits.
    fn hear_digits(&mut self, alloc: Global) -> io::Result<bool> {
        for number in 0..self.calls.clients.count() as u64 {
            let digits = digits_of(alloc, number)?;
            if !self
                .calls
                .clients
                .hears(alloc, number + 1, digits.as_bytes())?
            {
                return Ok(false);
            }
        }
        Ok(true)
    }

    // Serves until this many bytes of each client have come, counted all together.
    fn serve_each(&mut self, count: u64) -> io::Result<()> {
        let total = self.calls.clients.count().saturating_mul(count as usize);
        self.calls.echo.serve(total)
    }

    // One more client sends these bytes, and has them back. Its link is then closed here.
    fn come_and_be_closed(&mut self, bytes: &[u8]) -> io::Result<()> {
        self.calls.connect(1)?;
        let number = self.calls.clients.count() as u64;
        self.calls.clients.client(number)?.write_all(bytes)?;
        let total = self.calls.echo.taken.saturating_add(bytes.len());
        self.calls.echo.serve(total)?;
        self.calls.echo.hub.close(number);
        self.calls.echo.hub.let_out();
        Ok(())
    }

    // One more client comes, while the first sends `again`, and has its bytes back. Then it leaves.
    fn come_and_go(&mut self, alloc: Global) -> io::Result<bool> {
        self.calls.connect(1)?;
        let number = self.calls.clients.count() as u64;
        self.calls.clients.client(number)?.write_all(b"other")?;
        self.calls.clients.client(1)?.write_all(b"again")?;
        let total = self.calls.echo.taken.saturating_add(10);
        self.calls.echo.serve(total)?;
        let is_heard = self.calls.clients.hears(alloc, number, b"other")?;
        self.calls.clients.leave(number);
        let links = self.calls.echo.closed.len().saturating_add(1);
        self.calls.echo.serve_until_closed(links)?;
        Ok(is_heard && self.calls.echo.has_closed_last(number))
    }

    // Calls on all clients: `each-sends BYTES`, `each-hears BYTES`, `each-hears-all BYTES` until the server closes, and
    // `all-leave`.
    fn answer_on_all(
        &mut self,
        alloc: Global,
        verb: &str,
        text: &str,
    ) -> io::Result<Option<String>> {
        let bytes = bytes_of(alloc, text)?;
        match verb {
            "each-sends" => self.calls.clients.send_each(&bytes)?,
            "each-hears" => {
                return answer_of(alloc, self.calls.clients.each_hears(alloc, &bytes)?);
            }
            "each-hears-all" => {
                return answer_of(alloc, self.calls.clients.each_hears_all(alloc, &bytes)?);
            }
            "all-leave" => self.calls.clients.leave_all(),
            "one-is-closed" => self.come_and_be_closed(&bytes)?,
            _ => return Ok(None),
        }
        silent(alloc)
    }
}

// The calls of a hub and its clients, those above, `connect-many`, `digits-are-sent`, `digits-are-heard`, and
// `serve-until-each-closed`. `serve-each 15` serves until 15 bytes of each have come. `one-comes-and-goes` tells
// whether it was served and its link reported as closed. `one-is-closed ask` has one more client whose link is closed
// here.
impl Device for CrowdCalls<'_> {
    fn answer(&mut self, alloc: Global, verb: &str, text: &str) -> io::Result<Option<String>> {
        match verb {
            "connect-many" => answer_of(alloc, self.connect_many()?),
            "digits-are-sent" => {
                self.send_digits(alloc)?;
                silent(alloc)
            }
            "digits-are-heard" => answer_of(alloc, self.hear_digits(alloc)?),
            "serve-each" => {
                self.serve_each(number_of(text))?;
                silent(alloc)
            }
            "serve-until-each-closed" => {
                let links = self.calls.clients.count();
                self.calls.echo.serve_until_closed(links)?;
                silent(alloc)
            }
            "one-comes-and-goes" => answer_of(alloc, self.come_and_go(alloc)?),
            _ => match self.answer_on_all(alloc, verb, text)? {
                Some(answer) => Ok(Some(answer)),
                None => self.calls.answer(alloc, verb, text),
            },
        }
    }
}

fn digits_of(alloc: Global, number: u64) -> io::Result<String> {
    let digits = number.saturating_add(1000);
    Ok(format!(in alloc; "{digits}")?)
}

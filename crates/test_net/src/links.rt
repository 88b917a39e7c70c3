// A hub that echoes, and its clients.
use crate::clients::Clients;
use crate::echo::{Echo, next_bytes, open_descriptors};
use std::alloc::Global;
use std::io;
use test_script::{Device, Script, answer_of, bytes_of, done, number_of, silent};
use ts_io::{Failed, Hub, Next};

/// Runs the calls on a hub and clients.
pub(crate) fn run(rt: &HostRuntime, script: &mut Script) -> io::Result<()> {
    script.run(&mut EchoCalls::new(rt)?)
}

/// A hub that echoes, its clients, and how many descriptors were open before they came.
#[derive(Drop)]
pub(crate) struct EchoCalls<'a> {
    pub(crate) echo: Echo<'a>,
    pub(crate) clients: Clients,
    before: usize,
}

impl<'a> EchoCalls<'a> {
    pub(crate) fn new(rt: &'a HostRuntime) -> io::Result<Self> {
        Ok(EchoCalls {
            echo: Echo::new(rt)?,
            before: open_descriptors(rt)?,
            clients: Clients::new(rt.alloc()),
        })
    }

    /// Connects this many more clients to the hub.
    pub(crate) fn connect(&mut self, count: u64) -> io::Result<()> {
        self.clients.connect(&self.echo, count)
    }

    // What the hub has received and reported: `taken` bytes in all, the `newest` link, the links that have `closed`,
    // and how many those are.
    fn answer_on_echo(&mut self, alloc: Global, verb: &str) -> io::Result<Option<String>> {
        match verb {
            "taken" => answer_of(alloc, self.echo.taken),
            "newest" => answer_of(alloc, self.echo.newest),
            "closed" => closed(alloc, &self.echo),
            "last-closed" => last_closed(alloc, &self.echo),
            _ => Ok(None),
        }
    }

    // Calls of the hub alone: `next`, `next-bytes` after any pauses, `give 1 reply`, `let-out` and `close 1`.
    fn answer_on_hub(
        &mut self,
        alloc: Global,
        verb: &str,
        text: &str,
    ) -> io::Result<Option<String>> {
        match verb {
            "next" => next(alloc, self.echo.hub.next()),
            "next-bytes" => answer_of(alloc, next_bytes(&mut self.echo.hub).unwrap_or(0)),
            "give" => done(alloc, give(alloc, &mut self.echo.hub, text)?),
            "let-out" => {
                self.echo.hub.let_out();
                silent(alloc)
            }
            "close" => {
                self.echo.hub.close(number_of(text));
                silent(alloc)
            }
            _ => self.answer_on_echo(alloc, verb),
        }
    }

    // `serve 5`: the hub echoes until it has received five bytes since it began. `take 5` does the same and lets
    // nothing out. `serve-until-closed 1` goes on until one link has closed, and `serve-until-open 2` until two more
    // descriptors are open than at first.
    fn serve(&mut self, alloc: Global, verb: &str, text: &str) -> io::Result<Option<String>> {
        let number = number_of(text) as usize;
        match verb {
            "serve" => self.echo.serve(number)?,
            "take" => self.echo.take_some(number)?,
            "serve-until-closed" => self.echo.serve_until_closed(number)?,
            "serve-until-open" => self
                .echo
                .serve_until_open(self.before.saturating_add(number))?,
            _ => return self.answer_on_hub(alloc, verb, text),
        }
        silent(alloc)
    }
}

// Calls of a client, those above, and `connect` of one more client.
impl Device for EchoCalls<'_> {
    fn answer(&mut self, alloc: Global, verb: &str, text: &str) -> io::Result<Option<String>> {
        if verb == "connect" {
            self.connect(1)?;
            return silent(alloc);
        }
        match self.clients.answer(alloc, verb, text)? {
            Some(answer) => Ok(Some(answer)),
            None => self.serve(alloc, verb, text),
        }
    }
}

/// What a hub received next.
pub(crate) fn next(alloc: Global, outcome: Result<Next, Failed>) -> io::Result<Option<String>> {
    match outcome {
        Ok(next) => answer_of(alloc, format_args!("{next:?}")),
        Err(_) => answer_of(alloc, "failed"),
    }
}

// Gives bytes to the link whose number the text begins with.
fn give<H: Hub>(alloc: Global, hub: &mut H, text: &str) -> io::Result<Result<(), Failed>> {
    let (link, rest) = text.split_once(' ').unwrap_or((text, ""));
    let bytes = bytes_of(alloc, rest)?;
    Ok(hub.give(number_of(link), &bytes))
}

fn closed(alloc: Global, echo: &Echo) -> io::Result<Option<String>> {
    let links = &echo.closed;
    answer_of(alloc, format_args!("{links:?}"))
}

fn last_closed(alloc: Global, echo: &Echo) -> io::Result<Option<String>> {
    let last = echo.closed.last();
    answer_of(alloc, format_args!("{last:?}"))
}

// The clients of a hub.
use crate::echo::Echo;
use std::alloc::Global;
use std::io;
use std::io::{ErrorKind, Read, Write};
use std::net::{Shutdown, TcpStream};
use test_script::{answer_of, bytes_of, number_of, shown, silent};

/// Clients, each until it leaves.
#[derive(Drop)]
pub(crate) struct Clients {
    streams: Vec<Option<TcpStream>>,
}

impl Clients {
    pub(crate) fn new(alloc: Global) -> Self {
        Clients {
            streams: Vec::new(alloc),
        }
    }

    /// Adds this many clients.
    pub(crate) fn connect(&mut self, echo: &Echo, count: u64) -> io::Result<()> {
        for _ in 0..count {
            self.streams.push(Some(echo.connect()?))?;
        }
        Ok(())
    }

    pub(crate) fn count(&self) -> usize {
        self.streams.len()
    }

    /// The client with this number, counted from 1.
    pub(crate) fn client(&mut self, number: u64) -> io::Result<&mut TcpStream> {
        match self.streams.get_mut(number.wrapping_sub(1) as usize) {
            Some(Some(stream)) => Ok(stream),
            _ => Err(io::Error::from(ErrorKind::NotConnected)),
        }
    }

    /// Whether the client with this number receives exactly these bytes next.
    pub(crate) fn hears(&mut self, alloc: Global, number: u64, bytes: &[u8]) -> io::Result<bool> {
        hears(self.client(number)?, alloc, bytes)
    }

    /// The client with this number leaves.
    pub(crate) fn leave(&mut self, number: u64) {
        if let Some(stream) = self.streams.get_mut(number.wrapping_sub(1) as usize) {
            *stream = None;
        }
    }

    /// All clients leave.
    pub(crate) fn leave_all(&mut self) {
        for stream in self.streams.iter_mut() {
            *stream = None;
        }
    }

    /// Calls of the client whose number the text begins with: `send 1 ask`, `hears 1 ask` whether it receives exactly
    /// these bytes next, `hears-all 1` until the server closes, `hears-nothing 1` so far, `shutdown 1` of its side, and
    /// `leave 1`.
    pub(crate) fn answer(
        &mut self,
        alloc: Global,
        verb: &str,
        text: &str,
    ) -> io::Result<Option<String>> {
        let (number, rest) = text.split_once(' ').unwrap_or((text, ""));
        let number = number_of(number);
        match verb {
            "send" => self.client(number)?.write_all(&bytes_of(alloc, rest)?)?,
            "shutdown" => self.client(number)?.shutdown(Shutdown::Write)?,
            "leave" => self.leave(number),
            "hears" => {
                let bytes = bytes_of(alloc, rest)?;
                return answer_of(alloc, self.hears(alloc, number, &bytes)?);
            }
            "hears-all" => return shown(alloc, &hear_all(self.client(number)?, alloc)?),
            "hears-nothing" => return answer_of(alloc, hears_nothing(self.client(number)?)?),
            _ => return Ok(None),
        }
        silent(alloc)
    }

    /// Sends these bytes from each client.
    pub(crate) fn send_each(&mut self, bytes: &[u8]) -> io::Result<()> {
        for number in 0..self.streams.len() as u64 {
            self.client(number + 1)?.write_all(bytes)?;
        }
        Ok(())
    }

    /// Whether each client receives these bytes next.
    pub(crate) fn each_hears(&mut self, alloc: Global, bytes: &[u8]) -> io::Result<bool> {
        for number in 0..self.streams.len() as u64 {
            if !hears(self.client(number + 1)?, alloc, bytes)? {
                return Ok(false);
            }
        }
        Ok(true)
    }

    /// Whether each client receives exactly these bytes until the server closes.
    pub(crate) fn each_hears_all(&mut self, alloc: Global, bytes: &[u8]) -> io::Result<bool> {
        for number in 0..self.streams.len() as u64 {
            if hear_all(self.client(number + 1)?, alloc)?.as_slice() != bytes {
                return Ok(false);
            }
        }
        Ok(true)
    }
}

// Whether the client receives exactly these bytes next.
fn hears(client: &mut TcpStream, alloc: Global, bytes: &[u8]) -> io::Result<bool> {
    let mut heard = Vec::from_elem(alloc, 0, bytes.len())?;
    client.read_exact(&mut heard)?;
    Ok(heard.as_slice() == bytes)
}

// All that the client receives until the server closes.
fn hear_all(client: &mut TcpStream, alloc: Global) -> io::Result<Vec<u8>> {
    let mut heard = Vec::new(alloc);
    client.read_to_end(&mut heard)?;
    Ok(heard)
}

// Whether nothing has come to the client so far.
fn hears_nothing(client: &mut TcpStream) -> io::Result<bool> {
    client.set_nonblocking(true)?;
    let is_empty = client.peek(&mut [0; 3]).is_err();
    client.set_nonblocking(false)?;
    Ok(is_empty)
}

// Clients of a listener over the network.
use std::alloc::Global;
use std::io;
use std::io::{ErrorKind, Read, Write};
use std::net::{Shutdown, TcpStream};
use test_script::{Device, answer_of, bytes_of, shown, silent};

/// A client, until it leaves, and what it has received.
#[derive(Drop)]
pub(crate) struct ClientCalls {
    stream: Option<TcpStream>,
    heard: Vec<u8>,
}

impl ClientCalls {
    pub(crate) fn new(alloc: Global, stream: TcpStream) -> Self {
        ClientCalls {
            stream: Some(stream),
            heard: Vec::new(alloc),
        }
    }

    fn stream(&mut self) -> io::Result<&mut TcpStream> {
        match &mut self.stream {
            Some(stream) => Ok(stream),
            None => Err(io::Error::from(ErrorKind::NotConnected)),
        }
    }

    fn send(&mut self, bytes: &[u8]) -> io::Result<()> {
        self.stream()?.write_all(bytes)
    }

    fn shut_down(&mut self) -> io::Result<()> {
        self.stream()?.shutdown(Shutdown::Write)
    }

    // Reads until the server closes.
    fn hear_all(&mut self) -> io::Result<()> {
        match &mut self.stream {
            Some(stream) => {
                stream.read_to_end(&mut self.heard)?;
                Ok(())
            }
            None => Ok(()),
        }
    }

    /// Reads what the system has buffered so far.
    pub(crate) fn hear_some(&mut self, room: &mut [u8]) -> io::Result<()> {
        if let Ok(count) = self.stream()?.read(room) {
            self.heard.extend_from_slice(&room[..count])?;
        }
        Ok(())
    }

    pub(crate) fn set_nonblocking(&mut self, is_set: bool) -> io::Result<()> {
        self.stream()?.set_nonblocking(is_set)
    }
}

// `send BYTES`, `shutdown` of its side, `leave`, `hear` until the server closes; of what it heard `heard` tells the
// bytes, `heard-count` how many, and `heard-last BYTES` whether it ends with the last thousand of these.
impl Device for ClientCalls {
    fn answer(&mut self, alloc: Global, verb: &str, text: &str) -> io::Result<Option<String>> {
        match verb {
            "send" => self.send(&bytes_of(alloc, text)?)?,
            "shutdown" => self.shut_down()?,
            "leave" => self.stream = None,
            "hear" => self.hear_all()?,
            "heard" => return shown(alloc, &self.heard),
            "heard-count" => return answer_of(alloc, self.heard.len()),
            "heard-last" => return ends_with_last(alloc, &self.heard, text),
            _ => return Ok(None),
        }
        silent(alloc)
    }
}

fn ends_with_last(alloc: Global, heard: &[u8], text: &str) -> io::Result<Option<String>> {
    let bytes = bytes_of(alloc, text)?;
    let (_, last) = bytes.split_at(bytes.len().saturating_sub(1000));
    answer_of(alloc, heard.ends_with(last))
}

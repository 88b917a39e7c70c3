// A TCP connection, and a reader and a writer that share it.
ghost use Rattle.std.specs.Prelude.{◌≡◌, ◌<◌, ◌≤◌, [], None, length, IfOk};
ghost use Rattle.std.specs.Io.{ReadsAtMost, WritesAtMost};
ghost use Rattle.std.specs.Io.KnownBytes.{ReadConsumes};
ghost use Rattle.ts_io.specs.Batches.{NonBlockingConsumes};
ghost use Rattle.ts_io.specs.Causes.{HasCause};
ghost use Rattle.ts_io.specs.Sinks.{Grows, WriteGrows};

use crate::system::checked;
use crate::tcp_socket::TcpSocket;
use crate::{Batches, Connection, Failed, Sink, Source, Wait};
use std::alloc::{AllocError, Global};
use std::cell::RefCell;
use std::io::{ErrorKind, Read, Write};
use std::net::TcpStream;
use std::rc::Rc;
use std::{io, rt};

/// A TCP connection, which counts its errors. The proofs assume nothing about what it sends and receives.
#[derive(Drop)]
pub struct TcpConnection {
    socket: TcpSocket,
    faults: u64,
}

impl TcpConnection {
    pub(crate) fn new(stream: TcpStream) -> Self {
        TcpConnection {
            socket: TcpSocket::new(stream),
            faults: 0,
        }
    }

    /// Ends the connection after the client has received what was sent. An error here comes after the last call that
    /// could report it, and is dropped.
    pub(crate) fn end<R: rt::Clock>(self, rt: &R) {
        let mut socket = self.socket;
        let _ = socket.linger(rt);
    }
}

impl Connection for TcpConnection {
    ghost left = { λ _. None };

    ghost has = { λ _ _. ⊥ };

    ghost faults = { λ c. c.faults };

    fn send(&mut self, bytes: &[u8], wait: Wait) -> Result<usize, Failed> {
        checked(self.socket.send(bytes, wait), &mut self.faults)
    }

    fn receive(&mut self, buf: &mut [u8]) -> Result<usize, Failed> {
        checked(self.socket.receive(buf), &mut self.faults)
    }

    fn try_receive(&mut self, buf: &mut [u8]) -> Result<Option<usize>, Failed> {
        checked(self.socket.try_receive(buf), &mut self.faults)
    }
}

/// The slot for the open connection, shared by its reader and its writer.
#[derive(Drop)]
pub(crate) struct Link {
    shared: Rc<RefCell<Option<Batches<TcpConnection>>>>,
}

impl Link {
    /// Creates an empty slot.
    pub(crate) fn new(alloc: Global) -> Result<Self, AllocError> {
        match Rc::new(alloc, RefCell::new(None)) {
            Ok(shared) => Ok(Link { shared }),
            Err(_) => Err(AllocError),
        }
    }

    /// Returns another handle of the same slot. Allocates nothing.
    pub(crate) fn share(&self) -> Result<Self, AllocError> {
        Ok(Link {
            shared: self.shared.clone()?,
        })
    }

    /// Puts a connection into the slot.
    pub(crate) fn put(&self, batches: Batches<TcpConnection>) -> io::Result<()> {
        match self.shared.try_replace(Some(batches)) {
            Ok(_) => Ok(()),
            Err(_) => Err(io::Error::from(ErrorKind::ResourceBusy)),
        }
    }

    /// Takes the connection out of the slot.
    pub(crate) fn take(&self) -> Option<Batches<TcpConnection>> {
        match self.shared.try_take() {
            Ok(batches) => batches,
            Err(_) => None,
        }
    }
}

/// Reads from the connection. Sends its queue first.
#[derive(Drop)]
pub struct TcpReader {
    link: Link,
}

impl TcpReader {
    pub(crate) fn new(link: Link) -> Self {
        TcpReader { link }
    }
}

impl Read for TcpReader {
    fn read(&mut self, buf: &mut [u8]) -> io::Result<usize> {
        let Ok(mut shared) = self.link.shared.try_borrow_mut() else {
            return Err(io::Error::from(ErrorKind::ResourceBusy));
        };
        match &mut *shared {
            Some(batches) => batches
                .read(buf)
                .map_err(|_| io::Error::from(ErrorKind::Other)),
            None => Err(io::Error::from(ErrorKind::NotConnected)),
        }
    }
}

/// Writes to the connection. The bytes are sent in a batch, at the latest before the next read or when the connection
/// is closed.
#[derive(Drop)]
pub struct TcpWriter {
    link: Link,
}

impl TcpWriter {
    pub(crate) fn new(link: Link) -> Self {
        TcpWriter { link }
    }
}

impl Write for TcpWriter {
    fn write(&mut self, buf: &[u8]) -> io::Result<usize> {
        let Ok(mut shared) = self.link.shared.try_borrow_mut() else {
            return Err(io::Error::from(ErrorKind::ResourceBusy));
        };
        match &mut *shared {
            Some(batches) => batches
                .write(buf)
                .map_err(|_| io::Error::from(ErrorKind::Other)),
            None => Err(io::Error::from(ErrorKind::NotConnected)),
        }
    }

    /// Does nothing: the queue is sent before the next read.
    fn flush(&mut self) -> io::Result<()> {
        Ok(())
    }
}

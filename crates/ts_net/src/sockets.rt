// The calls of the system: a listening socket, waiting for what arrives, and what reads and writes of sockets come to.
ghost use Rattle.std.specs.Prelude.{◌≡◌, ◌≢◌, IfOk, IfErr};
ghost use Rattle.std.specs.IoError.{error_kind};

use mio::net::{TcpListener, TcpStream};
use mio::{Events, Interest, Poll, Token};
use std::alloc::Global;
use std::io;
use std::io::ErrorKind;
use std::net::{Net, ToSocketAddrs};

/// The token of the listening socket.
pub(crate) const LISTENER: Token = Token(usize::MAX);

/// The most events that one wait reports.
const MAX_EVENTS: usize = 1024;

#[derive(Drop)]
pub(crate) struct Acceptor {
    pub(crate) poll: Poll,
    pub(crate) events: Events,
    listener: TcpListener,
}

impl Acceptor {
    /// Listens on the first of these addresses that the system allows.
    pub(crate) fn bind<R: Net>(rt: &R, alloc: Global, address: &str) -> io::Result<Self> {
        let mut failure = io::Error::from(ErrorKind::HostUnreachable);
        for candidate in address.to_socket_addrs(rt).map_err(lookup_error)? {
            match TcpListener::bind(rt, candidate) {
                Ok(listener) => return Acceptor::register(rt, alloc, listener),
                Err(error) => failure = error,
            }
        }
        Err(failure)
    }

    fn register<R: Net>(rt: &R, alloc: Global, listener: TcpListener) -> io::Result<Self> {
        let mut listener = listener;
        let poll = Poll::new(rt)?;
        let events = Events::with_capacity(alloc, MAX_EVENTS)?;
        poll.registry()
            .register(&mut listener, LISTENER, Interest::READABLE)?;
        Ok(Acceptor {
            poll,
            events,
            listener,
        })
    }

    /// Accepts a connection and registers it under this key.
    pub(crate) fn accept(&self, key: usize) -> io::Result<TcpStream> {
        let (mut stream, _) = self.listener.accept()?;
        stream.set_nodelay(true)?;
        self.poll.registry().register(
            &mut stream,
            Token(key),
            Interest::READABLE | Interest::WRITABLE,
        )?;
        Ok(stream)
    }
}

// The error of an address that leads nowhere. A failed search for a host has no kind of its own.
fn lookup_error(error: io::Error) -> io::Error {
    match error.kind() {
        ErrorKind::Uncategorized => io::Error::from(ErrorKind::HostUnreachable),
        _ => error,
    }
}

/// What a read or a write of a socket came to.
#[derive(Clone, Copy, PartialEq, Eq)]
pub(crate) enum Answer {
    /// This many bytes were read or written.
    Count(usize),
    /// It would have to wait.
    WouldWait,
    /// A signal interrupted it.
    Interrupted,
    /// It failed.
    Failed,
}

/// Sorts the answer of a read or a write: the same count, and a failure exactly for an error that is neither of the two
/// which only ask to call again.
pub(crate) fn answer_of(outcome: io::Result<usize>) -> Answer
    ensures count { IfOk outcome (λ count. result ≡ Answer.Count count) }
    ensures would_wait { IfErr outcome (λ error. error_kind error ≡ ErrorKind.WouldBlock
        → result ≡ Answer.WouldWait) }
    ensures interrupted { IfErr outcome (λ error. error_kind error ≡ ErrorKind.Interrupted
        → result ≡ Answer.Interrupted) }
    ensures failed { IfErr outcome (λ error. error_kind error ≢ ErrorKind.WouldBlock
        → error_kind error ≢ ErrorKind.Interrupted → result ≡ Answer.Failed) }
{
    match outcome {
        Ok(count) => Answer::Count(count),
        Err(error) => match error.kind() {
            ErrorKind::WouldBlock => Answer::WouldWait,
            ErrorKind::Interrupted => Answer::Interrupted,
            _ => Answer::Failed,
        },
    }
}

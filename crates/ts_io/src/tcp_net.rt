// A TCP listener.
ghost use Rattle.std.specs.Prelude.{◌≡◌, None, true, false, is_ok, OnOk, OnErr};
ghost use Rattle.ts_io.specs.Adapters.{failed_listens_of, link_is_open};
ghost use Rattle.ts_io.specs.Causes.{HasCause, saturating_succ};

use crate::system::checked;
use crate::tcp_connection::Link;
use crate::{
    Batches, Ends, Failed, Listener, StdSink, StdSource, TcpConnection, TcpReader, TcpWriter,
};
use std::net::{Net, TcpListener, TcpStream};
use std::{io, rt};

/// A listener over the system's network, which counts its errors. The proofs assume nothing about its connections.
///
/// Both ends of a connection share it and its queue of bytes to send. Closing sends the queue, then ends the
/// connection.
#[derive(Drop)]
pub struct TcpNet<R> {
    rt: R,
    listener: Option<TcpListener>,
    link: Option<Link>,
    has_open_link: bool,
    faults: u64,
}

impl<R> TcpNet<R>
where
    R: Net<Listener = TcpListener, Stream = TcpStream> + rt::Clock + AllocGlobal,
{
    /// Creates a listener without an address.
    pub fn new(rt: R) -> Self
        ensures faults { failed_listens_of result ≡ 0 }
        ensures out { link_is_open result ≡ false }
        ensures coming { ⟦<TcpNet<R> as Listener>⟧.coming result ≡ None }
        ensures closed { ⟦<TcpNet<R> as Listener>⟧.closed result ≡ None }
    {
        TcpNet {
            rt,
            listener: None,
            link: None,
            has_open_link: false,
            faults: 0,
        }
    }

    // Listens on this address. The slot for connections is allocated once.
    fn listen(&mut self, address: &str) -> io::Result<()>
        ensures out { link_is_open self.new ≡ link_is_open self.old }
        ensures faults { failed_listens_of self.new ≡ failed_listens_of self.old }
    {
        let listener = TcpListener::bind(&self.rt, address)?;
        if self.link.is_none() {
            self.link = Some(Link::new(self.rt.alloc())?);
        }
        self.listener = Some(listener);
        Ok(())
    }

    // Accepts the next connection. Allocates nothing.
    fn next_link(&self) -> io::Result<Ends<StdSource<TcpReader>, StdSink<TcpWriter>>> {
        let (Some(listener), Some(link)) = (&self.listener, &self.link) else {
            return Err(io::Error::from(io::ErrorKind::NotConnected));
        };
        let input = link.share()?;
        let out = link.share()?;
        let (stream, _) = listener.accept()?;
        link.put(Batches::new(self.rt.alloc(), TcpConnection::new(stream)))?;
        Ok(Ends {
            input: StdSource::new(TcpReader::new(input)),
            out: StdSink::new(TcpWriter::new(out)),
        })
    }

    // Sends the queue and ends the open connection.
    fn end_link(&self) {
        let Some(link) = &self.link else { return };
        let Some(mut batches) = link.take() else {
            return
        };
        if batches.send_all().is_ok() {
            batches.into_connection().end(&self.rt);
        }
    }
}

impl<R> Listener for TcpNet<R>
where
    R: Net<Listener = TcpListener, Stream = TcpStream> + rt::Clock + AllocGlobal,
{
    type In = StdSource<TcpReader>;

    type Out = StdSink<TcpWriter>;

    ghost faults = { failed_listens_of };

    ghost coming = { λ _. None };

    ghost closed = { λ _. None };

    ghost has_open_link = { link_is_open };

    /// The address is a host and a port, such as `localhost:7379`.
    fn open(&mut self, address: &str) -> Result<(), Failed>
        ensures out { link_is_open self.new ≡ link_is_open self.old }
        ensures cause { HasCause (failed_listens_of self.old) (failed_listens_of self.new) result }
        ensures ok { OnOk result (failed_listens_of self.new ≡ failed_listens_of self.old) }
        ensures err { OnErr result (failed_listens_of self.new ≡ saturating_succ (failed_listens_of self.old)) }
    {
        let outcome = self.listen(address);
        checked(outcome, &mut self.faults)
    }

    /// Waits for the next connection. Fails if it is not listening.
    fn accept(&mut self) -> Result<Ends<StdSource<TcpReader>, StdSink<TcpWriter>>, Failed>
        requires { link_is_open self.old ≡ false }
        ensures out { link_is_open self.new ≡ is_ok result }
        ensures cause { HasCause (failed_listens_of self.old) (failed_listens_of self.new) result }
        ensures ok { OnOk result (failed_listens_of self.new ≡ failed_listens_of self.old) }
        ensures err { OnErr result (failed_listens_of self.new ≡ saturating_succ (failed_listens_of self.old)) }
    {
        let ends = checked(self.next_link(), &mut self.faults)?;
        self.has_open_link = true;
        Ok(ends)
    }

    fn close(&mut self, ends: Ends<StdSource<TcpReader>, StdSink<TcpWriter>>)
        requires { link_is_open self.old ≡ true }
        ensures out { link_is_open self.new ≡ false }
        ensures faults { failed_listens_of self.new ≡ failed_listens_of self.old }
    {
        drop(ends);
        self.end_link();
        self.has_open_link = false;
    }
}

// A hub that echoes what it receives, and its clients.
use std::io::ErrorKind;
use std::net::{SocketAddr, TcpListener, TcpStream};
use std::time::Duration;
use std::{fs, io};
use ts_io::{Hub, Next, Way};
use ts_net::TcpHub;

/// How long a client waits for a reply before its test fails, in seconds.
const PATIENCE: u64 = 20;

/// A hub that echoes, and what it has reported.
#[derive(Drop)]
pub(crate) struct Echo<'a> {
    rt: &'a HostRuntime,
    address: SocketAddr,
    pub(crate) hub: TcpHub<&'a HostRuntime>,
    pub(crate) closed: Vec<(u64, Way)>,
    // how many bytes it has received in all, and between the last two pauses
    pub(crate) taken: usize,
    pub(crate) in_round: usize,
    // the number of the link whose bytes came last
    pub(crate) newest: u64,
}

impl<'a> Echo<'a> {
    pub(crate) fn new(rt: &'a HostRuntime) -> io::Result<Self> {
        let address = TcpListener::bind(rt, "127.0.0.1:0")?.local_addr()?;
        let text = format!(in rt.alloc(); "{address}")?;
        let mut hub = TcpHub::new(rt, rt.alloc());
        if hub.open(&text).is_err() {
            return Err(io::Error::from(ErrorKind::NotConnected));
        }
        Ok(Echo {
            rt,
            address,
            hub,
            closed: Vec::new(rt.alloc()),
            taken: 0,
            in_round: 0,
            newest: 0,
        })
    }

    pub(crate) fn connect(&self) -> io::Result<TcpStream> {
        let client = TcpStream::connect(self.rt, self.address)?;
        client.set_nodelay(true)?;
        client.set_read_timeout(Some(Duration::from_secs(PATIENCE)))?;
        Ok(client)
    }

    /// Takes what has arrived, until a pause, and keeps the echo of it back.
    pub(crate) fn take(&mut self) -> io::Result<()> {
        self.in_round = 0;
        for _ in 0..u64::MAX {
            match self.hub.next() {
                Ok(Next::Bytes(link)) => self.echo(link)?,
                Ok(Next::Closed(link, way)) => self.closed.push((link, way))?,
                Ok(Next::Pause) => return Ok(()),
                Ok(Next::End) | Err(_) => return Err(io::Error::from(ErrorKind::Other)),
            }
        }
        Ok(())
    }

    /// Takes until this many bytes were received in all, at least once and at most eleven times.
    pub(crate) fn take_some(&mut self, total: usize) -> io::Result<()> {
        self.take()?;
        for _ in 0..10 {
            if self.taken >= total {
                break;
            }
            self.take()?;
        }
        Ok(())
    }

    fn echo(&mut self, link: u64) -> io::Result<()> {
        let bytes = self.hub.bytes().to_vec(self.rt.alloc())?;
        self.newest = link;
        self.taken = self.taken.saturating_add(bytes.len());
        self.in_round = self.in_round.saturating_add(bytes.len());
        if self.hub.give(link, &bytes).is_err() {
            return Err(io::Error::from(ErrorKind::Other));
        }
        Ok(())
    }

    /// Whether the link that closed last has this number, and its client closed it.
    pub(crate) fn has_closed_last(&self, link: u64) -> bool {
        match self.closed.last() {
            Some((last, way)) => *last == link && *way == Way::Closed,
            None => false,
        }
    }

    /// Takes and echoes until this many bytes were received in all.
    pub(crate) fn serve(&mut self, total: usize) -> io::Result<()> {
        for _ in 0..u64::MAX {
            if self.taken >= total {
                return Ok(());
            }
            self.take()?;
            self.hub.let_out();
        }
        Ok(())
    }

    /// Takes and echoes until this many links have closed.
    pub(crate) fn serve_until_closed(&mut self, links: usize) -> io::Result<()> {
        for _ in 0..u64::MAX {
            if self.closed.len() >= links {
                return Ok(());
            }
            self.take()?;
            self.hub.let_out();
        }
        Ok(())
    }

    /// Takes and echoes until this many descriptors are open.
    pub(crate) fn serve_until_open(&mut self, count: usize) -> io::Result<()> {
        for _ in 0..u64::MAX {
            if open_descriptors(self.rt)? == count {
                return Ok(());
            }
            self.take()?;
            self.hub.let_out();
        }
        Ok(())
    }
}

/// How many descriptors the process has open. That of the listing is counted too.
pub(crate) fn open_descriptors(rt: &HostRuntime) -> io::Result<usize> {
    let mut count: usize = 0;
    for entry in fs::read_dir(rt, "/proc/self/fd")? {
        entry?;
        count = count.saturating_add(1);
    }
    Ok(count)
}

/// The link whose bytes come next. Pauses before that are passed over.
pub(crate) fn next_bytes<H: Hub>(hub: &mut H) -> Option<u64> {
    for _ in 0..100 {
        match hub.next() {
            Ok(Next::Pause) => {}
            Ok(Next::Bytes(link)) => return Some(link),
            _ => return None,
        }
    }
    None
}

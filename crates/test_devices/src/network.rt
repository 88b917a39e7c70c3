// Connections over this machine's network.
ghost use Rattle.std.specs.Prelude.{◌≡◌, false, IfOk};
ghost use Rattle.ts_io.specs.Adapters.{link_is_open};

use crate::clients::ClientCalls;
use crate::streams::{read_two, write};
use std::alloc::Global;
use std::io;
use std::io::ErrorKind;
use std::net::{TcpListener, TcpStream};
use test_script::{Device, Script, answer_of, done, number_of, silent};
use ts_io::{
    Ends, Failed, Listener, Sink, Source, StdSink, StdSource, TcpNet, TcpReader, TcpWriter,
    write_all_counted,
};

/// `TcpNet`: a listener with one client. At first there are calls of the client; from the first other call on, the link
/// is accepted, and there are calls of both; with `closed` the listener closes it, and calls of the client follow.
pub(crate) fn run(rt: &HostRuntime, script: &mut Script) -> io::Result<()> {
    let alloc = script.alloc();
    let (mut net, mut client) = connected(rt)?;
    script.run(&mut client)?;
    let Ok(ends) = net.accept() else {
        return Err(io::Error::from(ErrorKind::NotConnected));
    };
    let mut link = LinkCalls { ends, client };
    script.run(&mut link)?;
    let LinkCalls { ends, mut client } = link;
    net.close(ends);
    script.check("closed", silent(alloc)?)?;
    script.run(&mut client)
}

// A listener and a client connected to it. Before it listens, it accepts nothing.
fn connected(rt: &HostRuntime) -> io::Result<(TcpNet<&HostRuntime>, ClientCalls)>
    ensures { IfOk result (λ r. link_is_open r.0 ≡ false) }
{
    let address = TcpListener::bind(rt, "127.0.0.1:0")?.local_addr()?;
    let text = format!(in rt.alloc(); "{address}")?;
    let mut net = TcpNet::new(rt);
    if net.accept().is_ok() {
        return Err(io::Error::from(ErrorKind::Other));
    }
    if net.open(&text).is_err() {
        return Err(io::Error::from(ErrorKind::NotConnected));
    }
    let stream = TcpStream::connect(rt, address)?;
    Ok((net, ClientCalls::new(rt.alloc(), stream)))
}

#[derive(Drop)]
struct LinkCalls {
    ends: Ends<StdSource<TcpReader>, StdSink<TcpWriter>>,
    client: ClientCalls,
}

// The calls of sources and sinks, and those of the client. `reply 20000` writes 20,000 replies. `write-fails 10000` is
// whether one of 10,000 writes fails. `read-late 10000` reads 10,000 times, while the client reads what has come.
impl Device for LinkCalls {
    fn answer(&mut self, alloc: Global, verb: &str, text: &str) -> io::Result<Option<String>> {
        match verb {
            "read" => read_two(alloc, &mut self.ends.input),
            "write" | "write-all" => write(alloc, &mut self.ends.out, verb, text),
            "reply" => done(alloc, reply(&mut self.ends.out, number_of(text))),
            "write-fails" => answer_of(alloc, write_fails(&mut self.ends.out, number_of(text))),
            "read-late" => done(alloc, self.read_late(number_of(text))?),
            _ => self.client.answer(alloc, verb, text),
        }
    }
}

impl LinkCalls {
    // Reads two bytes this many times. In between, the client reads what the system has buffered.
    fn read_late(&mut self, count: u64) -> io::Result<Result<(), Failed>> {
        let mut room = [0; 65536];
        self.client.set_nonblocking(true)?;
        for _ in 0..count {
            if !reads_two(&mut self.ends.input) {
                return Ok(Err(Failed));
            }
            self.client.hear_some(&mut room)?;
        }
        self.client.set_nonblocking(false)?;
        Ok(Ok(()))
    }
}

fn reads_two<S: Source>(source: &mut S) -> bool {
    let mut buf = [0; 2];
    source.read(&mut buf) == Ok(2) && buf == *b"qq"
}

// Writes this many replies of a thousand bytes. Each differs from the one before in one byte.
fn reply<K: Sink>(sink: &mut K, count: u64) -> Result<(), Failed> {
    let mut reply = [0; 1000];
    for turn in 0..count {
        reply[(turn % 1000) as usize] = (turn % 251) as u8;
        write_all_counted(sink, &reply)?;
    }
    Ok(())
}

// Whether one of this many writes fails.
fn write_fails<K: Sink>(sink: &mut K, count: u64) -> bool {
    let mut fails = false;
    for _ in 0..count {
        fails = sink.write(b"told").is_err() || fails;
    }
    fails
}

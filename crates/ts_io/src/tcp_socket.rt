// A TCP socket, with calls that don't block.
ghost use Rattle.std.specs.Prelude.{◌≡◌, ◌<◌, ◌≤◌, length, IfOk, IfSome};
ghost use Rattle.std.specs.Io.{ReadsAtMost, WritesAtMost};

use crate::Wait;
use crate::system::{is_for_now, read_arrived, read_retried};
use std::io::{ErrorKind, Read, Write};
use std::net::{Shutdown, TcpStream};
use std::time::{Duration, Instant};
use std::{io, rt};

/// How long a send waits, in milliseconds, before the peer counts as behind. The system rounds this up to one clock
/// tick.
const MOMENT_MILLIS: u64 = 1;

/// How long a closing connection waits for its client to send more or to close, in milliseconds: per read, and in all.
const LINGER_STEP_MILLIS: u64 = 100;

const LINGER_MILLIS: u64 = 5000;

/// How many bytes a closing connection reads from its client and drops: 256 MiB.
const LINGER_BYTES: usize = 268_435_456;

/// Whether a call on the stream blocks.
#[derive(Clone, Copy, PartialEq, Eq)]
enum Mode {
    /// Before the first call.
    Fresh,
    Waits,
    ReturnsAtOnce,
}

/// A TCP stream. Its first call turns off Nagle's algorithm and limits how long a send waits.
#[derive(Drop)]
pub(crate) struct TcpSocket {
    stream: TcpStream,
    mode: Mode,
}

impl TcpSocket {
    pub(crate) fn new(stream: TcpStream) -> Self {
        TcpSocket {
            stream,
            mode: Mode::Fresh,
        }
    }

    /// Sends a prefix of `bytes`, none of them if the peer takes none in time.
    pub(crate) fn send(&mut self, bytes: &[u8], wait: Wait) -> io::Result<usize>
        ensures bound { WritesAtMost result bytes.now }
        ensures progress { wait ≡ Wait.Long → 0 < length bytes.now → IfOk result (λ n. 0 < n) }
    {
        match wait {
            Wait::Not => self.send_once(bytes, Mode::ReturnsAtOnce),
            Wait::Briefly => self.send_once(bytes, Mode::Waits),
            Wait::Long => self.send_some(bytes),
        }
    }

    /// Reads, waiting until bytes arrive or the input ends.
    pub(crate) fn receive(&mut self, buf: &mut [u8]) -> io::Result<usize>
        ensures { ReadsAtMost result buf.new }
    {
        self.set_mode(Mode::Waits)?;
        read_retried(&mut self.stream, buf, true)
    }

    /// Reads what has arrived. `None` means that nothing has.
    pub(crate) fn try_receive(&mut self, buf: &mut [u8]) -> io::Result<Option<usize>>
        ensures { IfOk result (λ o. IfSome o (λ n. n ≤ length buf.new)) }
    {
        self.set_mode(Mode::ReturnsAtOnce)?;
        read_arrived(&mut self.stream, buf)
    }

    /// Shuts down the sending side, then reads and drops what the client still sends until it closes too, up to a limit
    /// of time and bytes. Closing a stream that has unread bytes resets it, and the client would lose what it has not
    /// yet received.
    pub(crate) fn linger<R: rt::Clock>(&mut self, rt: &R) -> io::Result<()> {
        self.stream.shutdown(Shutdown::Write)?;
        self.stream
            .set_read_timeout(Some(Duration::from_millis(LINGER_STEP_MILLIS)))?;
        self.set_mode(Mode::Waits)?;
        let start = Instant::now(rt)?;
        let mut left = LINGER_BYTES;
        while left > 0 {
            left = self.drop_once(left)?;
            if start.elapsed(rt)? >= Duration::from_millis(LINGER_MILLIS) {
                break;
            }
        }
        Ok(())
    }

    // Reads once, drops the bytes, and returns how many bytes may still be read: 0 at the end. A read without bytes
    // counts as one byte.
    fn drop_once(&mut self, left: usize) -> io::Result<usize>
        requires { 0 < left }
        ensures { IfOk result (λ n. n < left) }
    {
        let mut room = [0; 16384];
        match self.stream.read(&mut room) {
            Ok(0) => Ok(0),
            Ok(count) => Ok(left.saturating_sub(count)),
            Err(error) if is_for_now(&error) => Ok(left - 1),
            Err(error) => Err(error),
        }
    }

    // Sets whether calls block. Before the first call, also sets the options of the stream.
    fn set_mode(&mut self, mode: Mode) -> io::Result<()> {
        if self.mode == mode {
            return Ok(());
        }
        if self.mode == Mode::Fresh {
            self.stream.set_nodelay(true)?;
            self.stream
                .set_write_timeout(Some(Duration::from_millis(MOMENT_MILLIS)))?;
        }
        self.stream.set_nonblocking(mode == Mode::ReturnsAtOnce)?;
        self.mode = mode;
        Ok(())
    }

    // Makes one send.
    fn send_once(&mut self, bytes: &[u8], mode: Mode) -> io::Result<usize>
        ensures { WritesAtMost result bytes.now }
    {
        self.set_mode(mode)?;
        match self.stream.write(bytes) {
            Err(error) if is_for_now(&error) => Ok(0),
            outcome => outcome,
        }
    }

    // Sends, waiting until the peer has taken some bytes.
    fn send_some(&mut self, bytes: &[u8]) -> io::Result<usize>
        ensures bound { WritesAtMost result bytes.now }
        ensures progress { 0 < length bytes.now → IfOk result (λ n. 0 < n) }
    {
        for _ in 0..u64::MAX {
            let count = self.send_once(bytes, Mode::Waits)?;
            if count > 0 || bytes.is_empty() {
                return Ok(count);
            }
        }
        Err(io::Error::from(ErrorKind::TimedOut))
    }
}

// A reader and writer of std that fails.
use std::io;
use std::io::{ErrorKind, Read, Write};

/// Every second call fails.
#[derive(Drop)]
pub(crate) struct Flaky {
    pub(crate) fails: bool,
}

impl Flaky {
    fn turn(&mut self) -> io::Result<()> {
        self.fails = !self.fails;
        if self.fails {
            return Ok(());
        }
        Err(io::Error::from(ErrorKind::Other))
    }
}

impl Read for Flaky {
    fn read(&mut self, buf: &mut [u8]) -> io::Result<usize> {
        self.turn()?;
        Ok(buf.len())
    }
}

impl Write for Flaky {
    fn write(&mut self, buf: &[u8]) -> io::Result<usize> {
        Ok(buf.len())
    }

    fn flush(&mut self) -> io::Result<()> {
        self.turn()
    }
}

// A log that takes one byte a call, and knows how long it was at each sync.
ghost use Rattle.std.specs.Prelude.{None, Some};

use ts_io::{Cause, Failed, Log, MemLog};

// Appends one byte a call, if it is slow. It knows how long it was at each sync.
#[derive(Drop)]
pub(crate) struct ShortLog {
    inner: MemLog,
    is_slow: bool,
    synced: Vec<usize>,
}

impl ShortLog {
    // `synced` is empty.
    pub(crate) fn new(inner: MemLog, is_slow: bool, synced: Vec<usize>) -> Self {
        ShortLog {
            inner,
            is_slow,
            synced,
        }
    }

    pub(crate) fn bytes(&self) -> &[u8] {
        self.inner.bytes()
    }

    // How many bytes it had at each sync.
    pub(crate) fn synced(&self) -> &[usize] {
        &self.synced
    }
}

impl Log for ShortLog {
    ghost content = { λ s. Some s.inner.content };

    ghost drafted = { λ s. s.inner.draft };

    ghost place = { λ s. s.inner.place };

    ghost faults = { λ s. s.inner.calls.failed };

    ghost last_cause = { λ _. None };

    fn open(&mut self, name: &str) -> Result<(), Failed> {
        self.inner.open(name)
    }

    fn read(&mut self, buf: &mut [u8]) -> Result<usize, Failed> {
        self.inner.read(buf)
    }

    fn cut(&mut self, len: u64) -> Result<(), Failed> {
        self.inner.cut(len)
    }

    fn append(&mut self, bytes: &[u8]) -> Result<usize, Failed> {
        if !self.is_slow {
            return self.inner.append(bytes);
        }
        match bytes {
            [first, ..] => match self.inner.append(&[*first]) {
                Ok(_) => Ok(1),
                Err(failed) => Err(failed),
            },
            [] => self.inner.append(bytes),
        }
    }

    fn sync(&mut self) -> Result<(), Failed> {
        match self.inner.sync() {
            Ok(()) => {
                let _is_noted = self.synced.push(self.inner.bytes().len());
                Ok(())
            }
            Err(failed) => Err(failed),
        }
    }

    fn draft(&mut self) -> Result<(), Failed> {
        self.inner.draft()
    }

    fn write_draft(&mut self, bytes: &[u8]) -> Result<usize, Failed> {
        self.inner.write_draft(bytes)
    }

    fn publish(&mut self) -> Result<(), Failed> {
        self.inner.publish()
    }

    fn last_cause(&self) -> Option<Cause> {
        None
    }
}

// The steps by which a draft takes the place of a log's file.
ghost use Rattle.std.specs.Prelude.{◌≡◌, ⊤, OnOk, true};

use crate::draft_file::DraftFile;
use std::fs::File;
use std::io;
use std::rt::Files;

/// A file that is to take another one's name, and with it its place.
pub(crate) trait Successor {
    /// Whether its content is on disk.
    ghost synced: { Self → Type 0 };

    /// Whether it has the name.
    ghost named: { Self → Type 0 };

    /// Whether it still has the name after a power failure.
    ghost durable: { Self → Type 0 };

    fn sync_content(&mut self) -> io::Result<()>
        ensures synced { OnOk result (synced self.new) };

    /// Takes the name.
    fn take_name(&mut self) -> io::Result<()>
        // After a power failure the name may lead to the new file, so its content has to be there.
        requires { synced self.old }
        ensures named { OnOk result (named self.new) };

    fn sync_name(&mut self) -> io::Result<()>
        requires { named self.old }
        ensures durable { OnOk result (durable self.new) };
}

/// Puts a file in the place of another one.
pub(crate) fn succeed<S: Successor>(file: &mut S) -> io::Result<()>
    ensures { OnOk result (S.durable file.new) }
{
    file.sync_content()?;
    file.take_name()?;
    file.sync_name()
}

/// A draft on its way to the place of the open file of a log.
#[derive(Drop)]
pub(crate) struct Publishing<'a, R> {
    pub(crate) rt: &'a R,
    pub(crate) draft: &'a DraftFile,
    pub(crate) log: &'a File,
    /// Whether the draft has taken the name of the log's file.
    pub(crate) has_name: bool,
}

impl<R: Files<File = File>> Successor for Publishing<'_, R> {
    ghost synced = { λ _. ⊤ };

    ghost named = { λ p. p.has_name ≡ true };

    ghost durable = { λ p. p.has_name ≡ true };

    fn sync_content(&mut self) -> io::Result<()> {
        self.draft.sync()
    }

    fn take_name(&mut self) -> io::Result<()> {
        self.draft.take_name(self.rt, self.log)?;
        self.has_name = true;
        Ok(())
    }

    fn sync_name(&mut self) -> io::Result<()> {
        self.draft.sync_name(self.rt)
    }
}

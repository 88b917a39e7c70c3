// The file of a draft: a new content of a log's file, which takes that file's place as a whole.
ghost use Rattle.std.specs.Prelude.{◌<◌, length, IfOk};
ghost use Rattle.std.specs.Io.{WritesAtMost};

use crate::journal_file::{check_is, lock_regular, sync_folder, write_some};
use std::fs::{File, Metadata, OpenOptions};
use std::os::unix::fs::{MetadataExt, OpenOptionsExt, fchown};
use std::rt::Files;
use std::{fs, io};

/// An open and locked draft.
#[derive(Drop)]
pub(crate) struct DraftFile {
    file: File,
    // its name, and that of the log's file
    name: String,
    log_name: String,
}

impl DraftFile {
    /// Begins an empty draft for the open log with this name. If a killed run left one, takes that over. The draft has
    /// the owner and the permissions of the log's file.
    pub(crate) fn begin<R: Files<File = File> + AllocGlobal>(
        rt: &R,
        log: &File,
        name: &str,
    ) -> io::Result<DraftFile> {
        let opened = log.metadata()?;
        check_is(fs::metadata(rt, name), &opened)?;
        let log_name = resolved(rt, name)?;
        let name = format!(in rt.alloc(); "{log_name}.folding")?;
        let file = open_emptied(rt, &name)?;
        let draft = DraftFile {
            file,
            name,
            log_name,
        };
        match take_access(&draft.file, &opened) {
            Ok(()) => Ok(draft),
            Err(error) => {
                draft.remove(rt);
                Err(error)
            }
        }
    }

    /// Writes once. Writing no byte is an error.
    pub(crate) fn write(&self, bytes: &[u8]) -> io::Result<usize>
        ensures bound { WritesAtMost result bytes.now }
        ensures progress { 0 < length bytes.now → IfOk result (λ n. 0 < n) }
    {
        write_some(&self.file, bytes)
    }

    pub(crate) fn sync(&self) -> io::Result<()> {
        self.file.sync_all()
    }

    /// Gives the draft the name of the log's file. Fails unless both names still lead to their files.
    pub(crate) fn take_name<R: Files<File = File>>(&self, rt: &R, log: &File) -> io::Result<()> {
        self.check_name(rt)?;
        check_is(fs::symlink_metadata(rt, &self.log_name), &log.metadata()?)?;
        fs::rename(rt, &self.name, &self.log_name)
    }

    /// Syncs the folder.
    pub(crate) fn sync_name<R: Files<File = File>>(&self, rt: &R) -> io::Result<()> {
        sync_folder(rt, &self.log_name)
    }

    pub(crate) fn into_file(self) -> File {
        self.file
    }

    /// Closes the draft and removes its file, which frees the space on the disk. A file that can't be removed stays
    /// until the next draft.
    pub(crate) fn remove<R: Files<File = File>>(self, rt: &R) {
        let _ = self.remove_name(rt);
    }

    fn remove_name<R: Files<File = File>>(&self, rt: &R) -> io::Result<()> {
        self.check_name(rt)?;
        fs::remove_file(rt, &self.name)
    }

    // Fails unless the name still leads to the draft.
    fn check_name<R: Files<File = File>>(&self, rt: &R) -> io::Result<()> {
        check_is(fs::symlink_metadata(rt, &self.name), &self.file.metadata()?)
    }
}

// The name of the file itself, if the name is that of a link.
fn resolved<R: Files<File = File> + AllocGlobal>(rt: &R, name: &str) -> io::Result<String> {
    if fs::symlink_metadata(rt, name)?.is_symlink() {
        return Ok(fs::canonicalize(rt, name)?.into_string());
    }
    Ok(String::from_str(rt.alloc(), name)?)
}

// Opens, locks and empties the file of a draft. Only its owner can open it until it has its permissions. A link is not
// followed to a file that is then emptied.
fn open_emptied<R: Files<File = File>>(rt: &R, name: &str) -> io::Result<File> {
    let file = OpenOptions::new()
        .read(true)
        .append(true)
        .create(true)
        .mode(0o600)
        .open(rt, name)?;
    let (file, opened) = lock_regular(file)?;
    check_is(fs::symlink_metadata(rt, name), &opened)?;
    file.set_len(0)?;
    Ok(file)
}

// Gives the file the owner and the permissions of another one.
fn take_access(file: &File, other: &Metadata) -> io::Result<()> {
    let own = file.metadata()?;
    if own.uid() != other.uid() || own.gid() != other.gid() {
        fchown(file, Some(other.uid()), Some(other.gid()))?;
    }
    file.set_permissions(other.permissions())
}

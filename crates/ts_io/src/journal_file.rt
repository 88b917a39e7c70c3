// The file of a log: one program at a time may hold it, and it is cut and synced.
ghost use Rattle.std.specs.Prelude.{◌≡◌, ◌<◌, pos, int_le, ⊤, ℕ, length, min, Option, None, IfOk, IfSome, OnOk};
ghost use Rattle.std.specs.Io.{WritesAtMost};
ghost use Rattle.std.specs.Option.{option_map};

use crate::system::write_retried;
use std::fs::{File, Metadata, OpenOptions};
use std::io::ErrorKind;
use std::os::fd::{AsRawFd, RawFd};
use std::os::unix::fs::MetadataExt;
use std::path::Path;
use std::rt::Files;
use std::{fs, io};

/// Opens and locks the file, creating it if it does not exist. All writes go to its end.
pub(crate) fn open_locked<R: Files<File = File>>(rt: &R, name: &str) -> io::Result<File> {
    let file = OpenOptions::new()
        .read(true)
        .append(true)
        .create(true)
        .open(rt, name)?;
    let (file, opened) = lock_regular(file)?;

    // The lock is on the file and not on its name. Between the two calls above, the log that had the file open may have
    // replaced it and closed it. A change appended to the old file would be lost.
    check_is(fs::metadata(rt, name), &opened)?;
    sync_name(rt, name, file.metadata()?.len() == 0)?;
    Ok(file)
}

// Syncs the folder of an opened file, since a run that was killed may have given it its name without that. An older
// file may lie in a folder that this user can't read.
fn sync_name<R: Files<File = File>>(rt: &R, name: &str, is_new: bool) -> io::Result<()> {
    match sync_folder(rt, name) {
        Err(error) if !is_new && error.kind() == ErrorKind::PermissionDenied => Ok(()),
        outcome => outcome,
    }
}

/// Locks a file that was just opened. Fails if it is not a regular file, or if another program holds its lock.
pub(crate) fn lock_regular(file: File) -> io::Result<(File, Metadata)> {
    let file = above_standard_streams(file)?;
    let opened = file.metadata()?;
    if !opened.is_file() {
        return Err(io::Error::from(ErrorKind::NotSeekable));
    }
    file.try_lock()?;
    Ok((file, opened))
}

/// Fails unless what a name leads to is the opened file. Otherwise another program has replaced or removed it.
pub(crate) fn check_is(named: io::Result<Metadata>, opened: &Metadata) -> io::Result<()> {
    let is_same = match named {
        Ok(named) => named.dev() == opened.dev() && named.ino() == opened.ino(),
        Err(error) if error.kind() == ErrorKind::NotFound => false,
        Err(error) => return Err(error),
    };
    if is_same {
        return Ok(());
    }
    Err(io::Error::from(ErrorKind::StaleNetworkFileHandle))
}

/// Syncs the folder of a file, so that a new name outlives a power failure.
pub(crate) fn sync_folder<R: Files<File = File>>(rt: &R, name: &str) -> io::Result<()> {
    let folder = match Path::new(name).parent() {
        Some(folder) if !folder.as_str().is_empty() => folder.as_str(),
        _ => ".",
    };
    File::open(rt, folder)?.sync_all()
}

/// Writes once. Writing no byte is an error.
pub(crate) fn write_some(mut file: &File, bytes: &[u8]) -> io::Result<usize>
    ensures bound { WritesAtMost result bytes.now }
    ensures progress { 0 < length bytes.now → IfOk result (λ n. 0 < n) }
{
    match write_retried(&mut file, bytes) {
        Ok(0) if !bytes.is_empty() => Err(io::Error::from(ErrorKind::WriteZero)),
        outcome => outcome,
    }
}

// Duplicates the file if its descriptor is that of a standard stream. If such a stream was closed, the system gives its
// descriptor to the next file opened, and later writes to the stream would go into that file.
fn above_standard_streams(file: File) -> io::Result<File> {
    if is_standard(file.as_raw_fd()) {
        return file.try_clone();
    }
    Ok(file)
}

// Whether this is the descriptor of standard input, output or error.
fn is_standard(descriptor: RawFd) -> bool
    ensures { result ≡ int_le descriptor (pos 2) }
{
    descriptor <= 2
}

/// A file of some size that can be cut and synced.
pub(crate) trait Store {
    /// The size in bytes, if the store knows it.
    ghost bytes: { Self → Option ℕ };

    /// Whether all that was done to the file is on disk.
    ghost synced: { Self → Type 0 };

    fn size(&mut self) -> io::Result<u64>
        ensures size { IfOk result (λ n. IfSome (bytes self.old) (λ k. k ≡ n)) }
        ensures bytes { bytes self.new ≡ bytes self.old };

    fn set_size(&mut self, size: u64) -> io::Result<()>
        ensures bytes { OnOk result (bytes self.new ≡ option_map (λ _. size) (bytes self.old)) };

    /// Returns `Ok` once the system reports that the file is on disk.
    fn sync(&mut self) -> io::Result<()>
        ensures synced { OnOk result (synced self.new) }
        ensures bytes { bytes self.new ≡ bytes self.old };
}

impl Store for &File {
    ghost bytes = { λ _. None };

    ghost synced = { λ _. ⊤ };

    fn size(&mut self) -> io::Result<u64> {
        Ok(self.metadata()?.len())
    }

    fn set_size(&mut self, size: u64) -> io::Result<()> {
        self.set_len(size)
    }

    fn sync(&mut self) -> io::Result<()> {
        self.sync_data()
    }
}

/// Keeps the first `len` bytes, and syncs them. Never extends a shorter file.
pub(crate) fn cut_and_sync<S: Store>(store: &mut S, len: u64) -> io::Result<()>
    ensures cut { OnOk result (S.bytes store.new ≡ option_map (λ k. min len k) (S.bytes store.old)) }
    ensures synced { OnOk result (S.synced store.new) }
{
    if len < store.size()? {
        store.set_size(len)?;
    }
    store.sync()
}

// The error of a failed device call, and why the call failed.
ghost use Rattle.std.specs.Prelude.{◌≡◌, ◌≤◌, Some, codes};
ghost use Rattle.ts_io.specs.Causes.{saturating_succ};
ghost use Rattle.ts_io.specs.System.{cause_of};

use std::error::Error;
use std::fmt;
use std::io::ErrorKind;

/// A device call failed. The device's count of faults went up by one.
#[derive(Clone, Copy, PartialEq, Eq)]
pub struct Failed;

impl fmt::Debug for Failed {
    ghost debug_output = { λ _. Some (codes "Failed") };

    fn fmt<W: fmt::Write>(&self, f: &mut fmt::Formatter<W>) -> fmt::Result {
        f.write_str("Failed")
    }
}

impl fmt::Display for Failed {
    ghost output = { λ _. Some (codes "reading, writing or listening failed") };

    fn fmt<W: fmt::Write>(&self, f: &mut fmt::Formatter<W>) -> fmt::Result {
        f.write_str("reading, writing or listening failed")
    }
}

impl Error for Failed {}

/// Why a call of a hub or a log failed, if the system told.
#[derive(Clone, Copy, Debug, PartialEq, Eq)]
pub enum Cause {
    /// Another program listens at the address.
    AddressInUse,
    /// No interface of this machine has the address.
    NoSuchAddress,
    /// The host of the address is unknown.
    UnknownHost,
    /// The address or the name is malformed.
    Invalid,
    /// The folder of the file does not exist.
    NoSuchFolder,
    /// The user may not use the port, or not read and write the file.
    PermissionDenied,
    /// Another log has the file open.
    Locked,
    /// Another program replaced or removed the file while it was opened.
    Replaced,
    /// The file is a folder, a device, a pipe or a socket.
    NotRegularFile,
    ReadOnly,
    /// The disk is full, or the quota of the user is used up.
    NoSpace,
    /// The file system takes no larger file.
    FileTooLarge,
    NameTooLong,
    OutOfMemory,
}

impl Cause {
    /// The cause that an error of this kind has.
    pub(crate) fn of(kind: ErrorKind) -> Option<Cause>
        ensures { result ≡ cause_of kind }
    {
        match kind {
            ErrorKind::AddrInUse => Some(Cause::AddressInUse),
            ErrorKind::AddrNotAvailable => Some(Cause::NoSuchAddress),
            ErrorKind::HostUnreachable => Some(Cause::UnknownHost),
            ErrorKind::InvalidInput => Some(Cause::Invalid),
            ErrorKind::NotFound | ErrorKind::NotADirectory => Some(Cause::NoSuchFolder),
            ErrorKind::PermissionDenied => Some(Cause::PermissionDenied),
            ErrorKind::WouldBlock => Some(Cause::Locked),
            ErrorKind::StaleNetworkFileHandle => Some(Cause::Replaced),
            ErrorKind::IsADirectory | ErrorKind::NotSeekable => Some(Cause::NotRegularFile),
            ErrorKind::ReadOnlyFilesystem => Some(Cause::ReadOnly),
            ErrorKind::StorageFull | ErrorKind::QuotaExceeded => Some(Cause::NoSpace),
            ErrorKind::FileTooLarge => Some(Cause::FileTooLarge),
            ErrorKind::InvalidFilename => Some(Cause::NameTooLong),
            ErrorKind::OutOfMemory => Some(Cause::OutOfMemory),
            _ => None,
        }
    }
}

/// Counts a failure. The count stops at `u64::MAX`.
pub(crate) fn count_failure(faults: &mut u64) -> Failed
    ensures saturating_succ { faults.new ≡ saturating_succ faults.old }
    ensures later { faults.old ≤ faults.new }
{
    *faults = faults.saturating_add(1);
    Failed
}

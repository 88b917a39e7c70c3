// The lines of statuses in the modes `host` and `fold`, which tell why a fault came.
ghost use Rattle.std.specs.Prelude.{◌≡◌, ◌<◌, ◌≤◌, ◌++◌, length, take};
ghost use Rattle.ts_words.specs.Endings.{ended, host_line_of_status};
ghost use Rattle.ts_words.specs.FaultCauses.{cause_suffix, cause_text};

use crate::Status;
use crate::lines::write_text_at;
use crate::status::{line, write_text_line};
use ts_io::Cause;

/// Why the last call of a hub that failed did so, and why that of a log, if the system told.
#[derive(Clone, Copy)]
pub struct LastCauses {
    pub hub: Option<Cause>,
    pub log: Option<Cause>,
}

/// Writes the line for a status of the mode `Host` or `Fold` into `line_buffer`: the line for the status, in which the
/// cause follows a fault of the hub or of the log.
pub fn host_line(
    status: Status,
    byte_offset: u64,
    causes: LastCauses,
    line_buffer: &mut [u8; 160],
) -> &[u8]
    ensures { result.now ≡ host_line_of_status status byte_offset causes }
{
    let end = match status {
        Status::AcceptFault => write_cause_line(line_buffer, b"tsd: accept fault", causes.hub),
        Status::JournalFault => write_cause_line(line_buffer, b"tsd: journal fault", causes.log),
        other => return line(None, other, byte_offset, line_buffer),
    };
    &line_buffer[..end]
}

// Writes this text and a cause as a line, and returns its length.
fn write_cause_line(line_buffer: &mut [u8; 160], text: &[u8], cause: Option<Cause>) -> usize
    requires { length text.now < 100 }
    ensures text { take result line_buffer.new ≡ ended (text.now ++ cause_suffix cause) }
    ensures within { result ≤ 160 }
{
    let Some(cause) = cause else {
        return write_text_line(line_buffer, text)
    };
    let at = write_text_at(line_buffer, 0, text);
    let at = write_text_at(line_buffer, at, b": ");
    let at = write_text_at(line_buffer, at, text_of_cause(cause).as_bytes());
    write_text_at(line_buffer, at, b"\n")
}

// What a line says of a cause.
fn text_of_cause(cause: Cause) -> &'static str
    ensures text { result.now ≡ cause_text cause }
    ensures short { length result.now ≤ 21 }
{
    match cause {
        Cause::AddressInUse => "address in use",
        Cause::NoSuchAddress => "no such address",
        Cause::UnknownHost => "unknown host",
        Cause::Invalid => "invalid argument",
        Cause::NoSuchFolder => "no such folder",
        Cause::PermissionDenied => "permission denied",
        Cause::Locked => "locked",
        Cause::Replaced => "replaced",
        Cause::NotRegularFile => "not a regular file",
        Cause::ReadOnly => "read-only file system",
        Cause::NoSpace => "no space",
        Cause::FileTooLarge => "file too large",
        Cause::NameTooLong => "name too long",
        Cause::OutOfMemory => "out of memory",
    }
}

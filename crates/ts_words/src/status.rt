// The exit statuses, and their lines on standard error.
ghost use Rattle.std.specs.Prelude.{◌≡◌, ◌+◌, ◌<◌, ◌≤◌, ◌++◌, length, take};
ghost use Rattle.std.specs.Fmt.{decimal};
ghost use Rattle.ts_words.specs.Endings.{code_of, ended, line_of_status_in};

use crate::Mode;
use crate::lines::{write_number_at, write_text_at};

/// How a run of the program ends.
#[derive(Clone, Copy, Debug, PartialEq, Eq)]
pub enum Status {
    /// Success.
    Ended,
    /// The program does not know this command line.
    Usage,
    /// The input ends inside a request, or a capture inside a frame.
    Truncated,
    /// The stream of requests is broken.
    Protocol,
    /// A read failed.
    ReadFault,
    /// A write to the output or to standard error failed.
    WriteFault,
    /// Memory ran out.
    Memory,
    /// The address could not be opened, or a connection could not be accepted.
    AcceptFault,
    /// The budget of input bytes was used up.
    Budget,
    /// A call on the journal failed.
    JournalFault,
    /// The journal is broken, or holds a request that is not the record of a change.
    JournalBroken,
    /// The capture of interleaved connections is broken.
    CaptureBroken,
}

impl Status {
    /// The exit status of the process, from 0 to 11.
    pub fn code(self) -> u8
        ensures { result ≡ code_of self }
    {
        match self {
            Status::Ended => 0,
            Status::Usage => 1,
            Status::Truncated => 2,
            Status::Protocol => 3,
            Status::ReadFault => 4,
            Status::WriteFault => 5,
            Status::Memory => 6,
            Status::AcceptFault => 7,
            Status::Budget => 8,
            Status::JournalFault => 9,
            Status::JournalBroken => 10,
            Status::CaptureBroken => 11,
        }
    }
}

/// Writes the line for a status into `line_buffer`, empty for success. `byte_offset` is the byte offset, from 0, where
/// a stream breaks or where its unfinished request or frame begins. Only the mode `Mux` has a line of its own: a
/// capture ends inside a frame.
pub fn line(
    mode: Option<Mode>,
    status: Status,
    byte_offset: u64,
    line_buffer: &mut [u8; 160],
) -> &[u8]
    ensures { result.now ≡ line_of_status_in mode status byte_offset }
{
    let end = match status {
        Status::Ended => 0,
        Status::Usage => write_text_line(
            line_buffer,
            b"usage: tsd pipe | tsd serve <address> <connections> | tsd gen <seed> <n> | tsd keep <file> \
              | tsd host <address> [<file> [sync]] | tsd fold <file> | tsd mux",
        ),
        Status::Truncated => write_truncated_line(mode, line_buffer, byte_offset),
        Status::Protocol => write_offset_line(
            line_buffer,
            b"tsd: protocol fault at byte ",
            byte_offset,
        ),
        Status::ReadFault => write_text_line(line_buffer, b"tsd: read fault"),
        Status::WriteFault => write_text_line(line_buffer, b"tsd: write fault"),
        Status::Memory => write_text_line(line_buffer, b"tsd: out of memory"),
        Status::AcceptFault => write_text_line(line_buffer, b"tsd: accept fault"),
        Status::Budget => write_text_line(line_buffer, b"tsd: budget of bytes used up"),
        Status::JournalFault => write_text_line(line_buffer, b"tsd: journal fault"),
        Status::JournalBroken => write_offset_line(
            line_buffer,
            b"tsd: journal broken at byte ",
            byte_offset,
        ),
        Status::CaptureBroken => write_offset_line(
            line_buffer,
            b"tsd: capture broken at byte ",
            byte_offset,
        ),
    };
    &line_buffer[..end]
}

// Writes the line of an input that ends inside a request or a frame, and returns its length.
fn write_truncated_line(mode: Option<Mode>, line_buffer: &mut [u8; 160], byte_offset: u64) -> usize
    ensures text { take result line_buffer.new ≡ line_of_status_in mode Status.Truncated byte_offset }
    ensures within { result ≤ 160 }
{
    match mode {
        Some(Mode::Mux) => write_offset_line(
            line_buffer,
            b"tsd: capture ends inside a frame that begins at byte ",
            byte_offset,
        ),
        Some(
            Mode::Pipe | Mode::Serve(_) | Mode::Gen(_, _) | Mode::Keep | Mode::Host(_) | Mode::Fold,
        )
        | None => write_offset_line(
            line_buffer,
            b"tsd: input ends inside a request that begins at byte ",
            byte_offset,
        ),
    }
}

/// Writes this text as a line, and returns its length.
pub(crate) fn write_text_line(line_buffer: &mut [u8; 160], text: &[u8]) -> usize
    requires { length text.now < 160 }
    ensures text { take result line_buffer.new ≡ ended text.now }
    ensures within { result ≤ 160 }
{
    let at = write_text_at(line_buffer, 0, text);
    write_text_at(line_buffer, at, b"\n")
}

// Writes this text and a byte offset as a line, and returns its length.
fn write_offset_line(line_buffer: &mut [u8; 160], text: &[u8], byte_offset: u64) -> usize
    requires { length text.now + 20 < 160 }
    ensures text { take result line_buffer.new ≡ ended (text.now ++ decimal byte_offset) }
    ensures within { result ≤ 160 }
{
    let at = write_text_at(line_buffer, 0, text);
    let at = write_number_at(line_buffer, at, byte_offset);
    write_text_at(line_buffer, at, b"\n")
}

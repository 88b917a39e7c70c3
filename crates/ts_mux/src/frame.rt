// A frame of a capture, and its header.
ghost use Rattle.std.specs.Prelude.{◌≡◌, ◌+◌, ◌≤◌, ◌++◌, length, drop};
ghost use Rattle.ts_mux.specs.Capture.{header};

use itoa::write_digits;
use std::marker::Model;
use ts_resp::Word;

/// A frame: bytes that one connection sent. An empty frame closes the connection.
#[derive(Debug, Drop)]
pub struct Frame {
    /// The number of the connection: 1 to 4096 in a capture.
    pub link: u32,
    /// The bytes, at most 65,536 in a capture.
    pub bytes: Word,
}

/// The greatest length of a header in bytes: two numbers of 64 bits (20 digits each), a space and a line feed.
pub const HEADER_CAPACITY: usize = 42;

/// The header of a frame: connection number, space, length in bytes and line feed. A written frame may be longer than
/// one that `Frames` accepts.
#[derive(Drop)]
pub struct Header {
    header_buffer: [u8; HEADER_CAPACITY],
    start: usize,
}

impl Model for Header {
    ghost use Rattle.std.specs.Prelude.{List, ℕ, ◌≤◌, drop};

    ghost Value = { List ℕ };

    ghost view = { λ h. drop h.start h.header_buffer };

    ghost invariant = { λ h. h.start ≤ 42 };
}

impl Header {
    /// The header of a frame with `len` bytes. Allocates nothing.
    pub fn new(link: u64, len: usize) -> Header
        ensures { result ≡ header link len }
    {
        let mut header_buffer = [0; HEADER_CAPACITY];
        let start = write_header(link, len, HEADER_CAPACITY, &mut header_buffer);
        Header {
            header_buffer,
            start,
        }
    }

    /// The bytes of the header, at most 42. Allocates nothing.
    pub fn bytes(&self) -> &[u8]
        ensures bytes { result.now ≡ self.now }
        ensures short { length result.now ≤ 42 }
    {
        &self.header_buffer[self.start..]
    }
}

/// Writes the header of a frame with `len` bytes so that it ends at offset `end`. Returns the offset where it starts.
/// Allocates nothing.
pub fn write_header(link: u64, len: usize, end: usize, room: &mut [u8]) -> usize
    requires from { 42 ≤ end }
    requires to { end ≤ length room.old }
    ensures text { drop result room.new ≡ header link len ++ drop end room.old }
    ensures start { result + length (header link len) ≡ end }
    ensures size { length room.new ≡ length room.old }
{
    let feed = end - 1;
    room[feed] = b'\n';
    let digits = write_digits(len as u64, room, feed);
    let space = digits - 1;
    room[space] = b' ';
    write_digits(link, room, space)
}

// Writes the frames of a capture's replies.
ghost use Rattle.std.specs.Prelude.{◌≡◌, ◌+◌, ◌≤◌, ◌++◌, length, take, slice_range, OnOk, OnErr};
ghost use Rattle.ts_io.specs.Causes.{HasCause};
ghost use Rattle.ts_io.specs.Sinks.{Grows, GrowsByPrefix};
ghost use Rattle.ts_mux.specs.Capture.{framed, header};

use ts_io::{Failed, Sink, write_all_counted};
use ts_mux::{HEADER_CAPACITY, write_header};

// The first write of a frame has at most this many bytes, its header included.
const TOGETHER: usize = 512;

// Writes frames. The header of the frame before is kept, since the next frame often has the same.
#[derive(Drop)]
pub(crate) struct FrameWriter {
    // the header up to offset `HEADER_CAPACITY`, and the first bytes of the frame after it
    room: [u8; TOGETHER],
    // where the header starts
    start: usize,
    // the connection and the length in the header
    link: u64,
    len: usize,
    ghost within: { start ≤ 42 },
    ghost header: { slice_range room start 42 ≡ header link len },
}

impl FrameWriter {
    pub(crate) fn new() -> FrameWriter {
        let mut room = [0; TOGETHER];
        let start = write_header(0, 0, HEADER_CAPACITY, &mut room);
        FrameWriter {
            room,
            start,
            link: 0,
            len: 0,
        }
    }

    // Writes a frame: the header together with the first bytes, then the rest.
    pub(crate) fn write<K: Sink>(
        &mut self,
        link: u64,
        bytes: &[u8],
        out: &mut K,
    ) -> Result<(), Failed>
        ensures all { OnOk result
            (Grows (K.has out.old) (K.has out.new) (framed (record { link = link; bytes = bytes.now }))) }
        ensures front { OnErr result
            (GrowsByPrefix (K.has out.old) (K.has out.new) (framed (record { link = link; bytes = bytes.now }))) }
        ensures cause { HasCause (K.faults out.old) (K.faults out.new) result }
    {
        let first = bytes.len().min(TOGETHER - HEADER_CAPACITY);
        self.put_front(link, bytes.len(), &bytes[..first]);
        write_all_counted(out, &self.room[self.start..HEADER_CAPACITY + first])?;
        write_all_counted(out, &bytes[first..])?;
        Ok(())
    }

    // Puts together the header of a frame with `len` bytes and the first of them.
    fn put_front(&mut self, link: u64, len: usize, front: &[u8])
        requires { length front.now ≤ 470 }
        ensures { slice_range self.new.room self.new.start (42 + length front.now) ≡ header link len ++ front.now }
    {
        self.put_header(link, len);
        put(&mut self.room, HEADER_CAPACITY, front);
    }

    // Puts the header of a frame with `len` bytes in place, unless it is there.
    fn put_header(&mut self, link: u64, len: usize)
        ensures link { self.new.link ≡ link }
        ensures len { self.new.len ≡ len }
    {
        if link == self.link && len == self.len {
            return;
        }
        self.start = write_header(link, len, HEADER_CAPACITY, &mut self.room);
        self.link = link;
        self.len = len;
    }
}

// Copies `text` to offset `at`.
fn put(room: &mut [u8], at: usize, text: &[u8])
    requires { at + length text.now ≤ length room.old }
    ensures text { take (at + length text.now) room.new ≡ take at room.old ++ text.now }
    ensures size { length room.new ≡ length room.old }
{
    room[at..at + text.len()].copy_from_slice(text);
}

// Parses the header of a frame.
ghost use Rattle.std.specs.Prelude.{◌+◌, ◌<◌, ◌≤◌, length, None};
ghost use Rattle.ts_mux.specs.Capture.{Length};
ghost use Rattle.ts_mux.specs.Framing.{IsLink};
ghost use Rattle.ts_mux.specs.Headers.{IsHeader, LeadsTo};

use crate::found_number::{FoundNumber, read_number};

const MOST_LINKS: u32 = 4096;

// The greatest length of a frame in bytes.
const MOST_BYTES: u32 = 65_536;

// The header of the frame that some bytes begin with.
pub(crate) enum FoundHeader {
    // the connection, the length of the frame's bytes, and the offset where they start
    Whole { link: u32, len: u32, start: usize },
    // the bytes end before the header does
    NotYet,
    // the byte at this offset cannot continue the header
    Broken(usize),
}

// Parses the header at the start of these bytes.
pub(crate) fn read_header(bytes: &[u8]) -> FoundHeader
    ensures { IsHeader result bytes.now }
{
    match read_number(bytes, 0, 1, MOST_LINKS, b' ') {
        FoundNumber::Whole(link, at) => read_length(bytes, at + 1, link),
        FoundNumber::NotYet => FoundHeader::NotYet,
        FoundNumber::Broken(at) => FoundHeader::Broken(at),
    }
}

// Parses the rest of a header from this offset on, after the connection number and the space.
fn read_length(bytes: &[u8], from: usize, link: u32) -> FoundHeader
    requires some { 0 < from }
    requires within { from ≤ length bytes.now }
    requires link { IsLink link }
    requires leads { LeadsTo bytes.now from (Length link None) }
    ensures { IsHeader result bytes.now }
{
    match read_number(bytes, from, 0, MOST_BYTES, b'\n') {
        FoundNumber::Whole(len, at) => FoundHeader::Whole {
            link,
            len,
            start: at + 1,
        },
        FoundNumber::NotYet => FoundHeader::NotYet,
        FoundNumber::Broken(at) => FoundHeader::Broken(at),
    }
}

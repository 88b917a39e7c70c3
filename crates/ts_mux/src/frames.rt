// Parses the frames of a capture that arrives in pieces.
ghost use Rattle.std.specs.Prelude.{◌≡◌, ℕ, ◌+◌, ◌^◌, ◌<◌, ◌≤◌, List, [], ◌++◌, length, None, OnOk, OnErr};
ghost use Rattle.ts_mux.specs.Capture.{Then, Broken, capture, MOST_BYTES};
ghost use Rattle.ts_mux.specs.Framing.{IsLink, capture_of, fed, past, unfinished, ended_at};
ghost use Rattle.ts_mux.specs.NextFrames.{IfWhole, UnlessWhole, OnNotYet, IfBroken, OnMemory, HasWhole};
ghost use Rattle.ts_mux.specs.NextFrames.{IsFound, IsNextFrame, StandsAt, bytes_at};

use crate::Frame;
use crate::found_header::{FoundHeader, read_header};
use bytes::BytesMut;
use std::alloc::{AllocError, Global};
use std::marker::Model;
use ts_resp::Word;

/// The result of `Frames::next`.
#[derive(Debug, Drop)]
pub enum NextFrame {
    /// The next frame.
    Whole(Frame),
    /// The bytes fed so far contain no further complete frame.
    NotYet,
    /// The byte at this offset cannot continue the capture. Later calls return the same.
    Broken(u64),
    /// Out of memory for a complete frame. A later call may succeed.
    Memory,
}

/// The result of `Frames::find`.
#[derive(Clone, Copy, Debug)]
pub enum FoundFrame {
    /// Where the next frame stands.
    Whole(FrameSpan),
    /// The bytes fed so far contain no further complete frame.
    NotYet,
    /// The byte at this offset cannot continue the capture.
    Broken(u64),
}

/// Where a frame stands in the unread bytes of a `Frames`.
#[derive(Clone, Copy, Debug)]
pub struct FrameSpan {
    /// The number of the connection.
    pub link: u32,
    /// Where the bytes of the frame start, after its header.
    pub start: usize,
    /// Where they end.
    pub end: usize,
}

/// Parses frames from a capture that arrives in pieces of any size.
#[derive(Drop)]
pub struct Frames {
    alloc: Global,
    // the offset of the first unread byte, with which a frame begins
    begin: u64,
    unread: BytesMut,
}

impl Model for Frames {
    ghost use Rattle.std.specs.Prelude.{◌+◌, ◌^◌, ◌<◌, length};
    ghost use Rattle.ts_mux.specs.Framing.{Framing};

    ghost Value = { Framing };

    ghost view = { λ f. record { begin = f.begin; unread = f.unread.items } };

    ghost invariant = { λ f. f.begin + length f.unread.items < 2 ^ 64 };
}

impl Frames {
    /// A new parser. Allocates nothing.
    pub fn new(alloc: Global) -> Frames
        ensures capture { (more : List ℕ) → capture_of result more ≡ capture more }
        ensures fed { fed result ≡ 0 }
        ensures place { unfinished result ≡ None }
    {
        Frames {
            alloc,
            begin: 0,
            unread: BytesMut::new(alloc),
        }
    }

    /// Appends a piece of the capture. On an error nothing changes.
    pub fn feed(&mut self, piece: &[u8]) -> Result<(), AllocError>
        requires { fed self.old + length piece.now < 2 ^ 64 }
        ensures ok { OnOk result ((more : List ℕ)
            → capture_of self.new more ≡ capture_of self.old (piece.now ++ more)) }
        ensures fed { OnOk result (fed self.new ≡ fed self.old + length piece.now) }
        ensures err { OnErr result (self.new ≡ self.old) }
        ensures begin { self.new.begin ≡ self.old.begin }
    {
        self.unread.extend_from_slice(piece)?;
        Ok(())
    }

    /// Returns the next frame of the bytes fed so far. After `Memory` the call can be repeated.
    pub fn next(&mut self) -> NextFrame
        ensures whole { IfWhole result (λ frame. (more : List ℕ)
            → capture_of self.old more ≡ Then frame (capture_of self.new more)) }
        ensures link { IfWhole result (λ frame. IsLink frame.link) }
        ensures length { IfWhole result (λ frame. length frame.bytes ≤ MOST_BYTES) }
        ensures progress { IfWhole result (λ _. self.old.begin < self.new.begin) }
        ensures taken { IfWhole result (λ frame. self.old.begin + length frame.bytes ≤ self.new.begin) }
        ensures not_yet { OnNotYet result
            (capture_of self.new [] ≡ ended_at (unfinished self.new)) }
        ensures broken { IfBroken result (λ place. (more : List ℕ)
            → capture_of self.old more ≡ Broken place) }
        ensures memory { OnMemory result (HasWhole self.old) }
        ensures same { UnlessWhole result ((more : List ℕ)
            → capture_of self.new more ≡ capture_of self.old more) }
        ensures place { UnlessWhole result (unfinished self.new ≡ unfinished self.old) }
        ensures fed { fed self.new ≡ fed self.old }
        ensures onward { self.old.begin ≤ self.new.begin }
        ensures begin { self.new.begin ≤ fed self.new }
        ensures bound { fed self.new < 2 ^ 64 }
    {
        match self.find() {
            FoundFrame::Whole(span) => self.take(span),
            FoundFrame::NotYet => NextFrame::NotYet,
            FoundFrame::Broken(place) => NextFrame::Broken(place),
        }
    }

    // Copies a frame that was found, and passes over it.
    fn take(&mut self, span: FrameSpan) -> NextFrame
        requires { StandsAt self.old span }
        ensures { IsNextFrame self.old self.new result }
    {
        let Ok(bytes) = Word::from_slice(self.alloc, self.bytes(span)) else {
            return NextFrame::Memory;
        };
        self.pass(span.end);
        NextFrame::Whole(Frame {
            link: span.link,
            bytes,
        })
    }

    /// Finds the next frame of the bytes fed so far. Copies nothing.
    pub fn find(&self) -> FoundFrame
        ensures found { IsFound result self.now }
        ensures bound { fed self.now < 2 ^ 64 }
    {
        let unread = self.unread.as_slice();
        match read_header(unread) {
            FoundHeader::Whole { link, len, start } => {
                let left = unread.len() - start;
                if left < len as usize {
                    return FoundFrame::NotYet;
                }
                let end = start + len as usize;
                FoundFrame::Whole(FrameSpan { link, start, end })
            }
            FoundHeader::NotYet => FoundFrame::NotYet,
            FoundHeader::Broken(at) => FoundFrame::Broken(self.begin + at as u64),
        }
    }

    /// Returns the bytes of a frame that was found.
    pub fn bytes(&self, span: FrameSpan) -> &[u8]
        requires order { span.start ≤ span.end }
        requires within { span.end ≤ length self.now.unread }
        ensures { result.now ≡ bytes_at self.now span }
    {
        &self.unread.as_slice()[span.start..span.end]
    }

    /// Passes over the next `len` bytes, with which a frame ends.
    pub fn pass(&mut self, len: usize)
        requires { len ≤ length self.old.unread }
        ensures { self.new ≡ past self.old len }
    {
        self.unread.advance(len);
        self.begin += len as u64;
    }

    /// Returns the offset of the incomplete frame, or `None` between frames. Allocates nothing.
    pub fn place(&self) -> Option<u64>
        ensures { result ≡ unfinished self.now }
    {
        if self.unread.is_empty() {
            return None;
        }
        Some(self.begin)
    }
}

// The readers of the open connections at work.
ghost use Rattle.std.specs.Prelude.{◌≡◌, ◌≢◌, ◌+◌, ◌<◌, ◌^◌, [], length, Some};
ghost use Rattle.ts_resp.specs.Reading.{fed};
ghost use Rattle.ts_mux.specs.ClosedLinks.{index_of, reader_of, fed_to_link, IsReaderChanged, IsFed};
ghost use Rattle.ts_mux.specs.Muxing.{has_unfinished};
ghost use Rattle.ts_mux.specs.Turns.{IfRequest, IsNextOfReader};

use super::OpenConnections;
use crate::Turn;
use crate::current_connection::{CurrentConnection, next_turn};
use std::alloc::AllocError;
use ts_resp::Word;

impl OpenConnections {
    // Feeds bytes to the connection's reader.
    pub(crate) fn feed(&mut self, at: CurrentConnection, bytes: &[u8]) -> Result<(), AllocError>
        requires index { index_of self.old at.link ≡ Some at.index }
        requires bound { fed_to_link self.old at.link + length bytes.now < 2 ^ 64 }
        ensures { IsReaderChanged self.old self.new at.link (IsFed bytes.now result) }
    {
        let reader = &mut self.readers[at.index];
        reader.feed(bytes)
    }

    // Returns the next request or error of the connection's reader.
    pub(crate) fn next(&mut self, at: CurrentConnection) -> Turn
        requires { index_of self.old at.link ≡ Some at.index }
        ensures changed { IsReaderChanged self.old self.new at.link
            (λ was now. IsNextOfReader result at.link was now × (fed now ≡ fed was)) }
        ensures words { IfRequest result (λ words. words ≢ []) }
    {
        let reader = &mut self.readers[at.index];
        next_turn(at.link, reader)
    }

    // Takes back the vector of a handled request, to use its capacity again.
    pub(crate) fn give_back(&mut self, at: CurrentConnection, words: Vec<Word>)
        requires { index_of self.old at.link ≡ Some at.index }
        ensures { IsReaderChanged self.old self.new at.link (λ was now. now ≡ was) }
    {
        let reader = &mut self.readers[at.index];
        reader.give_back(words);
    }

    // Whether the connection has sent part of a request that is not complete.
    pub(crate) fn is_inside_request(&self, link: u64) -> bool
        ensures { result ≡ has_unfinished (reader_of self.now link) }
    {
        let Some(index) = self.indexes.get(&link).copied().unwrap_or(None) else {
            return false;
        };
        match self.readers.get(index) {
            Some(reader) => reader.place().is_some(),
            None => false,
        }
    }
}

// The index of a connection's reader. A connection gets a reader when it first sends bytes.
ghost use Rattle.std.specs.Prelude.{◌≡◌, ℕ, ◌<◌, ◌≤◌, List, Some, None, is_none, IfOk};
ghost use Rattle.std.specs.Ordering.{nat_cmp};
ghost use Rattle.std.specs.BTreeMap.{get};
ghost use Rattle.ts_mux.specs.ClosedLinks.{is_closed, index_of, stream_of_link, fed_to_link};

use super::OpenConnections;
use crate::current_connection::CurrentConnection;
use std::alloc::{AllocError, Global};
use ts_resp::Reader;
use ts_spec::WireLimits;

impl OpenConnections {
    // Returns the index of the connection's reader, or None if the connection is closed. One that has sent nothing gets
    // a new reader.
    pub(crate) fn find(
        &mut self,
        link: u64,
        alloc: Global,
        limits: WireLimits,
    ) -> Result<Option<usize>, AllocError>
        requires reached { link < self.old.reached }
        requires words { 1 ≤ limits.words }
        requires word_bytes { 1 ≤ limits.word_bytes }
        requires request_bytes { 1 ≤ limits.request_bytes }
        requires line_bytes { 1 ≤ limits.line_bytes }
        ensures index { IfOk result (λ index. index_of self.new link ≡ index) }
        ensures closed { IfOk result (λ index. is_closed self.new link ≡ is_none index) }
        ensures same { (at : ℕ) → is_closed self.new at ≡ is_closed self.old at }
        ensures streams { (at : ℕ) (more : List ℕ)
            → stream_of_link limits self.new at more ≡ stream_of_link limits self.old at more }
        ensures fed { (at : ℕ) → fed_to_link self.new at ≡ fed_to_link self.old at }
        ensures indexes { (at index : ℕ) → index_of self.old at ≡ Some index → index_of self.new at ≡ Some index }
        ensures reached { self.new.reached ≡ self.old.reached }
    {
        if let Some(index) = self.recent.index_of(link) {
            return Ok(Some(index));
        }
        match self.indexes.get(&link).copied() {
            None => Ok(None),
            Some(Some(index)) => {
                self.recent.put(CurrentConnection { link, index });
                Ok(Some(index))
            }
            Some(None) => {
                let index = self.start(link, alloc, limits)?;
                Ok(Some(index))
            }
        }
    }

    // Gives a new reader to an open connection that has none. On an error nothing changes.
    fn start(&mut self, link: u64, alloc: Global, limits: WireLimits) -> Result<usize, AllocError>
        requires open { get nat_cmp self.old.indexes link ≡ Some None }
        requires reached { link < self.old.reached }
        requires words { 1 ≤ limits.words }
        requires word_bytes { 1 ≤ limits.word_bytes }
        requires request_bytes { 1 ≤ limits.request_bytes }
        requires line_bytes { 1 ≤ limits.line_bytes }
        ensures index { IfOk result (λ index. get nat_cmp self.new.indexes link ≡ Some (Some index)) }
        ensures same { (at : ℕ) → is_closed self.new at ≡ is_closed self.old at }
        ensures streams { (at : ℕ) (more : List ℕ)
            → stream_of_link limits self.new at more ≡ stream_of_link limits self.old at more }
        ensures fed { (at : ℕ) → fed_to_link self.new at ≡ fed_to_link self.old at }
        ensures indexes { (at index : ℕ) → index_of self.old at ≡ Some index → index_of self.new at ≡ Some index }
        ensures reached { self.new.reached ≡ self.old.reached }
    {
        self.readers.reserve(1)?;
        let index = self.readers.vacant_key();
        match self.indexes.insert(link, Some(index)) {
            Ok(_) => {
                self.readers.insert_reserved(Reader::new(alloc, limits));
                Ok(index)
            }
            Err(_) => Err(AllocError),
        }
    }
}

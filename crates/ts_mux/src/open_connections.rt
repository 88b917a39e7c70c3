// The open connections, and their readers.
ghost use Rattle.std.specs.Prelude.{◌≡◌, ℕ, ◌+◌, ◌<◌, ◌≤◌, ◌^◌, ◌==◌, false, None, OnOk, OnErr};
ghost use Rattle.slab.specs.Slab.{SameValues};
ghost use Rattle.ts_mux.specs.OwnReaders.{index_in, AreBelow, HaveOwnReaders, RemovesReader};
ghost use Rattle.ts_mux.specs.RecentIndexes.{recent_in, AreRecent};

use recent::Recent;
use slab::Slab;
use std::alloc::{AllocError, Global};
use std::collections::BTreeMap;
use ts_resp::Reader;

mod reading;
mod recent;
mod starting;

/// The open connections, by number, and their readers. A closed connection takes no memory.
#[derive(Drop)]
pub(crate) struct OpenConnections {
    // every connection from this number on is open
    reached: u64,
    // the open connections below it, each with the index of its reader once it has sent bytes
    indexes: BTreeMap<u64, Option<usize>>,
    readers: Slab<Reader>,
    recent: Recent,
    ghost below: { AreBelow reached indexes },
    ghost own: { HaveOwnReaders (index_in indexes) readers },
    ghost recent_indexes: { AreRecent (recent_in recent.slots) (index_in indexes) },
}

impl OpenConnections {
    ghost use Rattle.ts_mux.specs.ClosedLinks.{is_closed, index_of, reader_of};
    ghost use Rattle.ts_mux.specs.Links.{MarksClosed};

    // All connections are open. Allocates nothing.
    pub(crate) fn new(alloc: Global) -> OpenConnections
        ensures open { (link : ℕ) → is_closed result link ≡ false }
        ensures reached { result.reached ≡ 0 }
        ensures readers { (link : ℕ) → reader_of result link ≡ None }
    {
        OpenConnections {
            reached: 0,
            indexes: BTreeMap::new(alloc),
            readers: Slab::new(alloc),
            recent: Recent::new(),
        }
    }

    // Allocates what it takes to store all connections up to this one, so that it can be closed without memory. Meant
    // for numbers that are given out in order.
    pub(crate) fn reach(&mut self, link: u64) -> Result<(), AllocError>
        ensures reached { OnOk result (link < self.new.reached) }
        ensures longer { self.old.reached ≤ self.new.reached }
        ensures same { (at : ℕ) → is_closed self.new at ≡ is_closed self.old at }
        ensures indexes { (at : ℕ) → index_of self.new at ≡ index_of self.old at }
        ensures readers { (at : ℕ) → reader_of self.new at ≡ reader_of self.old at }
    {
        if link == u64::MAX {
            return Err(AllocError);
        }
        while self.reached <= link {
            self.reach_next()?;
        }
        Ok(())
    }

    // Stores the next connection.
    fn reach_next(&mut self) -> Result<(), AllocError>
        requires { self.old.reached + 1 < 2 ^ 64 }
        ensures ok { OnOk result (self.new.reached ≡ self.old.reached + 1) }
        ensures err { OnErr result (self.new.reached ≡ self.old.reached) }
        ensures same { (at : ℕ) → is_closed self.new at ≡ is_closed self.old at }
        ensures indexes { (at : ℕ) → index_of self.new at ≡ index_of self.old at }
        ensures readers { (at : ℕ) → reader_of self.new at ≡ reader_of self.old at }
    {
        match self.indexes.insert(self.reached, None) {
            Ok(_) => {
                self.reached += 1;
                Ok(())
            }
            Err(_) => Err(AllocError),
        }
    }

    // Closes this connection and drops its reader. Allocates nothing.
    pub(crate) fn close(&mut self, link: u64)
        requires { link < self.old.reached }
        ensures marks { MarksClosed link (is_closed self.old) (is_closed self.new) }
        ensures reached { self.new.reached ≡ self.old.reached }
        ensures indexes { (at : ℕ) → (at == link) ≡ false → index_of self.new at ≡ index_of self.old at }
        ensures readers { (at : ℕ) → (at == link) ≡ false → reader_of self.new at ≡ reader_of self.old at }
        ensures gone { reader_of self.new link ≡ None }
    {
        self.recent.clear(link);
        let index = self.indexes.remove(&link).unwrap_or(None);
        remove_reader(&mut self.readers, index);
    }
}

// Removes the reader at this index, if there is one.
fn remove_reader(readers: &mut Slab<Reader>, index: Option<usize>)
    ensures { RemovesReader readers.old readers.new index }
{
    if let Some(index) = index {
        readers.try_remove(index);
        free_if_empty(readers);
    }
}

// Frees the memory of the readers if there is none.
fn free_if_empty(readers: &mut Slab<Reader>)
    ensures { SameValues readers.old readers.new }
{
    if readers.is_empty() {
        readers.shrink_to_fit();
    }
}

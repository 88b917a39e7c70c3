// The connections that were found last, so that most frames need no search.
ghost use Rattle.std.specs.Prelude.{◌≡◌, ◌<◌, ◌%◌, ℕ, None};
ghost use Rattle.ts_mux.specs.RecentIndexes.{recent_in, index_if, Takes, Clears};

use crate::current_connection::CurrentConnection;

const SLOTS: usize = 256;

// Each connection stands in the slot of its number.
#[derive(Drop)]
pub(crate) struct Recent {
    slots: [Option<CurrentConnection>; SLOTS],
}

impl Recent {
    // Allocates nothing.
    pub(crate) fn new() -> Recent
        ensures { (link : ℕ) → recent_in result.slots link ≡ None }
    {
        Recent {
            slots: [None; SLOTS],
        }
    }

    // The index of the connection's reader, if the connection was found lately.
    pub(crate) fn index_of(&self, link: u64) -> Option<usize>
        ensures { result ≡ recent_in self.now.slots link }
    {
        index_if(link, self.slots[slot_of(link)])
    }

    // Stores a connection that was found.
    pub(crate) fn put(&mut self, at: CurrentConnection)
        ensures { Takes at (recent_in self.old.slots) (recent_in self.new.slots) }
    {
        self.slots[slot_of(at.link)] = Some(at);
    }

    // Clears the slot of a connection.
    pub(crate) fn clear(&mut self, link: u64)
        ensures { Clears link (recent_in self.old.slots) (recent_in self.new.slots) }
    {
        self.slots[slot_of(link)] = None;
    }
}

// The slot of a connection.
fn slot_of(link: u64) -> usize
    ensures slot { result ≡ link % 256 }
    ensures within { result < 256 }
{
    (link % SLOTS as u64) as usize
}

// The index of this connection's reader, if it stands in this slot.
fn index_if(link: u64, slot: Option<CurrentConnection>) -> Option<usize>
    ensures { result ≡ index_if link slot }
{
    match slot {
        Some(at) => {
            if at.link == link {
                return Some(at.index);
            }
            None
        }
        None => None,
    }
}

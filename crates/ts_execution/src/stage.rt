// How far a journal is loaded.
ghost use Rattle.std.specs.Prelude.{◌≢◌};
ghost use Rattle.ts_execution.specs.Stages.{EntersStage};

use crate::next_change::NextChange;
use crate::open_series::OpenSeries;

/// What the next request of a journal is.
#[derive(Drop)]
pub(crate) enum Stage {
    /// The first one: the head of a checkpoint, or a change.
    Start,
    /// A part of the checkpoint. This many more follow it. If a series is given, its chunks come next.
    Parts {
        more: u64,
        current: Option<OpenSeries>,
    },
    /// A change. The checkpoint ends at this offset; 0 without one.
    Changes {
        checkpoint: u64,
    },
}

impl Stage {
    // Moves on after a part that ends at offset `after`, with `left` parts still to come. The journal breaks there if
    // no part is left but a series waits for chunks.
    pub(crate) fn enter(&mut self, left: u64, current: Option<OpenSeries>, after: u64) -> NextChange
        ensures enters { EntersStage result left current after self.new }
        ensures some { result ≢ NextChange.Nothing }
    {
        if left > 0 {
            *self = Stage::Parts {
                more: left - 1,
                current,
            };
            return NextChange::Change(after);
        }
        match current {
            None => {
                *self = Stage::Changes { checkpoint: after };
                NextChange::Change(after)
            }
            Some(_) => NextChange::Broken(after),
        }
    }
}

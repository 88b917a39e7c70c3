// The state of a load, which takes the journal piece by piece.
ghost use Rattle.std.specs.Prelude.{◌≡◌, ◌+◌, ◌<◌, ◌≤◌, ◌^◌, true, [], length, None};
ghost use Rattle.ts_resp.specs.Reading.{fed};
ghost use Rattle.ts_db.specs.DbState.{Simulates};
ghost use Rattle.ts_execution.specs.JournalReplay.{LoadsIf, IsCurrent, verdict, verdict_at};

use crate::loading::{Extent, LoadFault};
use crate::next_change::{NextChange, next_change};
use crate::stage::Stage;
use std::sync::ledger::{Blank, Ledger};
use ts_db::{Db, Hints};
use ts_resp::Reader;
use ts_sample::Steps;

/// The state of a load.
#[derive(Drop)]
pub(crate) struct Loading {
    pub(crate) reader: Reader,
    /// What the next request is.
    pub(crate) stage: Stage,
    /// Hints for the series of the keys.
    pub(crate) hints: Hints,
    /// The offset after the last request.
    pub(crate) end: u64,
    /// The offset at which the journal breaks, if it does.
    pub(crate) broken: Option<u64>,
}

impl Loading {
    /// The result, if the journal ends after `taken` bytes. It breaks there if a part of its checkpoint is missing, or
    /// if no record begins with its unfinished request.
    pub(crate) fn verdict(&self, taken: u64, is_record: bool) -> Result<Extent, LoadFault>
        ensures { result ≡ verdict self.now is_record taken }
    {
        match self.broken {
            Some(place) => Err(LoadFault::Broken(place)),
            None => match &self.stage {
                Stage::Start => whole_or_broken(self.reader.place(), 0, is_record, taken),
                Stage::Parts { .. } => Err(LoadFault::Broken(self.end)),
                Stage::Changes { checkpoint } => {
                    whole_or_broken(self.reader.place(), *checkpoint, is_record, taken)
                }
            },
        }
    }

    /// Takes the requests that this piece completes, unless the journal has already broken. Returns `false` if memory
    /// ran out.
    pub(crate) fn replay_piece<L: Ledger>(
        &mut self,
        db: &mut Db,
        bytes: &[u8],
        blank: Blank,
    ) -> bool
        requires within { fed self.old.reader + length bytes.now < 2 ^ 64 }
        requires name { blank.name ≡ L.name }
        requires parts { blank.parts ≡ L.parts }
        requires some { 0 < blank.parts }
        ensures loads { Simulates db.old db.new (λ from to. LoadsIf result self.old self.new bytes.now from to) }
        ensures current { result ≡ true → IsCurrent self.new }
        ensures fed { fed self.new.reader ≤ fed self.old.reader + length bytes.now }
    {
        match self.broken {
            Some(_) => true,
            None => self.replay_more::<L>(db, bytes, blank),
        }
    }

    // The same for a journal that has not broken.
    fn replay_more<L: Ledger>(&mut self, db: &mut Db, bytes: &[u8], blank: Blank) -> bool
        requires whole { self.old.broken ≡ None }
        requires within { fed self.old.reader + length bytes.now < 2 ^ 64 }
        requires name { blank.name ≡ L.name }
        requires parts { blank.parts ≡ L.parts }
        requires some { 0 < blank.parts }
        ensures loads { Simulates db.old db.new (λ from to. LoadsIf result self.old self.new bytes.now from to) }
        ensures current { result ≡ true → IsCurrent self.new }
        ensures fed { fed self.new.reader ≤ fed self.old.reader + length bytes.now }
    {
        let mut steps = Steps::<L>::new(blank);
        match self.reader.feed(bytes) {
            Ok(()) => self.replay_all(db, &mut steps),
            Err(_) => false,
        }
    }

    // Takes every complete request. Returns `false` if memory ran out.
    fn replay_all<L: Ledger>(&mut self, db: &mut Db, steps: &mut Steps<L>) -> bool
        requires whole { self.old.broken ≡ None }
        ensures loads { Simulates db.old db.new (λ from to. LoadsIf result self.old self.new [] from to) }
        ensures current { result ≡ true → IsCurrent self.new }
        ensures fed { fed self.new.reader ≡ fed self.old.reader }
    {
        loop {
            match next_change(
                &mut self.reader,
                &mut self.stage,
                self.end,
                db,
                &mut self.hints,
                steps,
            ) {
                NextChange::Change(end) => self.end = end,
                NextChange::Nothing => return true,
                NextChange::Broken(place) => {
                    self.broken = Some(place);
                    return true;
                }
                NextChange::Memory => return false,
            }
        }
    }
}

// The result for a journal of `taken` bytes whose unfinished request begins at this offset, if it has one. It breaks
// the journal unless a record begins so.
fn whole_or_broken(
    begin: Option<u64>,
    checkpoint: u64,
    is_record: bool,
    taken: u64,
) -> Result<Extent, LoadFault>
    ensures { result ≡ verdict_at begin checkpoint is_record taken }
{
    match begin {
        None => Ok(Extent {
            end: taken,
            checkpoint,
        }),
        Some(end) if is_record => Ok(Extent { end, checkpoint }),
        Some(place) => Err(LoadFault::Broken(place)),
    }
}

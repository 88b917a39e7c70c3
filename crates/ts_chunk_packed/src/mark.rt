// A position in a chunk where decoding may start.
ghost use Rattle.std.specs.Prelude.{◌≡◌, ◌+◌, ◌≤◌, false, IfNone, IfSome};

use crate::context::Context;
use std::marker::Model;
use ts_sample::Sample;

/// A position in a chunk: how many bytes and samples are in front of it.
#[derive(Clone, Copy)]
pub struct MarkPosition {
    pub at: u32,
    pub count: u32,
}

/// A position and the coding context there. It takes 48 bytes.
#[derive(Drop)]
pub struct Mark {
    last: Sample,
    step: u64,
    place: MarkPosition,
}

impl Model for Mark {
    ghost use Rattle.std.specs.Prelude.{◌≤◌, pos, true};
    ghost use Rattle.ts_spec.specs.Sample.{MAX_TIME};
    ghost use Rattle.ts_chunk_packed.specs.Marks.{MarkState};

    ghost Value = { MarkState };

    ghost view = { λ m. record {
      state = record { before = m.last; step = pos m.step; begun = true };
      at = m.place.at;
      count = m.place.count;
    } };

    ghost invariant = { λ m. m.step ≤ MAX_TIME };
}

impl Mark {
    /// A mark at `place`, after samples with this context. `None` if there are no samples.
    pub fn after(context: &Context, place: MarkPosition) -> Option<Mark>
        ensures state { IfSome result (λ m. m.state ≡ context.now) }
        ensures at { IfSome result (λ m. m.at ≡ place.at) }
        ensures count { IfSome result (λ m. m.count ≡ place.count) }
        ensures none { IfNone result (context.now.begun ≡ false) }
    {
        context.known();
        let last = context.last()?;
        let step = context.step();
        Some(Mark { last, step, place })
    }

    /// The coding context at the mark.
    pub fn context(&self) -> Context
        ensures { result ≡ self.now.state }
    {
        Context::new(Some(self.last), self.step)
    }

    /// The time of the last sample in front of the mark, in milliseconds.
    pub fn time(&self) -> u64
        ensures { result ≡ self.now.state.before.time }
    {
        self.last.time
    }

    /// The number of bytes in front of the mark.
    pub fn at(&self) -> u32
        ensures { result ≡ self.now.at }
    {
        self.place.at
    }

    /// The number of samples in front of the mark.
    pub fn count(&self) -> u32
        ensures { result ≡ self.now.count }
    {
        self.place.count
    }

    pub fn copy(&self) -> Mark
        ensures { result ≡ self.now }
    {
        Mark {
            last: self.last,
            step: self.step,
            place: self.place,
        }
    }

    /// The mark as far after `to` as this one is after `from`. `None` if it is not after `from`.
    pub fn moved(&self, from: MarkPosition, to: MarkPosition) -> Option<Mark>
        ensures state { IfSome result (λ m. m.state ≡ self.now.state) }
        ensures past { IfSome result (λ _. from.count ≤ self.now.count) }
        ensures at { IfSome result (λ m. m.at + from.at ≡ self.now.at + to.at) }
        ensures count { IfSome result (λ m. m.count + from.count ≡ self.now.count + to.count) }
    {
        let at = self.place.at.checked_sub(from.at)?.checked_add(to.at)?;
        let count = self
            .place
            .count
            .checked_sub(from.count)?
            .checked_add(to.count)?;
        Some(Mark {
            last: self.last,
            step: self.step,
            place: MarkPosition { at, count },
        })
    }
}

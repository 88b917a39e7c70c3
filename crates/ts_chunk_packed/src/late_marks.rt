// The marks of a chunk that received late samples. A chunk that only grows at its end has none and no memory for any.
ghost use Rattle.std.specs.Prelude.{◌≡◌, ◌<◌, ◌≤◌, ◌*◌, List, ◌++◌, take, length, IfOk, IfSome};
ghost use Rattle.ts_spec.specs.Sample.{Point};
ghost use Rattle.ts_chunk_packed.specs.Marks.{IsMark, AreMarks, EndsAt};
ghost use Rattle.ts_chunk_packed.specs.Packed.{begin, packed, state_from};

use crate::context::Context;
use crate::mark::{Mark, MarkPosition};
use crate::marks::Marks;
use std::alloc::{AllocError, Global};
use std::marker::Model;

/// A chunk's marks, if memory for them was allocated. Without it they take 16 bytes.
#[derive(Drop)]
pub struct LateMarks {
    marks: Option<Box<Marks>>,
}

impl Model for LateMarks {
    ghost use Rattle.std.specs.Prelude.{List};
    ghost use Rattle.ts_chunk_packed.specs.Marks.{MarkState, marks_of};

    ghost Value = { List MarkState };

    ghost view = { λ l. marks_of l.marks };
}

impl LateMarks {
    /// No marks, and no capacity for any.
    pub fn new() -> LateMarks
        ensures { (ps : List Point) → AreMarks ps result }
    {
        LateMarks { marks: None }
    }

    /// No marks yet, with capacity for all marks of a chunk of `limit` bytes.
    pub fn with_reserved(alloc: Global, limit: u32) -> Result<LateMarks, AllocError>
        ensures { IfOk result (λ ms. (ps : List Point) → AreMarks ps ms) }
    {
        let marks = Box::new(alloc, Marks::new(alloc, limit)?)?;
        Ok(LateMarks { marks: Some(marks) })
    }

    /// Sets a mark after all samples of the chunk, if there is capacity and one is due. Allocates nothing.
    #[inline(always)]
    pub fn set(&mut self, context: &Context, place: MarkPosition)
        ensures { (ps : List Point) → context.now ≡ state_from begin ps → EndsAt ps place.at place.count
            → AreMarks ps self.old → AreMarks ps self.new }
    {
        let Some(marks) = &mut self.marks else {
            return;
        };
        marks.set(context, place);
    }

    /// The number of marks: at most one per 256 bytes of samples.
    pub fn len(&self) -> usize
        ensures { (ps : List Point) → AreMarks ps self.now → 256 * result ≤ length (packed ps) }
    {
        match &self.marks {
            Some(marks) => marks.len(),
            None => 0,
        }
    }

    /// The last mark with only earlier samples in front of it, so that reading from it misses no sample from `time`
    /// on.
    pub fn before(&self, time: u64) -> Option<&Mark>
        ensures mark { (ps : List Point) → AreMarks ps self.now → IfSome result (λ m. IsMark ps m.now) }
        ensures early { IfSome result (λ m. m.now.state.before.time < time) }
    {
        match &self.marks {
            Some(marks) => marks.before(time),
            None => None,
        }
    }

    /// Copies the marks of `others` that come after at most `count` samples.
    pub fn keep_first(&mut self, others: &LateMarks, count: u32)
        ensures { (ps : List Point) → AreMarks ps others.now → count ≤ length ps → AreMarks (take count ps) self.old
            → AreMarks (take count ps) self.new }
    {
        let Some(others) = &others.marks else {
            return;
        };
        let Some(marks) = &mut self.marks else {
            return;
        };
        marks.keep_first(others, count);
    }

    /// Copies the marks of `others` after position `from`, moved to position `to`, where the same samples now start.
    pub fn keep_moved(&mut self, others: &LateMarks, from: MarkPosition, to: MarkPosition)
        ensures { (ps qs rest : List Point) → EndsAt ps from.at from.count → EndsAt qs to.at to.count
            → state_from begin ps ≡ state_from begin qs → AreMarks (ps ++ rest) others.now
            → AreMarks (qs ++ rest) self.old → AreMarks (qs ++ rest) self.new }
    {
        let Some(others) = &others.marks else {
            return;
        };
        let Some(marks) = &mut self.marks else {
            return;
        };
        marks.keep_moved(others, from, to);
    }
}

// The marks of a chunk: positions where decoding may start, so that it need not start at the front. Which marks there
// are affects only speed.
ghost use Rattle.std.specs.Prelude.{◌≡◌, ◌<◌, ◌≤◌, ◌*◌, List, ◌++◌, take, length, IfOk, IfSome};
ghost use Rattle.ts_spec.specs.Sample.{Point};
ghost use Rattle.ts_chunk_packed.specs.Marks.{MarkState, IsMark, AreMarks, EndsAt};
ghost use Rattle.ts_chunk_packed.specs.Packed.{begin, packed, state_from};

use crate::context::Context;
use crate::mark::{Mark, MarkPosition};
use std::alloc::{AllocError, Global};
use std::marker::Model;

/// The least number of bytes between two marks. A chunk of 4,096 bytes has at most 16 marks, of 768 bytes in all.
const SPACING: u32 = 256;

/// A chunk's marks, in order, with their memory allocated in advance.
#[derive(Drop)]
pub struct Marks {
    list: Vec<Mark>,
    // The byte offset from which the next mark is due.
    due: u32,
}

impl Model for Marks {
    ghost use Rattle.std.specs.Prelude.{List};
    ghost use Rattle.ts_chunk_packed.specs.Marks.{MarkState};

    ghost Value = { List MarkState };

    ghost view = { λ m. m.list.items };

    ghost use Rattle.ts_chunk_packed.specs.Marks.{IsSpaced};

    ghost invariant = { λ m. IsSpaced m.due m.list.items };
}

impl Marks {
    /// No marks yet, with capacity for all marks of a chunk of `limit` bytes.
    pub fn new(alloc: Global, limit: u32) -> Result<Marks, AllocError>
        ensures { IfOk result (λ ms. (ps : List Point) → AreMarks ps ms) }
    {
        Ok(Marks {
            list: Vec::with_capacity(alloc, (limit / SPACING) as usize)?,
            due: SPACING,
        })
    }

    /// The number of marks: at most one per 256 bytes of samples.
    pub fn len(&self) -> usize
        ensures { (ps : List Point) → AreMarks ps self.now → 256 * result ≤ length (packed ps) }
    {
        self.list.len()
    }

    // Appends a mark, if it is due and there is capacity.
    fn keep(&mut self, mark: Mark)
        ensures { (ps : List Point) → AreMarks ps self.old → IsMark ps mark → AreMarks ps self.new }
    {
        let at = mark.at();
        if at < self.due || self.list.len() == self.list.capacity() {
            return;
        }
        let Some(due) = at.checked_add(SPACING) else {
            return;
        };
        self.list.push_reserved(mark);
        self.due = due;
    }

    /// Sets a mark after all samples of the chunk, if one is due. Allocates nothing.
    #[inline(always)]
    pub fn set(&mut self, context: &Context, place: MarkPosition)
        ensures { (ps : List Point) → context.now ≡ state_from begin ps → EndsAt ps place.at place.count
            → AreMarks ps self.old → AreMarks ps self.new }
    {
        if self.due <= place.at {
            if let Some(mark) = Mark::after(context, place) {
                self.keep(mark);
            }
        }
    }

    /// The last mark with only earlier samples in front of it, so that reading from it misses no sample from `time`
    /// on.
    pub fn before(&self, time: u64) -> Option<&Mark>
        ensures mark { (ps : List Point) → AreMarks ps self.now → IfSome result (λ m. IsMark ps m.now) }
        ensures early { IfSome result (λ m. m.now.state.before.time < time) }
    {
        let index = self.list.partition_point(|mark| mark.time() < time);
        if index == 0 {
            return None;
        }
        let mark = &self.list[index - 1];
        if mark.time() < time { Some(mark) } else { None }
    }

    /// Copies the marks of `others` that come after at most `count` samples.
    pub fn keep_first(&mut self, others: &Marks, count: u32)
        ensures { (ps : List Point) → AreMarks ps others.now → count ≤ length ps → AreMarks (take count ps) self.old
            → AreMarks (take count ps) self.new }
    {
        for index in 0..others.list.len() {
            self.keep_within(&others.list[index], count);
        }
    }

    // Copies `mark` if it comes after at most `count` samples.
    fn keep_within(&mut self, mark: &Mark, count: u32)
        ensures { (ps : List Point) → IsMark ps mark.now → count ≤ length ps → AreMarks (take count ps) self.old
            → AreMarks (take count ps) self.new }
    {
        if mark.count() <= count {
            self.keep(mark.copy());
        }
    }

    /// Copies the marks of `others` after position `from`, moved to position `to`, where the same samples now start.
    pub fn keep_moved(&mut self, others: &Marks, from: MarkPosition, to: MarkPosition)
        ensures { (ps qs rest : List Point) → EndsAt ps from.at from.count → EndsAt qs to.at to.count
            → state_from begin ps ≡ state_from begin qs → AreMarks (ps ++ rest) others.now
            → AreMarks (qs ++ rest) self.old → AreMarks (qs ++ rest) self.new }
    {
        for index in 0..others.list.len() {
            self.keep_past(&others.list[index], from, to);
        }
    }

    // Copies `mark`, moved from `from` to `to`, if it is after `from`.
    fn keep_past(&mut self, mark: &Mark, from: MarkPosition, to: MarkPosition)
        ensures { (ps qs rest : List Point) → EndsAt ps from.at from.count → EndsAt qs to.at to.count
            → state_from begin ps ≡ state_from begin qs → IsMark (ps ++ rest) mark.now → AreMarks (qs ++ rest) self.old
            → AreMarks (qs ++ rest) self.new }
    {
        if let Some(moved) = mark.moved(from, to) {
            self.keep(moved);
        }
    }
}

// Reads inline requests: one line of text each.
ghost use Rattle.std.specs.Prelude.{◌≡◌, ◌≢◌, ◌<◌, length, slice_index, None, MatchOption};
ghost use Rattle.ts_resp.specs.Steps.{GoesOn, Gives};
ghost use Rattle.ts_resp.specs.Texts.{IsText, IsTextBegun};

use super::{Next, Reader};
use crate::text::{Text, found_text, push_words};
use std::mem;
use ts_spec::Kind;

impl Reader {
    // Reads one inline request. Returns `None` if it had no arguments.
    pub(super) fn read_line(&mut self) -> Option<Next>
        requires between { self.old.so_far ≡ None }
        requires some { 0 < length self.old.unread }
        requires line { slice_index self.old.unread 0 ≢ 42 }
        ensures { MatchOption result (GoesOn self.old self.new) (Gives self.old self.new) }
    {
        match found_text(self.unread.as_slice(), self.scanned, &self.limits) {
            Text::Open => {
                self.scanned = self.unread.len();
                Some(Next::NotYet)
            }
            Text::Whole { feed } => self.consume_line(feed),
            Text::TooLong => {
                let at = self.limits.line_bytes as usize;
                Some(Next::Broken(self.fault(Kind::TooLarge, at)))
            }
        }
    }

    // Consumes the line whose LF is at index `feed`. Out of memory leaves the line unread.
    fn consume_line(&mut self, feed: usize) -> Option<Next>
        requires between { self.old.so_far ≡ None }
        requires text { IsText self.old.limits self.old.unread (Text.Whole feed) }
        requires begun { IsTextBegun self.old.limits self.old.unread (Text.Whole feed) }
        requires within { feed < length self.old.unread }
        ensures { MatchOption result (GoesOn self.old self.new) (Gives self.old self.new) }
    {
        let mut words = mem::replace(&mut self.spare, Vec::new(self.alloc));
        words.clear();
        let line = &self.unread.as_slice()[..feed];
        if push_words(self.alloc, line, &mut words).is_err() {
            return Some(Next::Memory);
        }
        self.pass(feed + 1);
        self.begin = self.place;
        if words.is_empty() {
            self.spare = words;
            return None;
        }
        Some(Next::Request(words))
    }
}

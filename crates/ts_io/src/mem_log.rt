// A log for tests, with its content in memory.
ghost use Rattle.std.specs.Prelude.{◌≡◌, None};

use crate::schedule::Schedule;
use std::marker::Model;

mod calls;

/// A log with its content in memory, the same under every name. Each call reads or appends as many bytes as it can. The
/// calls with chosen numbers fail. An append, also one to the draft, fails too if it runs out of memory.
#[derive(Drop)]
pub struct MemLog {
    content: Vec<u8>,
    draft: Option<Vec<u8>>,
    place: u64,
    schedule: Schedule,
}

impl Model for MemLog {
    ghost use Rattle.std.specs.Option.{option_map};
    ghost use Rattle.ts_io.specs.Logs.{MemLogState};

    ghost Value = { MemLogState };

    ghost view = { λ s. record {
      content = s.content.items;
      draft = option_map (λ d. d.items) s.draft;
      place = s.place;
      calls = s.schedule;
    } };
}

impl MemLog {
    /// Creates a log with this content and no draft, at its start. A call of any method but `last_cause` fails if its
    /// number, counted from 1, is in `fail`.
    pub fn new(content: Vec<u8>, fail: Vec<u64>) -> Self
        ensures content { result.content ≡ content.items }
        ensures draft { result.draft ≡ None }
        ensures place { result.place ≡ 0 }
        ensures calls { result.calls ≡ record { to_fail = fail.items; made = 0; failed = 0 } }
    {
        MemLog {
            content,
            draft: None,
            place: 0,
            schedule: Schedule::new(fail),
        }
    }

    /// The content.
    pub fn bytes(&self) -> &[u8]
        ensures { result.now ≡ self.now.content }
    {
        &self.content
    }
}

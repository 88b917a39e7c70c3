// A sink that writes rows as text.
ghost use Rattle.std.specs.Prelude.{◌+◌, ◌≤◌, length};

use crate::faults::write_out_of_memory;
use ts_range::{FallibleRowSink, Row, RowSink};
use ts_resp::{Out, PAIR_BYTES, close_array, open_array, write_pair};

/// Writes the text of each row, after a gap of 24 bytes for the array header. The output grows as needed.
#[derive(Drop)]
pub(crate) struct RowTexts {
    out: Out,
    count: u64,
    // Whether memory ran out for a row.
    lost: bool,
    ghost gap: { 24 ≤ length out.bytes },
    ghost room: { 152 ≤ length out.bytes + out.spare },
}

/// The initial capacity, in bytes: the gap, and the longest error reply.
pub(crate) const FIRST_ROOM: usize = 152;

impl RowTexts {
    ghost use Rattle.std.specs.Prelude.{◌≡◌, [], List};
    ghost use Rattle.ts_spec.specs.Answer.{Row as TheRow};
    ghost use Rattle.ts_spec.specs.Response.{Rows};
    ghost use Rattle.ts_questions.specs.Answering.{IsReplyText};
    ghost use Rattle.ts_questions.specs.RowTexts.{AreWritten};

    /// No rows yet.
    pub(crate) fn begin(mut out: Out) -> RowTexts
        requires empty { out.bytes ≡ [] }
        requires room { 152 ≤ out.spare }
        ensures { AreWritten result.lost result.count result.out.bytes [] }
    {
        open_array(&mut out);
        RowTexts {
            out,
            count: 0,
            lost: false,
        }
    }

    /// The text of the array of the rows, or the out-of-memory error.
    pub(crate) fn finish(self) -> Out
        ensures reply { (rows : List TheRow) → AreWritten self.lost self.count self.out.bytes rows
            → IsReplyText (Rows rows) result.bytes }
        ensures room { 128 ≤ length result.bytes + result.spare }
    {
        let RowTexts {
            mut out,
            count,
            lost,
        } = self;
        if lost {
            out.clear();
            write_out_of_memory(&mut out);
            return out;
        }
        close_array(count as usize, &mut out);
        out
    }
}

impl RowSink for RowTexts {
    ghost use Rattle.ts_range.specs.SinkState.{no_limit};
    ghost use Rattle.ts_questions.specs.RowTexts.{AreWritten};

    ghost has = { λ t rows. AreWritten t.lost t.count t.out.bytes rows };

    ghost limit = { λ t. no_limit };

    fn row(&mut self, row: Row) {
        if self.lost {
            return;
        }
        let Some(count) = self.count.checked_add(1) else {
            self.lost = true;
            return;
        };
        match self.out.reserve(PAIR_BYTES) {
            Err(_) => self.lost = true,
            Ok(()) => {
                write_pair(row.time, row.value, &mut self.out);
                self.count = count;
            }
        }
    }

    fn is_full(&self) -> bool {
        self.lost
    }
}

impl FallibleRowSink for RowTexts {
    fn lose(&mut self) {
        self.lost = true;
    }
}

// The limits of a run.
ghost use Rattle.ts_journal.specs.Limits.{IsBounded};
ghost use Rattle.ts_engine.specs.Top.{AreUsable};

use ts_engine::Limits;

// The most arguments of a request, and the most bytes of an argument.
const MOST_WORDS: u32 = 4_000_000_000;

// The most bytes of a request.
const MOST_BYTES: u32 = 100_000_000;

// The limits nearest to these that a run can have: each at least 1, and those of requests at most as large as a
// journal allows.
pub(crate) fn usable(mut limits: Limits) -> Limits
    ensures usable { AreUsable result }
    ensures bounded { IsBounded result.wire }
{
    limits.wire.words = limits.wire.words.max(1).min(MOST_WORDS);
    limits.wire.word_bytes = limits.wire.word_bytes.max(1).min(MOST_WORDS);
    limits.wire.request_bytes = limits.wire.request_bytes.max(1).min(MOST_BYTES);
    limits.wire.line_bytes = limits.wire.line_bytes.max(1).min(MOST_BYTES / 2);
    limits.keys = limits.keys.max(1);
    limits.labels = limits.labels.max(1);
    limits.rules = limits.rules.max(1);
    limits.samples = limits.samples.max(1);
    limits.empty_rows = limits.empty_rows.max(1);
    limits.born = limits.born.max(1);
    limits
}

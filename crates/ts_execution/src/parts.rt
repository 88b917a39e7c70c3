// Restores the parts of a checkpoint, one after another.
ghost use Rattle.std.specs.Prelude.{◌≡◌, Some};
ghost use Rattle.ts_db.specs.DbState.{Simulates};
ghost use Rattle.ts_checkpoint.specs.Loading.{with_open, with_rule};
ghost use Rattle.ts_checkpoint.specs.Parts.{value_of, rule_of};
ghost use Rattle.ts_checkpoint.specs.PartOf.{part_of};
ghost use Rattle.ts_checkpoint.specs.Sayable.{IsTimeIfAny};
ghost use Rattle.ts_sample.specs.Chunk.{IsLimit};
ghost use Rattle.ts_checkpoint.specs.Parts as spec;
ghost use Rattle.ts_execution.specs.Stages.{TakesPart, GivesRestored, IsInRange, part_result_of};

use crate::open_series::OpenSeries;
use std::alloc::{AllocError, Global};
use std::sync::ledger::Ledger;
use ts_agg::Running;
use ts_checkpoint::{Part, PartFault, Piece, RuleRecord, read_part};
use ts_db::{Db, RestoredRule};
use ts_resp::Word;
use ts_sample::Steps;

/// The result of restoring a part of a checkpoint.
#[derive(Drop)]
pub(crate) enum PartResult {
    /// It was restored. This series waits for chunks, if there is one.
    Taken(Option<OpenSeries>),
    /// It is damaged, or it can't come next.
    Refused,
    /// Out of memory.
    Memory,
}

/// Restores the part that a request says, after the parts before it. `current` waits for chunks, if there is one.
pub(crate) fn restore_request<L: Ledger>(
    current: Option<OpenSeries>,
    words: Vec<Word>,
    db: &mut Db,
    steps: &mut Steps<L>,
) -> PartResult
    ensures { Simulates db.old db.new (λ from to. TakesPart result current (part_of words.items) from to) }
{
    let alloc = *words.allocator();
    match read_part(words) {
        Ok(part) => restore_part(alloc, current, part, db, steps),
        Err(PartFault::Refused) => PartResult::Refused,
        Err(PartFault::Memory(_)) => PartResult::Memory,
    }
}

// The same for a part.
fn restore_part<L: Ledger>(
    alloc: Global,
    current: Option<OpenSeries>,
    part: Part,
    db: &mut Db,
    steps: &mut Steps<L>,
) -> PartResult
    requires { IsInRange (value_of part) }
    ensures { Simulates db.old db.new (λ from to. TakesPart result current (Some (value_of part)) from to) }
{
    match current {
        None => match part {
            Part::Series(head) => go_on(OpenSeries::new(alloc, head), db, steps),
            Part::Rule(rule) => restore_rule(rule, db, steps),
            Part::Head(_) | Part::Samples(_) => PartResult::Refused,
        },
        Some(series) => match part {
            Part::Samples(piece) => restore_samples(series, piece, db, steps),
            Part::Head(_) | Part::Series(_) | Part::Rule(_) => PartResult::Refused,
        },
    }
}

// Stores a series if all its chunks are there; otherwise it waits for more.
fn go_on<L: Ledger>(series: OpenSeries, db: &mut Db, steps: &mut Steps<L>) -> PartResult
    ensures { Simulates db.old db.new
        (λ from to. GivesRestored result (with_open from.limits from.state series) from to) }
{
    if series.is_whole() {
        part_result(series.store(db, steps))
    } else {
        PartResult::Taken(Some(series))
    }
}

// Adds a chunk to a series.
fn restore_samples<L: Ledger>(
    series: OpenSeries,
    piece: Piece,
    db: &mut Db,
    steps: &mut Steps<L>,
) -> PartResult
    requires { IsLimit piece.limit }
    ensures { Simulates db.old db.new (λ from to.
        TakesPart result (Some series) (Some (spec.Samples (spec.piece_of piece))) from to) }
{
    let mut series = series;
    match series.add(&piece) {
        Ok(true) => go_on(series, db, steps),
        Ok(false) => PartResult::Refused,
        Err(_) => PartResult::Memory,
    }
}

// Restores a rule.
fn restore_rule<L: Ledger>(rule: RuleRecord, db: &mut Db, steps: &mut Steps<L>) -> PartResult
    requires { IsTimeIfAny rule.current }
    ensures { Simulates db.old db.new
        (λ from to. GivesRestored result (with_rule from.limits from.state (rule_of rule)) from to) }
{
    ts_checkpoint::checks_are_exact();
    ts_checkpoint::new_rules_have_short_summaries();
    rule.grid.known();
    let RuleRecord {
        source,
        dest,
        agg,
        grid,
        made,
        current,
        running,
    } = rule;
    match Running::restored(running) {
        None => PartResult::Refused,
        Some(running) => {
            let rule = RestoredRule {
                agg,
                grid,
                made,
                current,
                running,
            };
            part_result(db.restore_rule(&source, &dest, rule, steps))
        }
    }
}

// The result for a series with all its chunks, or for a rule.
fn part_result(outcome: Result<bool, AllocError>) -> PartResult
    ensures { result ≡ part_result_of outcome }
{
    match outcome {
        Ok(true) => PartResult::Taken(None),
        Ok(false) => PartResult::Refused,
        Err(_) => PartResult::Memory,
    }
}

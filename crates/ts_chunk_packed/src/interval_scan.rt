// Scans an interval and passes its samples to a visitor.
ghost use Rattle.std.specs.Prelude.{◌≡◌, ◌+◌, ◌≤◌, nat_le, true, if◌then◌else◌, ◌∷◌, length};
ghost use Rattle.ts_sample.specs.Visit.{visited};
ghost use Rattle.ts_spec.specs.Sample.{IsAscending, between};

use crate::coding::decode;
use crate::decoder::Decoder;
use std::sync::ledger::Ledger;
use ts_sample::{Sample, Steps, Visit};

/// Passes the remaining samples from `from` to `to` to `visit`, oldest first. Each decoded sample is one step.
#[inline(always)]
pub fn walk<V: Visit, L: Ledger>(
    rest: Decoder<'_>,
    from: u64,
    to: u64,
    visit: &mut V,
    steps: &mut Steps<L>,
)
    requires room { length (between from to rest.list) ≤ V.room visit.old }
    ensures visited { visit.new ≡ visited V.step visit.old (between from to rest.entry.list) }
    ensures counted { steps.old + length (between from to rest.entry.list) ≤ steps.new }
    ensures bounded { steps.new ≤ steps.old + length rest.entry.list }
{
    if let Some((first, others)) = rest.split_first() {
        scan_from_first(&first, others, from, to, visit, steps);
    }
}

// Scans a first sample and the ones after it.
#[inline(always)]
fn scan_from_first<V: Visit, L: Ledger>(
    first: &Sample,
    others: Decoder<'_>,
    from: u64,
    to: u64,
    visit: &mut V,
    steps: &mut Steps<L>,
)
    requires ascending { IsAscending (first.now ∷ others.list) }
    requires room { length (between from to (first.now ∷ others.list)) ≤ V.room visit.old }
    ensures visited { visit.new ≡ visited V.step visit.old (between from to (first.now ∷ others.entry.list)) }
    ensures counted { steps.old + length (between from to (first.now ∷ others.entry.list)) ≤ steps.new }
    ensures bounded { steps.new ≤ steps.old + length (first.now ∷ others.entry.list) }
{
    steps.tick();
    if first.time > to {
        return;
    }
    offer(first, from, visit);
    scan_following(others, from, to, visit, steps);
}

// Scans samples that follow a decoded one.
#[inline(always)]
fn scan_following<V: Visit, L: Ledger>(
    rest: Decoder<'_>,
    from: u64,
    to: u64,
    visit: &mut V,
    steps: &mut Steps<L>,
)
    requires room { length (between from to rest.list) ≤ V.room visit.old }
    ensures visited { visit.new ≡ visited V.step visit.old (between from to rest.entry.list) }
    ensures counted { steps.old + length (between from to rest.entry.list) ≤ steps.new }
    ensures bounded { steps.new ≤ steps.old + length rest.entry.list }
{
    let (mut context, mut bytes, count) = rest.into_parts();
    for _ in 0..count {
        steps.tick();
        let (sample, after) = decode(&context, bytes);
        if sample.time > to {
            return;
        }
        offer(&sample, from, visit);
        context = context.after(&sample);
        bytes = after;
    }
}

// Passes a sample to the visitor, unless it is before `from`.
#[inline(always)]
fn offer<V: Visit>(sample: &Sample, from: u64, visit: &mut V)
    requires { nat_le from sample.now.time ≡ true → 1 ≤ V.room visit.old }
    ensures { visit.new ≡ (if nat_le from sample.now.time then V.step visit.old sample.now else visit.old) }
{
    if from <= sample.time {
        visit.sample(sample);
    }
}

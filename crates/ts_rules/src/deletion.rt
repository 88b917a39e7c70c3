// A deletion on a source, as it affects one of its rules, and the destination after it.
ghost use Rattle.std.specs.Prelude.{◌≡◌, ℕ, ◌≤◌, [], true, ◌+◌, ◌*◌, ◌++◌, not, length};
ghost use Rattle.std.specs.List.Sorted.{IsNonDecreasing};
ghost use Rattle.ts_spec.specs.Sample.{MAX_TIME, at_times, between};
ghost use Rattle.ts_spec.specs.Bucket.{start as start_of};
ghost use Rattle.ts_spec.specs.Answer.{contains_time};
ghost use Rattle.ts_spec.specs.StoredUpdates.{recounted_bucket, lies_in};
ghost use Rattle.ts_sample.specs.Steps.{Takes};
ghost use Rattle.ts_series.specs.History.{list_of, reach};
ghost use Rattle.ts_rules.specs.Rules.{stored_rule_for, one_of, IsChanged};
ghost use Rattle.ts_rules.specs.Deletions.{gone_of, left_of, is_lost, row_left, rule_left, rows_left, span_left};
ghost use Rattle.ts_rules.specs.Plans.{IsUpdate};
ghost use Rattle.ts_rules.specs.DeletionBuffers.{HasCapacity, count_touched};

use crate::open_bucket::{opened, row};
use crate::plan::{RuleFault, updated_list};
use crate::rule::Rule;
use std::sync::ledger::Ledger;
use ts_agg::Running;
use ts_sample::{Sample, SampleCollector, Steps, Visit};
use ts_series::{Series, SeriesPlan};

// A deletion of the samples from `from` to `to`, both inclusive, on the source of a rule, with what was found out about
// it for the rule. `source` is still as it was before.
#[derive(Clone, Copy)]
pub(crate) struct Deletion<'a> {
    pub(crate) rule: &'a Rule,
    pub(crate) source: &'a Series,
    pub(crate) from: u64,
    pub(crate) to: u64,
    // The starts of the buckets that lose a sample, in ascending order.
    pub(crate) lost: &'a [u64],
    // What remains in the bucket of `from` and in that of `to`.
    pub(crate) first: Running,
    pub(crate) last: Running,
    pub ghost in_order: { from ≤ to },
    pub ghost in_time: { to ≤ MAX_TIME },
    pub ghost rising: { IsNonDecreasing lost.now },
    pub ghost lies: { (b : ℕ) → contains_time lost.now b ≡ lies_in rule.now.grid (gone_of source.now from to) b },
    pub ghost first_left: { first
        ≡ recounted_bucket (stored_rule_for [] rule.now) (start_of rule.now.grid from) (left_of source.now from to) },
    pub ghost last_left: { last
        ≡ recounted_bucket (stored_rule_for [] rule.now) (start_of rule.now.grid to) (left_of source.now from to) },
}

impl Deletion<'_> {
    // The rule after the deletion. Recounts its open bucket if that lost a sample.
    pub(crate) fn rule_left(&self) -> Rule
        ensures { IsChanged (rule_left self.now.source.now self.now.from self.now.to) self.now.rule.now result }
    {
        let Some(open) = self.rule.current else {
            return *self.rule;
        };
        if !self.touches(open) {
            return *self.rule;
        }
        opened(self.rule, Some(open), self.left_in(open))
    }

    // What remains in a bucket that loses a sample.
    fn left_in(&self, start: u64) -> Running
        requires { lies_in self.now.rule.now.grid (gone_of self.now.source.now self.now.from self.now.to) start ≡ true }
        ensures { result ≡ recounted_bucket (stored_rule_for [] self.now.rule.now) start
            (left_of self.now.source.now self.now.from self.now.to) }
    {
        let grid = &self.rule.grid;
        if start == grid.start_of(self.from) {
            self.first
        } else if start == grid.start_of(self.to) {
            self.last
        } else {
            Running::new()
        }
    }

    // The row of the bucket that starts at `start`, if the bucket is closed, lost a sample and still has some. `left`
    // is what remains in it, and `born` the destination's rule count.
    pub(crate) fn row_left(&self, start: u64, left: &Running, born: u32) -> Option<Sample>
        requires time { start ≤ MAX_TIME }
        requires left { left.now ≡ recounted_bucket (stored_rule_for [] self.now.rule.now) start
            (left_of self.now.source.now self.now.from self.now.to) }
        ensures { one_of result ≡ row_left self.now.rule.now self.now.source.now self.now.from self.now.to born start }
    {
        if !self.loses(start) {
            return None;
        }
        row(self.rule.agg, born, start, left)
    }

    // Whether the bucket that starts at `start` is closed and loses a sample.
    pub(crate) fn loses(&self, start: u64) -> bool
        ensures { result ≡ is_lost self.now.rule.now self.now.source.now self.now.from self.now.to start }
    {
        self.rule.is_closed(start) && self.touches(start)
    }

    // Whether a bucket starts at `start` and loses a sample.
    fn touches(&self, start: u64) -> bool
        ensures { result ≡ lies_in self.now.rule.now.grid (gone_of self.now.source.now self.now.from self.now.to)
            start }
    {
        self.lost.binary_search(&start).is_ok()
    }
}

impl Deletion<'_> {
    // Plans the destination after the deletion. Buckets that lost a sample get a new row, or none if they are empty.
    pub(crate) fn dest_left<L: Ledger>(
        &self,
        shown: SampleCollector,
        rows: SampleCollector,
        dest: &Series,
        limit: u32,
        steps: &mut Steps<L>,
    ) -> Result<Option<SeriesPlan>, RuleFault>
        requires fits { length (list_of dest.now) ≤ limit }
        requires shown { HasCapacity (count_touched self.now.rule.now self.now.from self.now.to dest.now) shown }
        requires rows { HasCapacity (count_touched self.now.rule.now self.now.from self.now.to dest.now + 2) rows }
        ensures updated_list { IsUpdate limit (is_lost self.now.rule.now self.now.source.now self.now.from self.now.to)
            (rows_left self.now.rule.now self.now.source.now self.now.from self.now.to dest.now.born) dest.now result }
        ensures steps { Takes steps.old steps.new
            (length (between (start_of self.now.rule.now.grid self.now.from) self.now.to (list_of dest.now))
            + 5 * reach dest.now) }
    {
        self.rule.grid.known();
        self.source.known();
        dest.known();
        let first = self.rule.grid.start_of(self.from);
        if !self.rule.is_closed(first) {
            return Ok(None);
        }
        let last = self.rule.grid.start_of(self.to);
        let rows = self.span_left(shown, rows, dest, first, last, steps);
        updated_list(dest, first, last, &rows, limit, steps)
    }

    // The destination's samples from `first` to `last` after the deletion: the rows of these two buckets if they lost
    // a sample, and between them the samples that stay.
    fn span_left<L: Ledger>(
        &self,
        mut shown: SampleCollector,
        mut rows: SampleCollector,
        dest: &Series,
        first: u64,
        last: u64,
        steps: &mut Steps<L>,
    ) -> Vec<Sample>
        requires first { (first ≤ MAX_TIME) × (first ≡ start_of self.now.rule.now.grid self.now.from) }
        requires last { (last ≤ MAX_TIME) × (last ≡ start_of self.now.rule.now.grid self.now.to) }
        requires shown { HasCapacity (length (between first last (list_of dest.now))) shown }
        requires rows { HasCapacity (length (between first last (list_of dest.now)) + 2) rows }
        ensures span { result.items
            ≡ span_left self.now.rule.now self.now.source.now self.now.from self.now.to dest.now.born first last
            (list_of dest.now) }
        ensures steps { Takes steps.old steps.new
            (length (between first last (list_of dest.now)) + 2 * reach dest.now) }
    {
        dest.scan(first, last, &mut shown, steps);
        let shown = shown.into_samples();
        push_row(&mut rows, self.row_left(first, &self.first, dest.born()));
        self.push_unaffected(&mut rows, &shown);
        if first != last {
            push_row(&mut rows, self.row_left(last, &self.last, dest.born()));
        }
        rows.into_samples()
    }

    // Appends the samples whose buckets lose nothing.
    fn push_unaffected(&self, rows: &mut SampleCollector, shown: &[Sample])
        requires { length shown.now ≤ rows.old.room }
        ensures list { rows.new.list ≡ rows.old.list
            ++ at_times (λ t. not (is_lost self.now.rule.now self.now.source.now self.now.from self.now.to t))
            shown.now }
        ensures room { rows.old.room ≤ rows.new.room + length shown.now }
    {
        for sample in shown {
            if !self.loses(sample.time) {
                rows.sample(sample);
            }
        }
    }
}

// Appends a row, if there is one.
fn push_row(rows: &mut SampleCollector, row: Option<Sample>)
    requires { 1 ≤ rows.old.room }
    ensures list { rows.new.list ≡ rows.old.list ++ one_of row }
    ensures room { rows.old.room ≤ rows.new.room + 1 }
{
    if let Some(row) = row {
        rows.sample(&row);
    }
}

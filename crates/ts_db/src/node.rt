// A key and its series.
ghost use Rattle.std.specs.Prelude.{◌≡◌, ◌<◌, ◌-◌, ◌^◌, ◌==◌, not, filter, [], None, IfOk, IfErr};
ghost use Rattle.std.specs.Option.{unwrap_or};
ghost use Rattle.ts_spec.specs.Step.{is_longer};
ghost use Rattle.ts_spec.specs.Aggregate.{nothing};
ghost use Rattle.ts_spec.specs.Key.{Key};
ghost use Rattle.ts_series.specs.History.{IsKept};
ghost use Rattle.ts_rules.specs.Rules.{stored_rule_for};
ghost use Rattle.ts_db.specs.Linking.{has_rule_to, HasOneMoreRule, HasRules, IsRuleConflict};
ghost use Rattle.ts_db.specs.Restorable.{PushesRule};

use crate::fault::DbFault;
use std::alloc::{AllocError, Global};
use std::mem;
use ts_agg::Running;
use ts_bucket::Grid;
use ts_labels::Labels;
use ts_resp::Word;
use ts_rules::Rule;
use ts_sample::Id;
use ts_series::Series;
use ts_spec::{Aggregator, Limits};

// A key with its series, its labels, its rules in order of creation, and the id of its rule source, if it is a
// destination.
#[derive(Drop)]
pub(crate) struct Node {
    pub(crate) key: Word,
    pub(crate) series: Series,
    pub(crate) labels: Labels,
    pub(crate) rules: Vec<Rule>,
    pub(crate) source: Option<Id>,
}

impl Node {
    // Replaces the labels and the rules that are given.
    pub(crate) fn change(&mut self, labels: Option<Labels>, rules: Option<Vec<Rule>>)
        ensures { self.new ≡ record
            self.old { labels = unwrap_or labels self.old.labels; rules = unwrap_or rules self.old.rules } }
    {
        if let Some(labels) = labels {
            self.labels = labels;
        }
        if let Some(rules) = rules {
            self.rules = rules;
        }
    }

    // Adds a rule and counts it among the rules made so far.
    pub(crate) fn add_rule(
        &mut self,
        dest: Id,
        agg: Aggregator,
        grid: Grid,
    ) -> Result<(), AllocError>
        requires { self.old.series.born < 2 ^ 32 - 1 }
        ensures added { IfOk result (λ _. HasOneMoreRule dest agg grid self.old self.new) }
        ensures kept { IfOk result (λ _. IsKept self.new.series) }
        ensures unchanged { IfErr result (λ _. HasRules self.old.rules.items self.old self.new) }
    {
        self.rules.reserve(1)?;
        let made = self.series.born() + 1;
        self.rules.push_reserved(begun(dest, agg, grid, made));
        self.series.raise_born();
        Ok(())
    }

    // Adds a rule that is already counted among the rules made so far.
    pub(crate) fn push_rule(&mut self, rule: Rule) -> Result<(), AllocError>
        ensures { PushesRule rule result self.old self.new }
    {
        self.rules.push(rule)?;
        Ok(())
    }

    // Whether there is a rule to series `dest`.
    pub(crate) fn has_rule(&self, dest: Id) -> bool
        ensures { result ≡ has_rule_to dest.0 self.now.rules.items }
    {
        self.rules.iter().any(|rule| rule.dest.0 == dest.0)
    }

    // Deletes the rule to series `dest`.
    pub(crate) fn remove_rule(&mut self, dest: Id)
        ensures { HasRules (filter (λ r. not (r.dest.0 == dest.0)) self.old.rules.items) self.old self.new }
    {
        self.rules.retain(|rule| rule.dest.0 != dest.0);
    }

    // Moves all rules out.
    pub(crate) fn take_rules(&mut self, alloc: Global) -> Vec<Rule>
        ensures rules { result.items ≡ self.old.rules.items }
        ensures none { HasRules [] self.old self.new }
    {
        mem::replace(&mut self.rules, Vec::new(alloc))
    }
}

// Whether the given labels, if any, exceed the limit.
pub(crate) fn are_too_many(limit: u32, labels: &Option<Labels>) -> bool
    ensures { result ≡ is_longer limit labels.now }
{
    match labels {
        None => false,
        Some(labels) => (limit as usize) < labels.len(),
    }
}

// Lists all fields: adding one, such as a copy of the samples, does not compile.
fn fields(it: &Node) {
    let Node {
        key: _,
        series: _,
        labels: _,
        rules: _,
        source: _,
    } = it;
}

// A rule that has counted no samples yet.
fn begun(dest: Id, agg: Aggregator, grid: Grid, made: u32) -> Rule
    ensures leads { result.dest ≡ dest }
    ensures begun { (k : Key) → stored_rule_for k result
        ≡ record { dest = k; agg = agg; grid = grid; made = made; current = None; running = nothing } }
{
    Rule {
        dest,
        agg,
        grid,
        made,
        current: None,
        running: Running::new(),
    }
}

// Why a rule from `source` to `dest` is not allowed, or `None` if it is.
pub(crate) fn rule_conflict(limits: &Limits, source: &Node, dest: &Node) -> Option<DbFault>
    ensures { IsRuleConflict limits.now source.now dest.now result }
{
    if source.source.is_some() {
        Some(DbFault::SourceIsDest)
    } else if !dest.rules.is_empty() {
        Some(DbFault::DestIsSource)
    } else if dest.source.is_some() {
        Some(DbFault::DestHasSource)
    } else if limits.born <= source.series.born() {
        Some(DbFault::RulesSpent)
    } else if limits.rules as usize <= source.rules.len() {
        Some(DbFault::RulesFull)
    } else {
        None
    }
}

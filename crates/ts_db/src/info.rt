// The facts about a series that TS.INFO reports.
ghost use Rattle.std.specs.Prelude.{◌≡◌, map, option_map, Some, IfOk, ◌*◌};
ghost use Rattle.ts_spec.specs.StoredQueries.{stored_rule_info, stored_info_response};
ghost use Rattle.ts_spec.specs.Queries.{time_or_0};
ghost use Rattle.ts_spec.specs.Response.{KeyInfo};
ghost use Rattle.ts_sample.specs.Steps.{Takes};
ghost use Rattle.ts_series.specs.History.{reach};
ghost use Rattle.ts_rules.specs.Rules.{stored_rule_for};
ghost use Rattle.ts_db.specs.Information.{rule_info_of, info_of};
ghost use Rattle.ts_db.specs.Store.{rules_by, key_in, stored_node, HasNode, AreLive, IsLiveSource, HasLiveLinks};
ghost use Rattle.ts_db.specs.Store.{IsInOrder};

use crate::node::Node;
use crate::store::Store;
use std::alloc::AllocError;
use std::sync::ledger::Ledger;
use ts_bucket::Grid;
use ts_labels::Labels;
use ts_resp::Word;
use ts_rules::Rule;
use ts_sample::{Id, Sample, Steps};
use ts_spec::{Aggregator, Options};

/// What TS.INFO reports about a series.
#[derive(Drop)]
pub struct Info {
    /// The number of samples.
    pub total: u64,
    /// The first sample's time in milliseconds; 0 if there is none.
    pub first: u64,
    /// The last sample's time in milliseconds; 0 if there is none.
    pub last: u64,
    pub options: Options,
    pub labels: Labels,
    /// The source of the rule whose destination this series is.
    pub source: Option<Word>,
    /// The rules from this series, in order of creation.
    pub rules: Vec<RuleInfo>,
}

/// What TS.INFO reports about a rule.
#[derive(Drop)]
pub struct RuleInfo {
    pub dest: Word,
    pub grid: Grid,
    pub agg: Aggregator,
}

impl Store {
    // The facts about the series of a node.
    pub(crate) fn info_of<L: Ledger>(
        &self,
        node: &Node,
        steps: &mut Steps<L>,
    ) -> Result<Info, AllocError>
        requires store { IsInOrder self.now }
        requires links { HasLiveLinks self.now.nodes node.now }
        ensures info { IfOk result (λ info. KeyInfo (info_of info)
            ≡ stored_info_response (Some (stored_node self.now.nodes node.now))) }
        ensures steps { Takes steps.old steps.new (2 * reach node.now.series) }
    {
        let first = node.series.first(steps);
        let last = node.series.last();
        Ok(Info {
            total: node.series.len(steps) as u64,
            first: time_or_0(first),
            last: time_or_0(last),
            options: node.series.options(),
            labels: node.labels.copy()?,
            source: self.source_key(node.source)?,
            rules: self.rule_infos(&node.rules)?,
        })
    }

    // A copy of the source's key, if there is a source.
    fn source_key(&self, source: Option<Id>) -> Result<Option<Word>, AllocError>
        requires store { IsInOrder self.now }
        requires live { IsLiveSource self.now.nodes source }
        ensures { IfOk result (λ key. key ≡ option_map (key_in self.now.nodes) source) }
    {
        match source {
            None => Ok(None),
            Some(id) => Ok(Some(self.copied_key(id)?)),
        }
    }

    // The facts about the rules, in order.
    fn rule_infos(&self, rules: &[Rule]) -> Result<Vec<RuleInfo>, AllocError>
        requires store { IsInOrder self.now }
        requires live { AreLive self.now.nodes rules.now }
        ensures { IfOk result (λ infos. map rule_info_of infos.items
            ≡ map stored_rule_info (rules_by (key_in self.now.nodes) rules.now)) }
    {
        let mut infos = Vec::with_capacity(self.alloc, rules.len())?;
        for rule in rules {
            infos.push_reserved(self.rule_info(rule)?);
        }
        Ok(infos)
    }

    // The facts about a rule.
    fn rule_info(&self, rule: &Rule) -> Result<RuleInfo, AllocError>
        requires store { IsInOrder self.now }
        requires live { HasNode self.now.nodes rule.now.dest }
        ensures { IfOk result (λ info. rule_info_of info
            ≡ stored_rule_info (stored_rule_for (key_in self.now.nodes rule.now.dest) rule.now)) }
    {
        Ok(RuleInfo {
            dest: self.copied_key(rule.dest)?,
            grid: rule.grid,
            agg: rule.agg,
        })
    }

    // A copy of the key of series `id`.
    fn copied_key(&self, id: Id) -> Result<Word, AllocError>
        requires store { IsInOrder self.now }
        requires live { HasNode self.now.nodes id }
        ensures { IfOk result (λ key. key ≡ key_in self.now.nodes id) }
    {
        self.nodes.node(id).key.copy()
    }
}

// The sample's time in milliseconds; 0 if there is none.
fn time_or_0(sample: Option<Sample>) -> u64
    ensures { result ≡ time_or_0 sample }
{
    match sample {
        None => 0,
        Some(sample) => sample.time,
    }
}

// Changes of a single node. Only `alter` changes labels.
ghost use Rattle.std.specs.Prelude.{◌≡◌, ◌<◌, ◌-◌, ◌^◌, ◌==◌, [], not, filter, None, Some, IfOk, OnOk, OnErr};
ghost use Rattle.std.specs.Option.{unwrap_or};
ghost use Rattle.slab.specs.Slab as slab;
ghost use Rattle.ts_index.specs.Index.{Relabels, labels_of};
ghost use Rattle.ts_series.specs.Plan.{IsFor};
ghost use Rattle.ts_db.specs.declared.node.Node.{Node as TheNode};
ghost use Rattle.ts_db.specs.OpenAppend.{CanCountOneMore};
ghost use Rattle.ts_db.specs.Linking.{HasRules};
ghost use Rattle.ts_db.specs.NodeChanges.{HasNodeWhere, IsNodeChanged, IsAfter, IsOpenAppended, AddsRule};
ghost use Rattle.ts_db.specs.Restorable.{PushesRule};

use crate::nodes::Nodes;
use crate::open_append::count_in_all;
use std::alloc::{AllocError, Global};
use ts_bucket::Grid;
use ts_index::Index;
use ts_labels::Labels;
use ts_rules::Rule;
use ts_sample::{Id, Sample};
use ts_series::{Append, SeriesPlan};
use ts_spec::Aggregator;

impl Nodes {
    // Commits a plan for a series and replaces its rules if given.
    pub(crate) fn apply(&mut self, id: Id, plan: SeriesPlan, rules: Option<Vec<Rule>>)
        requires { HasNodeWhere self.old id (λ n. IsFor plan n.series) }
        ensures { IsNodeChanged self.old self.new id (IsAfter plan None rules) }
    {
        let node = &mut self.slab[id.0];
        node.series.commit(plan);
        node.change(None, rules);
    }

    // Commits a plan for a series and replaces its labels if given. Out of memory leaves everything unchanged.
    pub(crate) fn alter(
        &mut self,
        id: Id,
        plan: SeriesPlan,
        labels: Option<Labels>,
    ) -> Result<(), AllocError>
        requires { HasNodeWhere self.old id (λ n. IsFor plan n.series) }
        ensures altered { IfOk result (λ _. IsNodeChanged self.old self.new id (IsAfter plan labels None)) }
        ensures unchanged { OnErr result (self.new ≡ self.old) }
    {
        replace_labels(&mut self.index, id, &self.slab[id.0].labels, &labels)?;
        let node = &mut self.slab[id.0];
        node.series.commit(plan);
        node.change(labels, None);
        Ok(())
    }

    // Commits an append and counts the sample in the open bucket of each rule.
    pub(crate) fn append_open(&mut self, id: Id, plan: Append, wrote: &Sample)
        requires ready { HasNodeWhere self.old id (λ n. IsFor plan n.series) }
        requires room { (n : TheNode) → slab.get self.old id.0 ≡ Some n → CanCountOneMore n.rules.items }
        ensures { IsNodeChanged self.old self.new id (IsOpenAppended plan wrote.now) }
    {
        let node = &mut self.slab[id.0];
        node.series.commit_append(plan);
        count_in_all(&mut node.rules, wrote);
    }

    // Adds a rule.
    pub(crate) fn add_rule(
        &mut self,
        id: Id,
        dest: Id,
        agg: Aggregator,
        grid: Grid,
    ) -> Result<(), AllocError>
        requires { HasNodeWhere self.old id (λ n. n.series.born < 2 ^ 32 - 1) }
        ensures { IsNodeChanged self.old self.new id (AddsRule dest agg grid result) }
    {
        let node = &mut self.slab[id.0];
        node.add_rule(dest, agg, grid)
    }

    // Adds a rule that is already counted among the rules made so far.
    pub(crate) fn push_rule(&mut self, id: Id, rule: Rule) -> Result<(), AllocError>
        requires { slab.ContainsKey self.old id.0 }
        ensures { IsNodeChanged self.old self.new id (PushesRule rule result) }
    {
        let node = &mut self.slab[id.0];
        node.push_rule(rule)
    }

    // Deletes the rule to `dest`.
    pub(crate) fn remove_rule(&mut self, id: Id, dest: Id)
        requires { slab.ContainsKey self.old id.0 }
        ensures { IsNodeChanged self.old self.new id
            (λ n m. HasRules (filter (λ r. not (r.dest.0 == dest.0)) n.rules.items) n m) }
    {
        let node = &mut self.slab[id.0];
        node.remove_rule(dest);
    }

    // Moves all rules out.
    pub(crate) fn take_rules(&mut self, id: Id, alloc: Global) -> Vec<Rule>
        requires { slab.ContainsKey self.old id.0 }
        ensures { IsNodeChanged self.old self.new id (λ n m. (result.items ≡ n.rules.items) × HasRules [] n m) }
    {
        let node = &mut self.slab[id.0];
        node.take_rules(alloc)
    }

    // Sets or clears the rule source.
    pub(crate) fn set_source(&mut self, id: Id, source: Option<Id>)
        requires { slab.ContainsKey self.old id.0 }
        ensures { IsNodeChanged self.old self.new id (λ n m. m ≡ record n { source = source }) }
    {
        let node = &mut self.slab[id.0];
        node.source = source;
    }
}

// Replaces the labels of an id in the index if new ones are given.
fn replace_labels(
    index: &mut Index,
    id: Id,
    old: &Labels,
    new: &Option<Labels>,
) -> Result<(), AllocError>
    requires { labels_of id.0 index.old ≡ Some old.now }
    ensures ok { OnOk result (Relabels id (Some (unwrap_or new.now old.now)) index.old index.new) }
    ensures err { OnErr result (index.new ≡ index.old) }
{
    match new {
        Some(new) => index.replace(id, old, new),
        None => Ok(()),
    }
}

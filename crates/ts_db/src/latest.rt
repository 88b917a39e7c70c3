// The row of a destination's open bucket, which LATEST adds to its samples.
ghost use Rattle.std.specs.Prelude.{◌≡◌, true, [], Some};
ghost use Rattle.ts_spec.specs.Key.{Key};
ghost use Rattle.ts_spec.specs.Keyed.{get};
ghost use Rattle.ts_spec.specs.StoredQueries.{stored_asked, open_row};
ghost use Rattle.ts_spec.specs.StoredStep.{list_at};
ghost use Rattle.ts_spec.specs.Sample.{put_all};
ghost use Rattle.ts_series.specs.History.{list_of, low};
ghost use Rattle.ts_rules.specs.Rules.{stored_rule_for, one_of};
ghost use Rattle.ts_db.specs.declared.node.Node.{Node as TheNode};
ghost use Rattle.ts_db.specs.DbState.{IsLive};
ghost use Rattle.ts_db.specs.Latest.{rule_among};
ghost use Rattle.ts_db.specs.Store.{Shows};

use crate::db::Db;
use ts_rules::{Rule, latest};
use ts_sample::{Id, Sample};
use ts_series::Series;

impl Db {
    // The row of the open bucket of the rule to series `id`, if `latest` asks for it. It replaces a sample at the same
    // time.
    pub(crate) fn requested_row(&self, id: Id, latest: bool) -> Option<Sample>
        requires { IsLive self.now.ids id }
        ensures { (key : Key) (n : TheNode) → get key self.now.ids ≡ Some id → Shows self.now key n
            → stored_asked self.now.keys latest key ≡ put_all (one_of result) (list_of n.series) }
    {
        if latest { self.latest_row(id) } else { None }
    }

    // The row of the open bucket of the rule to series `id`, if there is one.
    fn latest_row(&self, id: Id) -> Option<Sample>
        requires { IsLive self.now.ids id }
        ensures { (key : Key) → get key self.now.ids ≡ Some id
            → stored_asked self.now.keys true key ≡ put_all (one_of result) (list_at (get key self.now.keys)) }
    {
        let node = self.store.nodes.node(id);
        let source = self.store.nodes.node(node.source?);
        let rule = rule_to(&source.rules, id)?;
        row_for(&rule, &node.series)
    }
}

// The rule to series `id`.
fn rule_to(rules: &[Rule], id: Id) -> Option<Rule>
    ensures { result ≡ rule_among id.0 rules.now }
{
    for rule in rules {
        if rule.dest == id {
            return Some(*rule);
        }
    }
    None
}

// The row of the rule's open bucket. `None` if it is before the destination's retention edge.
fn row_for(rule: &Rule, dest: &Series) -> Option<Sample>
    ensures { one_of result ≡ open_row (low dest.now) dest.now.born (stored_rule_for [] rule.now) rule.now.current }
{
    let row = latest(rule, dest.born())?;
    if row.time < dest.edge() {
        return None;
    }
    Some(row)
}

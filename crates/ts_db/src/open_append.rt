// The fast path of a write: an append inside the open buckets of all rules, which changes no destination.
ghost use Rattle.std.specs.Prelude.{◌≡◌, IsTrue};
ghost use Rattle.ts_spec.specs.Keyed.{with_key};
ghost use Rattle.ts_spec.specs.Key.{Key};
ghost use Rattle.ts_db.specs.declared.node.Node.{Node as TheNode};
ghost use Rattle.ts_db.specs.Answering.{IsReady, IsElsewhere};
ghost use Rattle.ts_db.specs.Planning.{AreChanged};
ghost use Rattle.ts_db.specs.OpenAppend.{counted_once_more, AreOpenAt, StaysOpen, CanCountOneMore, stored_open_append};
ghost use Rattle.ts_db.specs.Store.{db_view_of, contents_of, IsInOrder, Holds};

use crate::store::Store;
use ts_rules::Rule;
use ts_sample::{Id, Sample};
use ts_series::{Append, Series};

impl Store {
    // Appends a sample and counts it in the open bucket of each rule. Can't fail and allocates nothing.
    pub(crate) fn append_open(&mut self, id: Id, plan: Append, wrote: &Sample)
        requires store { IsInOrder self.old }
        requires ready { IsReady self.old id plan None None }
        requires room { (key : Key) (n : TheNode) → Holds self.old key id n → CanCountOneMore n.rules.items }
        ensures store { IsInOrder self.new }
        ensures counted_once_more { (key : Key) (n : TheNode) → Holds self.old key id n
            → contents_of self.new
            ≡ record (contents_of self.old) {
              keys = with_key key (stored_open_append self.old.nodes plan wrote.now n) (db_view_of self.old).keys;
            } }
        ensures elsewhere { IsElsewhere self.old self.new id }
    {
        self.nodes.append_open(id, plan, wrote);
    }
}

// Counts a sample in the open bucket of each rule.
pub(crate) fn count_in_all(rules: &mut Vec<Rule>, wrote: &Sample)
    requires { CanCountOneMore rules.old.items }
    ensures { AreChanged (counted_once_more wrote.now) rules.old.items rules.new.items }
{
    for rule in rules.iter_mut() {
        rule.running.push(wrote);
    }
}

// Whether the sample is an append and falls into the open bucket of each rule.
pub(crate) fn stays_open(rules: &[Rule], source: &Series, wrote: &Sample) -> bool
    ensures { IsTrue result → StaysOpen source.now wrote.now rules.now }
{
    match source.high() {
        Some(high) if wrote.time <= high => false,
        _ => are_open_at(rules, wrote),
    }
}

// Whether the sample falls into the open bucket of each rule.
fn are_open_at(rules: &[Rule], wrote: &Sample) -> bool
    ensures { IsTrue result → AreOpenAt wrote.now rules.now }
{
    for rule in rules {
        if rule.current != Some(rule.grid.start_of(wrote.time)) {
            return false;
        }
    }
    true
}

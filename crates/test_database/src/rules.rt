// A rule that sums buckets of ten milliseconds: what a change of its source means for it and its destination.
ghost use Rattle.std.specs.Prelude.{◌≡◌, ◌≤◌, length, is_some, true, IfOk, IfSome};
ghost use Rattle.ts_series.specs.History.{list_of};
ghost use Rattle.ts_rules.specs.Plans.{IsForDest};

use crate::open_bucket::OpenBucket;
use crate::texts::{fault_text, last_text, pair_of, sample_of, samples_text};
use crate::writes::{count_rule, empty, write_all};
use std::alloc::Global;
use std::io;
use std::sync::ledger::Ledger;
use test_script::{Device, silent};
use ts_agg::Aggregator;
use ts_bucket::Grid;
use ts_rules::{Rule, RuleFault, RulePlan, latest, plan_delete, plan_put};
use ts_sample::{Id, MAX_TIME, SampleCollector, Steps};
use ts_series::{Series, SeriesPlan};

/// `Rule 4`: the destination may have four samples. Both series have none, and no bucket is open.
#[derive(Drop)]
pub(crate) struct RuleCalls<L: Ledger> {
    alloc: Global,
    source: Series,
    dest: Series,
    open: OpenBucket,
    limit: u32,
    steps: Steps<L>,
}

// `earlier 1:5`, `source 2:6` and `dest 0:11` write samples: in the source before the rule is created and after, and in
// the destination. `open 10 5 6` is the start of the open bucket and the values that it counts. `write 3:4` and
// `delete 1 2` change the source. The answer is what the destination then has, its latest row, and its id in the rule.
impl<L: Ledger> Device for RuleCalls<L> {
    fn answer(&mut self, alloc: Global, verb: &str, text: &str) -> io::Result<Option<String>> {
        match verb {
            "earlier" => write_all(alloc, &mut self.source, text, &mut self.steps),
            "source" => {
                count_rule(&mut self.source);
                write_all(alloc, &mut self.source, text, &mut self.steps)
            }
            "dest" => write_all(alloc, &mut self.dest, text, &mut self.steps),
            "open" => {
                self.open = OpenBucket::of(alloc, text)?;
                silent(alloc)
            }
            "write" => self.write(text),
            "delete" => self.delete(text),
            _ => Ok(None),
        }
    }
}

impl<L: Ledger> RuleCalls<L> {
    pub(crate) fn new(alloc: Global, limit: u32, steps: Steps<L>) -> Self {
        RuleCalls {
            alloc,
            source: empty(alloc),
            dest: empty(alloc),
            open: OpenBucket::none(alloc),
            limit,
            steps,
        }
    }

    // The rule, if the destination is within its limit.
    fn rule(&mut self) -> Option<Rule>
        ensures limit { is_some result ≡ true → length (list_of self.new.dest) ≤ self.new.limit }
        ensures count { IfSome result (λ rule. rule.running.count ≤ 100) }
    {
        count_rule(&mut self.source);
        if self.dest.len(&mut self.steps) > self.limit as usize {
            return None;
        }
        rule_with(&self.open)
    }

    fn write(&mut self, text: &str) -> io::Result<Option<String>> {
        let (Some(rule), Some(sample)) = (self.rule(), sample_of(text)) else {
            return Ok(None);
        };
        let (source, dest, limit) = (&self.source, &self.dest, self.limit);
        let planned = plan_put(&rule, source, &sample, dest, limit, &mut self.steps);
        self.carry_out(planned)
    }

    fn delete(&mut self, text: &str) -> io::Result<Option<String>> {
        let (Some(rule), Some((from, to))) = (self.rule(), pair_of(text)) else {
            return Ok(None);
        };
        let (source, dest, limit) = (&self.source, &self.dest, self.limit);
        let steps = &mut self.steps;
        let planned = plan_delete(self.alloc, &rule, source, from, to, dest, limit, steps);
        self.carry_out(planned)
    }

    fn carry_out(&mut self, planned: Result<RulePlan, RuleFault>) -> io::Result<Option<String>>
        requires { IfOk planned (λ plan. IsForDest plan.dest self.old.dest) }
    {
        match planned {
            Ok(RulePlan { rule, dest }) => {
                commit(&mut self.dest, dest);
                self.shown(&rule)
            }
            Err(fault) => fault_text(self.alloc, &fault),
        }
    }

    fn shown(&mut self, rule: &Rule) -> io::Result<Option<String>> {
        let room = self.dest.room_for(0, MAX_TIME);
        let mut gathered = SampleCollector::with_reserved(self.alloc, room)?;
        self.dest.scan(0, MAX_TIME, &mut gathered, &mut self.steps);
        let samples = samples_text(self.alloc, &gathered.into_samples())?;
        let latest = last_text(self.alloc, latest(rule, self.dest.born()))?;
        let id = rule.dest.0;
        Ok(Some(format!(in self.alloc; "{samples}, latest {latest}, into {id}")?))
    }
}

fn rule_with(open: &OpenBucket) -> Option<Rule>
    ensures { IfSome result (λ rule. rule.running.count ≤ 100) }
{
    Some(Rule {
        dest: Id(7),
        agg: Aggregator::Sum,
        grid: Grid::new(0, 10)?,
        made: 1,
        current: open.start(),
        running: open.running()?,
    })
}

fn commit(dest: &mut Series, plan: Option<SeriesPlan>)
    requires { IsForDest plan dest.old }
{
    if let Some(plan) = plan {
        dest.commit(plan);
    }
}

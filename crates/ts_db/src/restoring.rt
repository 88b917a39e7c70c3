// Restores series and rules from a checkpoint.
ghost use Rattle.std.specs.Prelude.{◌≡◌, ◌≤◌, true, false};
ghost use Rattle.std.specs.Option.{ForSome};
ghost use Rattle.ts_spec.specs.Sample.{MAX_TIME};
ghost use Rattle.ts_restore.specs.Summaries.{IsShortSummary};
ghost use Rattle.ts_restore.specs.Restorable.{IsNewSeries, IsNewRule};
ghost use Rattle.ts_restore.specs.Restored.{keys_with_series, keys_with_rule, with_series, with_restored_rule};
ghost use Rattle.ts_sample.specs.Steps.{Takes};
ghost use Rattle.ts_series.specs.History.{reach, IsKept};
ghost use Rattle.ts_db.specs.Restoring.{part_of_series, part_of_rule, Restores, restored_rule_steps};

use crate::db::Db;
use std::alloc::AllocError;
use std::sync::ledger::Ledger;
use ts_agg::Running;
use ts_bucket::Grid;
use ts_labels::Labels;
use ts_resp::Word;
use ts_sample::Steps;
use ts_series::Series;
use ts_spec::Aggregator;

/// A rule of a checkpoint, without its keys.
#[derive(Clone, Copy, Debug, PartialEq, Eq)]
pub struct RestoredRule {
    pub agg: Aggregator,
    pub grid: Grid,
    /// The source's rule count once this rule was created.
    pub made: u32,
    /// The start of the open bucket, in milliseconds.
    pub current: Option<u64>,
    /// The running aggregate of the open bucket.
    pub running: Running,
}

impl Db {
    /// Adds a series from a checkpoint under a new key, without rules. Returns whether it did: the key must be new, and
    /// the series and its labels within the limits. Counts the samples of one chunk at most.
    pub fn restore_series<L: Ledger>(
        &mut self,
        key: Word,
        series: Series,
        labels: Labels,
        steps: &mut Steps<L>,
    ) -> Result<bool, AllocError>
        requires { IsKept series }
        ensures valid { result ≡ Ok true
            → IsNewSeries self.old.limits self.old.keys (part_of_series key labels series) }
        ensures restored { result ≡ Ok true
            → self.new.keys ≡ keys_with_series (part_of_series key labels series) self.old.keys }
        ensures refused { result ≡ Ok false
            → IsNewSeries self.old.limits self.old.keys (part_of_series key labels series) → ⊥ }
        ensures unchanged { (result ≡ Ok true → ⊥) → self.new ≡ self.old }
        ensures each { Restores self.old (with_series (part_of_series key labels series)) result self.new }
        ensures limits { self.new.limits ≡ self.old.limits }
        ensures steps { Takes steps.old steps.new (reach series) }
    {
        ts_restore::restored_parts_are_represented();
        self.store.restore_series(key, series, labels, steps)
    }

    /// Adds a rule from a checkpoint between two existing keys. Returns whether it did: the rule and both series must
    /// be ones that commands could have led to. It does not count among the rules created on the source, which the
    /// source's count already includes.
    ///
    /// Decodes the samples of the source from the end of the open bucket's counted samples on, and all of them if no
    /// bucket is open.
    pub fn restore_rule<L: Ledger>(
        &mut self,
        source: &Word,
        dest: &Word,
        rule: RestoredRule,
        steps: &mut Steps<L>,
    ) -> Result<bool, AllocError>
        requires time { ForSome rule.current (λ b. b ≤ MAX_TIME) }
        requires summary { IsShortSummary rule.running }
        ensures valid { result ≡ Ok true
            → IsNewRule self.old.limits self.old.keys (part_of_rule source.now dest.now rule) }
        ensures restored { result ≡ Ok true
            → self.new.keys ≡ keys_with_rule (part_of_rule source.now dest.now rule) self.old.keys }
        ensures refused { result ≡ Ok false
            → IsNewRule self.old.limits self.old.keys (part_of_rule source.now dest.now rule) → ⊥ }
        ensures unchanged { (result ≡ Ok true → ⊥) → self.new ≡ self.old }
        ensures each { Restores self.old (with_restored_rule (part_of_rule source.now dest.now rule)) result self.new }
        ensures limits { self.new.limits ≡ self.old.limits }
        ensures steps { Takes steps.old steps.new (restored_rule_steps self.old source.now) }
    {
        ts_restore::restored_parts_are_represented();
        self.store.restore_rule(source, dest, rule, steps)
    }
}

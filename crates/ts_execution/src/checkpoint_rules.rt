// Writes the records of rules.
ghost use Rattle.std.specs.Prelude.{◌≡◌, [], ◌∷◌, map, OnOk};
ghost use Rattle.ts_spec.specs.Keyed.{Entry};
ghost use Rattle.ts_spec.specs.StoredSeries.{StoredSeries};
ghost use Rattle.ts_restore.specs.Checkpoint.{parts_from, rule_parts};
ghost use Rattle.ts_rules.specs.Rules.{stored_rule_for};
ghost use Rattle.ts_db.specs.DbState.{AreIdsOf, IsLive};
ghost use Rattle.ts_db.specs.Faults.{key_of_id};
ghost use Rattle.ts_db.specs.Restoring.{keys_in_order};
ghost use Rattle.ts_checkpoint.specs.Parts as parts;
ghost use Rattle.ts_execution.specs.Checkpoints.{Written, OnlyDrafts, log_state, IsEntry};

use crate::checkpoint::CheckpointFault;
use crate::checkpoint_records::RecordWriter;
use ts_checkpoint::{RuleRecord, rule_reads_back, rule_record};
use ts_db::{Db, Id, Rule};
use ts_io::Log;
use ts_resp::Word;

impl RecordWriter {
    // Writes the records of the rules of all series, in the order of the keys of their sources.
    pub(crate) fn write_all_rules<J: Log>(
        &mut self,
        log: &mut J,
        db: &Db,
        ids: &[Id],
    ) -> Result<(), CheckpointFault>
        requires { AreIdsOf db.now.ids (keys_in_order db.now.keys) ids.now }
        ensures written { OnOk result (Written self.old.limits (J.drafted log.old) (J.drafted log.new)
            (map parts.Rule (rule_parts db.now.keys.entries))) }
        ensures drafts { OnlyDrafts (log_state J.content J.place J.faults log.old)
            (log_state J.content J.place J.faults log.new) result }
        ensures limits { self.new.limits ≡ self.old.limits }
    {
        for id in ids {
            self.write_rules(log, db, *id)?;
        }
        Ok(())
    }

    // Writes the records of the rules of a series, in the order of their creation.
    fn write_rules<J: Log>(&mut self, log: &mut J, db: &Db, id: Id) -> Result<(), CheckpointFault>
        requires { IsLive db.now.ids id }
        ensures written { OnOk result ((e : Entry StoredSeries) → IsEntry db.now id e
            → Written self.old.limits (J.drafted log.old) (J.drafted log.new)
            (map parts.Rule (parts_from e.key e.value.rules))) }
        ensures drafts { OnlyDrafts (log_state J.content J.place J.faults log.old)
            (log_state J.content J.place J.faults log.new) result }
        ensures limits { self.new.limits ≡ self.old.limits }
    {
        let source = db.key_of(id);
        for rule in db.rules_of(id) {
            self.write_rule(log, db, source, rule)?;
        }
        Ok(())
    }

    // Writes the record of a rule of this source.
    fn write_rule<J: Log>(
        &mut self,
        log: &mut J,
        db: &Db,
        source: &Word,
        rule: &Rule,
    ) -> Result<(), CheckpointFault>
        requires { IsLive db.now.ids rule.now.dest }
        ensures written { OnOk result (Written self.old.limits (J.drafted log.old) (J.drafted log.new)
            (parts.Rule (record {
              source = source.now;
              rule = stored_rule_for (key_of_id db.now.ids rule.now.dest) rule.now;
            }) ∷ [])) }
        ensures drafts { OnlyDrafts (log_state J.content J.place J.faults log.old)
            (log_state J.content J.place J.faults log.new) result }
        ensures limits { self.new.limits ≡ self.old.limits }
    {
        let record = RuleRecord {
            source: source.copy()?,
            dest: db.key_of(rule.dest).copy()?,
            agg: rule.agg,
            grid: rule.grid,
            made: rule.made,
            current: rule.current,
            running: rule.running.parts(),
        };
        if !rule_reads_back(&record) {
            return Err(CheckpointFault::Memory);
        }
        let words = rule_record(self.alloc, &record)?;
        self.write(log, &words)
    }
}

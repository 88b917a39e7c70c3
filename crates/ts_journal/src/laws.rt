//! Laws of records, each on a function with an empty body.

ghost use Rattle.std.specs.Prelude.{◌≡◌, ℕ, [], Ok};
ghost use Rattle.ts_spec.specs.declared.limits.Limits.{Limits};
ghost use Rattle.ts_spec.specs.Command.{Command};
ghost use Rattle.ts_spec.specs.Grammar.{command};
ghost use Rattle.ts_spec.specs.Replies.{reply_to};
ghost use Rattle.ts_spec.specs.ResolvedCommands.{resolved};
ghost use Rattle.ts_spec.specs.State.{State};
ghost use Rattle.ts_spec.specs.Step.{step};
ghost use Rattle.ts_spec.specs.Text.{Reply};
ghost use Rattle.ts_journal.specs.Record.{record_words, record_of, accepted};
ghost use Rattle.ts_journal.specs.RecordReplay.{IsDone, IsRecorded, IsAccepted};

/// A law: a record reads back as its command. If a command was executed and has a record, the record parses as that
/// command with its times resolved; for TS.MADD, with the accepted triples only. Executing it from the state before
/// leads to the state after, whatever the clock reads, and its reply has no error.
pub fn records_read_back()
    ensures words { (limits : Limits) (reading : ℕ) (c : Command) (old new : State) (reply : Reply)
        → IsRecorded limits reading c old reply new
        → command (record_words reading (accepted c reply)) ≡ Ok (resolved reading (accepted c reply)) }
    ensures state { (limits : Limits) (reading : ℕ) (c : Command) (old new : State) (reply : Reply)
        → IsRecorded limits reading c old reply new
        → (other : ℕ) → (step limits old other (resolved reading (accepted c reply))).state ≡ new }
    ensures reply { (limits : Limits) (reading : ℕ) (c : Command) (old new : State) (reply : Reply)
        → IsRecorded limits reading c old reply new
        → (other : ℕ) → IsAccepted (reply_to (step limits old other (resolved reading (accepted c reply))).response) }
{}

/// A law: a step of the definitions is one way to execute a command.
pub fn steps_are_executed()
    ensures { (limits : Limits) (reading : ℕ) (c : Command) (m : State)
        → IsDone limits reading c m (reply_to (step limits m reading c).response) (step limits m reading c).state }
{}

/// A law: a command that was executed and has no record changed nothing. It failed, or is not a change, or is a TS.MADD
/// of which no triple was accepted.
pub fn what_is_not_recorded_changes_nothing()
    ensures { (limits : Limits) (reading : ℕ) (c : Command) (old new : State) (reply : Reply)
        → IsDone limits reading c old reply new
        → record_of c reading reply ≡ [] → new ≡ old }
{}

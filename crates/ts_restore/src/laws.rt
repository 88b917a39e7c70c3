//! Laws of checkpoints, each stated on a function with an empty body.

ghost use Rattle.std.specs.Prelude.{◌≡◌, ◌≢◌, ℕ, ◌<◌, ◌≤◌, List, ◌∷◌, ◌++◌};
ghost use Rattle.ts_spec.specs.declared.limits.Limits.{Limits};
ghost use Rattle.ts_spec.specs.Command.{Command};
ghost use Rattle.ts_spec.specs.Represents.{RepresentsState, AllHaveDurations};
ghost use Rattle.ts_spec.specs.State.{State};
ghost use Rattle.ts_spec.specs.Step.{step};
ghost use Rattle.ts_spec.specs.StoredSeries.{StoredKeys, kept};
ghost use Rattle.ts_spec.specs.Valid.{IsValid};
ghost use Rattle.ts_restore.specs.CheckNumber.{check_number};
ghost use Rattle.ts_restore.specs.Checkpoint.{SeriesPart, RulePart, Checkpoint, checkpoint_of};
ghost use Rattle.ts_restore.specs.Restored.{keys_with_series, keys_with_rule, keys_of};
ghost use Rattle.ts_restore.specs.Restored.{with_series, with_restored_rule, state_of};
ghost use Rattle.ts_restore.specs.Restorable.{IsNewSeries, IsNewRule, IsCheckpoint};

/// Valid states with the same stored data answer every command alike, and have the same stored data afterwards. So the
/// stored data is all that a checkpoint has to say.
pub fn states_with_the_same_stored_data_answer_alike()
    ensures response { (limits : Limits) (m n : State) (reading : ℕ) (command : Command) → 1 ≤ limits.samples
        → IsValid limits m → IsValid limits n → kept m ≡ kept n
        → (step limits m reading command).response ≡ (step limits n reading command).response }
    ensures stored { (limits : Limits) (m n : State) (reading : ℕ) (command : Command) → 1 ≤ limits.samples
        → IsValid limits m → IsValid limits n → kept m ≡ kept n
        → kept (step limits m reading command).state ≡ kept (step limits n reading command).state }
{}

/// If stored data represents a state, then with a new series or a new rule it represents the state with the restored
/// one. In particular that state is valid. `restored` says the same of a whole checkpoint.
pub fn restored_parts_are_represented()
    ensures series { (limits : Limits) (keys : StoredKeys) (m : State) (p : SeriesPart)
        → RepresentsState limits keys m → IsNewSeries limits keys p
        → RepresentsState limits (keys_with_series p keys) (with_series p m) }
    ensures rule { (limits : Limits) (keys : StoredKeys) (m : State) (p : RulePart)
        → RepresentsState limits keys m → IsNewRule limits keys p
        → RepresentsState limits (keys_with_rule p keys) (with_restored_rule p m) }
    ensures restored { (limits : Limits) (c : Checkpoint) → IsCheckpoint limits c
        → RepresentsState limits (keys_of c) (state_of c) }
{}

/// The checkpoint of a valid state is valid, and restores to a valid state with the same stored data, if all buckets
/// last at least a millisecond. So what is stored, written down and restored answers as before.
pub fn a_checkpoint_restores_what_was_stored()
    ensures valid { (limits : Limits) (m : State) → IsValid limits m → AllHaveDurations (kept m)
        → IsCheckpoint limits (checkpoint_of (kept m)) }
    ensures restored { (limits : Limits) (m : State) → IsValid limits m → AllHaveDurations (kept m)
        → RepresentsState limits (kept m) (state_of (checkpoint_of (kept m))) }
{}

/// Words that differ in one byte have different check numbers.
pub fn a_changed_byte_changes_the_check_number()
    ensures { (before after : List (List ℕ)) (front back : List ℕ) (a b : ℕ) → a < 256 → b < 256 → a ≢ b
        → check_number (before ++ (front ++ a ∷ back) ∷ after) ≢ check_number (before ++ (front ++ b ∷ back) ∷ after) }
{}

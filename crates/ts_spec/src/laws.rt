//! Laws of states and steps, each stated on a function with an empty body.

ghost use Rattle.std.specs.Prelude.{◌≡◌, ◌≢◌, ℕ, ◌≤◌, false, ℤ, Result};
ghost use Rattle.ts_spec.specs.Sample.{at};
ghost use Rattle.ts_spec.specs.Key.{Key};
ghost use Rattle.ts_spec.specs.State.{State, empty, Rule};
ghost use Rattle.ts_spec.specs.Rules.{settled, shown, plain_at};
ghost use Rattle.ts_spec.specs.OneBucket.{DiffersInOneBucket};
ghost use Rattle.ts_spec.specs.declared.limits.Limits.{Limits};
ghost use Rattle.ts_spec.specs.Keyed.{none, get};
ghost use Rattle.ts_spec.specs.Command.{Command, CreateRule};
ghost use Rattle.ts_spec.specs.Step.{step, triple_step};
ghost use Rattle.ts_spec.specs.Valid.{IsValid};
ghost use Rattle.ts_spec.specs.StoredSeries.{StoredKeys};
ghost use Rattle.ts_spec.specs.StoredQueries.{stored_step};
ghost use Rattle.ts_spec.specs.Represents.{RepresentsState, SimulatesStep};
ghost use Rattle.ts_spec.specs.declared.bucket.Aggregator.{Aggregator};
ghost use Rattle.ts_spec.specs.Bucket.{Grid};
ghost use Rattle.ts_spec.specs.Response.{Done};
ghost use Rattle.ts_spec.specs.CountsAll.{CountsAll, CountsAllFrom, LinksWithoutRetention, StillCountsAll, LeavesAlone};
ghost use Rattle.ts_spec.specs.declared.command.At.{At};
ghost use Rattle.ts_spec.specs.Grammar.{needs_clock};
ghost use Rattle.ts_spec.specs.Refusal.{Fault};
ghost use Rattle.ts_spec.specs.ResolvedCommands.{resolved, AnswersOneItem};

/// Settling a settled state changes nothing.
pub fn settling_is_idempotent()
    ensures { (m : State) → settled (settled m) ≡ settled m }
{}

/// If two states differ for one destination in a single bucket of its rule, the destination shows the same samples at
/// every time except the start of that bucket.
pub fn one_bucket_affects_one_row()
    ensures { (m n : State) (k : Key) (b : ℕ) → DiffersInOneBucket m n k b → (t : ℕ) → t ≢ b
        → at t (shown m k) ≡ at t (shown n k) }
{}

/// The empty state is valid, and each step keeps a state valid, if the limits allow at least one sample per series.
pub fn each_step_keeps_a_state_valid()
    ensures empty { (limits : Limits) → IsValid limits empty }
    ensures step { (limits : Limits) (m : State) (reading : ℕ) (command : Command) → 1 ≤ limits.samples
        → IsValid limits m → IsValid limits (step limits m reading command).state }
{}

/// The stored data is enough to answer every command. A step over it gives the same response as a step of any state
/// that it represents, and its result represents the next state. The empty map represents the empty state.
pub fn stored_data_is_enough()
    ensures empty { (limits : Limits) → RepresentsState limits none empty }
    ensures step { (limits : Limits) (m : State) (keys : StoredKeys) (reading : ℕ) (command : Command)
        → 1 ≤ limits.samples
        → RepresentsState limits keys m
        → SimulatesStep limits (step limits m reading command) (stored_step limits keys reading command) }
{}

/// A new rule counts every sample that its source has and that was written since the rule was created. If neither
/// series has a retention before and after a command, such a rule is unchanged by the command and still counts every
/// new sample, unless the command changes the destination's own samples. A write or a deletion that fails does not.
pub fn a_new_rule_counts_all_that_its_source_has()
    ensures made { (limits : Limits) (m : State) (reading : ℕ) (source dest : Key) (agg : Aggregator) (grid : Grid)
        → IsValid limits m
        → (step limits m reading (CreateRule source dest agg grid)).response ≡ Done
        → CountsAllFrom (step limits m reading (CreateRule source dest agg grid)).state source dest }
    ensures step { (limits : Limits) (m : State) (reading : ℕ) (command : Command) (source dest : Key) (old new : Rule)
        → IsValid limits m
        → LeavesAlone limits m reading dest command → LinksWithoutRetention m source dest old
        → LinksWithoutRetention (step limits m reading command).state source dest new
        → CountsAll (plain_at (get source m)) old
        → StillCountsAll (step limits m reading command).state source old new }
{}

/// A command whose times were resolved by a reading of the clock needs no clock. At any reading it has the same effect
/// as the original command at that one.
pub fn resolved_times_have_the_same_effect()
    ensures clock { (reading : ℕ) (c : Command) → needs_clock (resolved reading c) ≡ false }
    ensures step { (limits : Limits) (m : State) (reading other : ℕ) (c : Command)
        → step limits m other (resolved reading c) ≡ step limits m reading c }
{}

/// The response to a triple of TS.MADD is one item. If that item is not the time of a written sample, the triple
/// changes nothing.
pub fn a_failed_triple_changes_nothing()
    ensures { (limits : Limits) (m : State) (reading : ℕ) (key : Key) (at : Result At Fault) (v : Result ℤ Fault)
        → AnswersOneItem m (triple_step limits m reading key at v) }
{}

//! A law of the plans. The function does nothing.

ghost use Rattle.std.specs.Prelude.{ℕ, ℤ};
ghost use Rattle.ts_spec.specs.declared.limits.Limits.{Limits};
ghost use Rattle.ts_spec.specs.Key.{Key};
ghost use Rattle.ts_spec.specs.State.{State};
ghost use Rattle.ts_spec.specs.StoredSeries.{StoredSeries};
ghost use Rattle.ts_series.specs.History.{History};
ghost use Rattle.ts_rules.specs.declared.rule.Rule.{Rule};
ghost use Rattle.ts_rules.specs.States.{IsOfState, IsLawOfWrites, IsLawOfDeletions};

/// A plan is correct: if the stored data represents a state before a write or a deletion, the planned rule and
/// destination represent the state after it. If planning fails with `Full`, the destination would exceed the limit in
/// that state.
pub fn plans_match_stored_state()
    ensures written { (limits : Limits) (m : State) (key to : Key) (r : Rule) (source dest : History)
        (s d : StoredSeries) (limit t : ℕ) (v : ℤ)
        → IsOfState limits m key to r source dest s d → IsLawOfWrites limits m key to r source dest s d limit t v }
    ensures deleted { (limits : Limits) (m : State) (key to : Key) (r : Rule) (source dest : History)
        (s d : StoredSeries) (limit first last : ℕ)
        → IsOfState limits m key to r source dest s d
        → IsLawOfDeletions limits m key to r source dest d limit first last }
{}

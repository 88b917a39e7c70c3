//! Laws of the records of a checkpoint, each stated on a function.

ghost use Rattle.std.specs.Prelude.{◌≡◌, ◌≢◌, ◌<◌, ℕ, List, ◌∷◌, ◌++◌, Some, None};
ghost use Rattle.ts_spec.specs.Wire.{Request};
ghost use Rattle.ts_checkpoint.specs.Parts.{Part};
ghost use Rattle.ts_checkpoint.specs.PartOf.{part_of};
ghost use Rattle.ts_checkpoint.specs.PartWords.{part_words};
ghost use Rattle.ts_checkpoint.specs.Sayable.{IsSayable};

/// The words of a record parse as what it says, if words can say it: its numbers are within their bounds, and some
/// command gives the options and labels of a series.
pub fn written_parts_read_back()
    ensures { (p : Part) → IsSayable p → part_of (part_words p) ≡ Some p }
{
    ts_journal::records_read_back();
}

/// A record with one changed byte is refused.
pub fn a_changed_byte_is_refused()
    ensures { (before after : Request) (front back : List ℕ) (a b : ℕ) (p : Part) → a < 256 → b < 256 → a ≢ b
        → part_of (before ++ (front ++ a ∷ back) ∷ after) ≡ Some p
        → part_of (before ++ (front ++ b ∷ back) ∷ after) ≡ None }
{}

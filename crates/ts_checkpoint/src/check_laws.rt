//! Laws of the tests that loading a checkpoint makes, each stated on a function with an empty body.

ghost use Rattle.std.specs.Prelude.{◌≡◌, ◌↔◌, ℕ, List, Some, true};
ghost use Rattle.ts_spec.specs.declared.limits.Limits.{Limits};
ghost use Rattle.ts_spec.specs.Sample.{Point};
ghost use Rattle.ts_spec.specs.StoredSeries.{StoredKeys};
ghost use Rattle.ts_bucket.specs.Grid.{IsGrid};
ghost use Rattle.ts_chunk_packed.specs.Packed.{packed};
ghost use Rattle.ts_restore.specs.Checkpoint.{SeriesPart, RulePart};
ghost use Rattle.ts_restore.specs.Restorable.{IsNewSeries, IsNewRule};
ghost use Rattle.ts_restore.specs.Summaries.{IsShortSummary};
ghost use Rattle.ts_checkpoint.specs.Checks.{is_new_series, is_new_rule, can_follow, CanFollow};
ghost use Rattle.ts_checkpoint.specs.Parts.{SeriesHead};
ghost use Rattle.ts_checkpoint.specs.Restoring.{Chunk};
ghost use Rattle.ts_checkpoint.specs.Unpacked.{unpacked};

/// Bytes unpack to samples exactly if they are the packed form of these samples.
pub fn packed_chunks_unpack()
    ensures packed { (bytes : List ℕ) (ps : List Point) → unpacked bytes ≡ Some ps → packed ps ≡ bytes }
    ensures unpacked { (ps : List Point) → unpacked (packed ps) ≡ Some ps }
{}

/// The tests of the next part of a checkpoint pass exactly for the parts that may come next.
pub fn checks_are_exact()
    ensures series { (limits : Limits) (keys : StoredKeys) (p : SeriesPart)
        → (is_new_series limits keys p ≡ true) ↔ IsNewSeries limits keys p }
    ensures rule { (limits : Limits) (keys : StoredKeys) (p : RulePart)
        → (is_new_rule limits keys p ≡ true) ↔ IsNewRule limits keys p }
    ensures chunk { (s : SeriesHead) (chunks : List Chunk) (limit : ℕ) (ps : List Point)
        → (can_follow s chunks limit ps ≡ true) ↔ CanFollow s chunks limit ps }
{}

/// A rule that may come next counts at most 10^14 samples, as many as its open bucket may last milliseconds.
pub fn new_rules_have_short_summaries()
    ensures { (limits : Limits) (keys : StoredKeys) (p : RulePart) → IsNewRule limits keys p → IsGrid p.rule.grid
        → IsShortSummary p.rule.running }
{}

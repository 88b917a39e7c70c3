//! Laws of journals that may begin with a checkpoint, each stated on a function.

ghost use Rattle.std.specs.Prelude.{◌≡◌, ◌<◌, ◌≤◌, ℕ, List, [], ◌∷◌, ◌++◌, length, take, All};
ghost use Rattle.ts_spec.specs.declared.limits.Limits.{Limits};
ghost use Rattle.ts_spec.specs.Command.{Command};
ghost use Rattle.ts_spec.specs.Encoded.{encoded, Fits};
ghost use Rattle.ts_spec.specs.StreamPrefixes.{IsWithin};
ghost use Rattle.ts_spec.specs.State.{State, empty};
ghost use Rattle.ts_spec.specs.Text.{Reply};
ghost use Rattle.ts_spec.specs.Wire.{Request};
ghost use Rattle.ts_journal.specs.Limits.{IsBounded, journal_limits};
ghost use Rattle.ts_journal.specs.Loading as changes;
ghost use Rattle.ts_journal.specs.Loading.{Loads, BreaksAt};
ghost use Rattle.ts_journal.specs.Record.{record_of};
ghost use Rattle.ts_journal.specs.RecordReplay.{IsRecorded};
ghost use Rattle.ts_checkpoint.specs.Damage.{DiffersInByte};
ghost use Rattle.ts_checkpoint.specs.Fronts.{checkpoint_size, FrontLoads};
ghost use Rattle.ts_checkpoint.specs.Loading.{load, LoadsTo, HasOnlyRecords, RestoresStored};
ghost use Rattle.ts_checkpoint.specs.Restoring.{IsWritten};

/// A law: appending the record of an executed command to a journal makes it load to the state after the command. The
/// command's request is within the server's limits. If only a part of the record was written, the journal loads to the
/// state before, and the part is not among its whole requests.
/// A journal that has only records keeps this property.
pub fn a_journal_grows_by_records()
    ensures whole { (limits : Limits) (bytes : List ℕ) (reading : ℕ) (c : Command) (old new : State) (reply : Reply)
        → IsBounded limits.wire
        → LoadsTo limits bytes old → (recorded : IsRecorded limits reading c old reply new)
        → IsWithin limits.wire recorded.words
        → LoadsTo limits (bytes ++ record_of c reading reply) new }
    ensures torn { (limits : Limits) (bytes : List ℕ) (reading : ℕ) (c : Command) (old new : State) (reply : Reply)
        → IsBounded limits.wire
        → LoadsTo limits bytes old → (recorded : IsRecorded limits reading c old reply new)
        → IsWithin limits.wire recorded.words
        → (n : ℕ) → n < length (record_of c reading reply)
        → load limits (bytes ++ take n (record_of c reading reply)) ≡ Loads old (length bytes) }
    ensures records { (limits : Limits) (bytes : List ℕ) (reading : ℕ) (c : Command) (old new : State) (reply : Reply)
        → IsBounded limits.wire
        → LoadsTo limits bytes old → (recorded : IsRecorded limits reading c old reply new)
        → IsWithin limits.wire recorded.words
        → HasOnlyRecords limits bytes → HasOnlyRecords limits (bytes ++ record_of c reading reply) }
{}

/// A law: if a journal loads, each prefix of it does too, unless it is a part of the checkpoint, or its unfinished rest
/// does not begin with `*`. Each prefix of a journal that has only records loads, if it has the whole checkpoint. Its
/// whole requests are no longer than the journal, and load to the same state without the rest.
pub fn fronts_of_a_journal_load()
    ensures fronts { (limits : Limits) (bytes : List ℕ) (m : State) (place : ℕ) → load limits bytes ≡ Loads m place
        → (n : ℕ) → FrontLoads limits bytes n }
    ensures records { (limits : Limits) (bytes : List ℕ) (m : State) (place : ℕ) → load limits bytes ≡ Loads m place
        → HasOnlyRecords limits bytes → (n : ℕ) → checkpoint_size limits bytes ≤ n
        → (state : State) × (at : ℕ) × (load limits (take n bytes) ≡ Loads state at) }
    ensures none { (limits : Limits) → HasOnlyRecords limits [] }
    ensures within { (limits : Limits) (bytes : List ℕ) (m : State) (place : ℕ) → load limits bytes ≡ Loads m place
        → place ≤ length bytes }
    ensures whole { (limits : Limits) (bytes : List ℕ) (m : State) (place : ℕ) → load limits bytes ≡ Loads m place
        → load limits (take place bytes) ≡ Loads m place }
{}

/// A law: a journal without a checkpoint loads as its changes alone do. What loads as changes has no checkpoint.
pub fn a_journal_without_a_checkpoint_loads_as_before()
    ensures same { (limits : Limits) (bytes : List ℕ) → checkpoint_size limits bytes ≡ 0
        → load limits bytes ≡ changes.load limits bytes }
    ensures still { (limits : Limits) (bytes : List ℕ) (m : State) (place : ℕ)
        → changes.load limits bytes ≡ Loads m place → load limits bytes ≡ Loads m place }
{}

/// A law: the records of the checkpoint of a valid state are a journal that loads to a state with the same stored data,
/// if words can say each of them and each fits the limits of journals. The samples of a series may be in any chunks.
pub fn a_checkpoint_restores()
    ensures stored { (limits : Limits) (m : State) (requests : List Request) → IsBounded limits.wire
        → IsWritten limits m requests → All (Fits (journal_limits limits.wire)) requests
        → RestoresStored limits m requests }
    ensures records { (limits : Limits) (m : State) (requests : List Request) → IsBounded limits.wire
        → IsWritten limits m requests → All (Fits (journal_limits limits.wire)) requests
        → HasOnlyRecords limits (encoded requests) }
{
    ts_journal::records_read_back();
    ts_restore::a_checkpoint_restores_what_was_stored();
}

/// A law: what loads has the whole checkpoint, if it begins with one. A prefix that ends within the checkpoint does not
/// load, except as an empty journal if it ends within the first record.
pub fn a_part_of_a_checkpoint_does_not_load()
    ensures whole { (limits : Limits) (bytes : List ℕ) (m : State) (place : ℕ) → load limits bytes ≡ Loads m place
        → checkpoint_size limits bytes ≤ place }
    ensures part { (limits : Limits) (bytes : List ℕ) (n : ℕ) → n < checkpoint_size limits bytes
        → (m : State) (place : ℕ) → load limits (take n bytes) ≡ Loads m place → m ≡ empty }
{}

/// A law: a journal with one changed byte in a word of its checkpoint breaks. The place at which it breaks is no later
/// than the start of the damaged record.
pub fn a_changed_byte_breaks_the_journal()
    ensures { (limits : Limits) (before after : List Request) (one other : Request) (m : State) (place : ℕ)
        → IsBounded limits.wire → DiffersInByte one other
        → All (Fits (journal_limits limits.wire)) (before ++ one ∷ after)
        → load limits (encoded (before ++ one ∷ after)) ≡ Loads m place
        → length (encoded before) < checkpoint_size limits (encoded (before ++ one ∷ after))
        → (at : ℕ) × (at ≤ length (encoded before)) × (load limits (encoded (before ++ other ∷ after)) ≡ BreaksAt at) }
{}

// The words of options that are one of a few names.
ghost use Rattle.std.specs.Prelude.{◌≡◌};
ghost use Rattle.ts_journal.specs.Record as record_;

use ts_spec::{Encoding, Policy};

/// The word of a command for an encoding, such as `COMPRESSED`.
pub fn encoding_name(encoding: Encoding) -> &'static [u8]
    ensures { result.now ≡ record_.encoding_name encoding }
{
    match encoding {
        Encoding::Compressed => b"COMPRESSED",
        Encoding::Uncompressed => b"UNCOMPRESSED",
    }
}

/// The word of a command for a policy on duplicates, such as `LAST`.
pub fn policy_name(policy: Policy) -> &'static [u8]
    ensures { result.now ≡ record_.policy_name policy }
{
    match policy {
        Policy::Block => b"BLOCK",
        Policy::First => b"FIRST",
        Policy::Last => b"LAST",
        Policy::Min => b"MIN",
        Policy::Max => b"MAX",
        Policy::Sum => b"SUM",
    }
}

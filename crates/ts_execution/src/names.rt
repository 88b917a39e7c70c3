// The names of encodings and policies in TS.INFO.
ghost use Rattle.std.specs.Prelude.{◌≡◌};
ghost use Rattle.ts_spec.specs.Replies as spec;

use ts_spec::{Encoding, Policy};

/// The name of an encoding in lower case.
pub(crate) fn encoding_name(encoding: Encoding) -> &'static str
    ensures { result.now ≡ spec.encoding_name encoding }
{
    match encoding {
        Encoding::Compressed => "compressed",
        Encoding::Uncompressed => "uncompressed",
    }
}

/// The name of a duplicate policy in lower case.
pub(crate) fn policy_name(policy: Policy) -> &'static str
    ensures { result.now ≡ spec.policy_name policy }
{
    match policy {
        Policy::Block => "block",
        Policy::First => "first",
        Policy::Last => "last",
        Policy::Min => "min",
        Policy::Max => "max",
        Policy::Sum => "sum",
    }
}

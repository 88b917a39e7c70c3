// Tables of the names of policies, encodings, alignments and bucket timestamps.
ghost use Rattle.std.specs.Prelude.{◌≡◌, IfSome};
ghost use Rattle.ts_spec.specs.Names.{named, policies, encodings, aligns, stamps};
ghost use Rattle.ts_spec.specs.Ranges.{IsAlign};

use ts_agg::named;
use ts_bucket::Stamp;
use ts_spec::{Align, Encoding, Policy};

const POLICIES: [(&[u8], Policy); 6] = [
    (b"BLOCK", Policy::Block),
    (b"FIRST", Policy::First),
    (b"LAST", Policy::Last),
    (b"MIN", Policy::Min),
    (b"MAX", Policy::Max),
    (b"SUM", Policy::Sum),
];

const ENCODINGS: [(&[u8], Encoding); 2] = [
    (b"COMPRESSED", Encoding::Compressed),
    (b"UNCOMPRESSED", Encoding::Uncompressed),
];

const ALIGNS: [(&[u8], Align); 4] = [
    (b"start", Align::From),
    (b"-", Align::From),
    (b"end", Align::To),
    (b"+", Align::To),
];

const STAMPS: [(&[u8], Stamp); 8] = [
    (b"-", Stamp::Low),
    (b"start", Stamp::Low),
    (b"low", Stamp::Low),
    (b"+", Stamp::High),
    (b"end", Stamp::High),
    (b"high", Stamp::High),
    (b"~", Stamp::Mid),
    (b"mid", Stamp::Mid),
];

#[tactic(auto, unfolding(ts_spec::specs::Names::policies))]
pub(crate) fn policy_named(word: &[u8]) -> Option<Policy>
    ensures { result ≡ named policies word.now }
{
    named(&POLICIES, word)
}

#[tactic(auto, unfolding(ts_spec::specs::Names::encodings))]
pub(crate) fn encoding_named(word: &[u8]) -> Option<Encoding>
    ensures { result ≡ named encodings word.now }
{
    named(&ENCODINGS, word)
}

// The end of the interval that ALIGN names.
#[tactic(auto, unfolding(ts_spec::specs::Names::aligns))]
pub(crate) fn align_named(word: &[u8]) -> Option<Align>
    ensures value { result ≡ named aligns word.now }
    ensures bound { IfSome result IsAlign }
{
    named(&ALIGNS, word)
}

#[tactic(auto, unfolding(ts_spec::specs::Names::stamps))]
pub(crate) fn stamp_named(word: &[u8]) -> Option<Stamp>
    ensures { result ≡ named stamps word.now }
{
    named(&STAMPS, word)
}

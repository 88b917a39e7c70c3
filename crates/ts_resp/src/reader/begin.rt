// Finds where the current request starts in the unread bytes.
ghost use Rattle.std.specs.Prelude.{ℕ, ◌≡◌, ◌≢◌, ◌+◌, ◌^◌, ◌<◌, ◌≤◌, length, drop, slice_index, Some, IfSome};
ghost use Rattle.std.specs.Prelude.{MatchOption};
ghost use Rattle.ts_spec.specs.Wire.{Start};
ghost use Rattle.ts_resp.specs.Reading.{begun_on};

use crate::header::{Header, count_header};
use crate::text::{Text, begins_line, found_text, is_blank_line};
use ts_spec::WireLimits;

// The offset of the first request that has arguments. `place` is the offset of the first byte.
#[tactic(auto, unfolding(crate::specs::Reading::begun_on))]
pub(super) fn first_begin(bytes: &[u8], limits: &WireLimits, place: u64, begin: u64) -> Option<u64>
    requires { place + length bytes.now < 2 ^ 64 }
    ensures { result ≡ begun_on limits.now place begin Start bytes.now }
{
    let mut rest = bytes;
    let mut place = place;
    let mut begin = begin;
    while !rest.is_empty() {
        let Some(len) = wordless(rest, limits) else {
            return Some(begin);
        };
        rest = &rest[len..];
        place += len as u64;
        begin = place;
    }
    None
}

// The length of a complete request without arguments at the front of the bytes.
fn wordless(bytes: &[u8], limits: &WireLimits) -> Option<usize>
    requires { 0 < length bytes.now }
    ensures begun { MatchOption result
        ((place begin : ℕ) → begun_on limits.now place begin Start bytes.now ≡ Some begin)
        (λ len. (place begin : ℕ) → begun_on limits.now place begin Start bytes.now
        ≡ begun_on limits.now (place + len) (place + len) Start (drop len bytes.now)) }
    ensures within { IfSome result (λ len. (0 < len) × (len ≤ length bytes.now)) }
{
    if begins_line(bytes) {
        return blank_line(bytes, limits);
    }
    match count_header(bytes, limits) {
        Header::Whole { number: 0, feed } => Some(feed + 1),
        Header::Open | Header::Whole { .. } | Header::Broken { .. } => None,
    }
}

// The same for an inline request: a line of text.
fn blank_line(bytes: &[u8], limits: &WireLimits) -> Option<usize>
    requires some { 0 < length bytes.now }
    requires line { slice_index bytes.now 0 ≢ 42 }
    ensures begun { MatchOption result
        ((place begin : ℕ) → begun_on limits.now place begin Start bytes.now ≡ Some begin)
        (λ len. (place begin : ℕ) → begun_on limits.now place begin Start bytes.now
        ≡ begun_on limits.now (place + len) (place + len) Start (drop len bytes.now)) }
    ensures within { IfSome result (λ len. (0 < len) × (len ≤ length bytes.now)) }
{
    let Text::Whole { feed } = found_text(bytes, 0, limits) else {
        return None;
    };
    if !is_blank_line(&bytes[..feed]) {
        return None;
    }
    Some(feed + 1)
}

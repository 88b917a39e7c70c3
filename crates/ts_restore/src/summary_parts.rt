// Six numbers that may be the summary of a list of values, and the test whether they are.
ghost use Rattle.std.specs.Prelude.{◌≡◌, ◌+ℤ◌, ◌*◌, ◌^◌, ◌≤◌, ◌↔◌, ◌+◌, ◌-◌, unsigned_abs, IsTrue};
ghost use Rattle.ts_spec.specs.Value.{bound};
ghost use Rattle.ts_restore.specs.Summaries.{IsShortSummary, summary_of, middle, times};
ghost use Rattle.ts_restore.specs.Summaries.{IsOrdered, IsReachable, HasLeast, HasGreatest, IsSpread, IsExact};
ghost use Rattle.ts_restore.specs.Summaries.{IsSingle};

use ts_spec::Units;

// The most values that a summary may count.
const MOST: u64 = 100_000_000_000_000;

/// Six numbers that may be the summary of a list of values.
#[derive(Clone, Copy, Debug, PartialEq, Eq)]
pub struct SummaryParts {
    /// How many values there are.
    pub count: u64,
    /// Their sum, in millionths.
    pub sum: i128,
    /// The least value.
    pub least: Units,
    /// The greatest value.
    pub greatest: Units,
    /// The first value.
    pub first: Units,
    /// The last value.
    pub last: Units,
}

/// Whether these are the count, sum, least, greatest, first and last of some list of at most 10^14 values. Those of the
/// empty list are all 0.
pub fn is_summary(parts: &SummaryParts) -> bool
    ensures { IsTrue result ↔ IsShortSummary (summary_of parts.now) }
{
    parts.count <= MOST && is_exact(parts)
}

// Whether these are the numbers of some list of values.
fn is_exact(parts: &SummaryParts) -> bool
    requires few { parts.now.count ≤ MOST }
    ensures { IsTrue result ↔ IsExact (summary_of parts.now) }
{
    if parts.count == 0 {
        is_single(parts, Units::ZERO)
    } else if parts.count == 1 {
        is_single(parts, parts.first)
    } else {
        is_spread(parts)
    }
}

// Whether the sum and all values are this one.
fn is_single(parts: &SummaryParts, value: Units) -> bool
    ensures { IsTrue result ↔ IsSingle value (summary_of parts.now) }
{
    parts.sum == value.get()
        && parts.least == value
        && parts.greatest == value
        && parts.first == value
        && parts.last == value
}

// Whether these are the numbers of that many values, at least two.
fn is_spread(parts: &SummaryParts) -> bool
    requires some { 2 ≤ parts.now.count }
    requires few { parts.now.count ≤ MOST }
    ensures { IsTrue result ↔ IsSpread (parts.now.count - 2) (summary_of parts.now) }
{
    let between = parts.count - 2;
    if !is_reachable(parts, between) {
        return false;
    }
    is_ordered(parts) && has_least(parts, between) && has_greatest(parts, between)
}

// Whether the first and the last value are from the least to the greatest.
fn is_ordered(parts: &SummaryParts) -> bool
    ensures { IsTrue result ↔ IsOrdered (summary_of parts.now) }
{
    parts.least <= parts.first
        && parts.first <= parts.greatest
        && parts.least <= parts.last
        && parts.last <= parts.greatest
}

// Whether `between` values from the least to the greatest can have the sum of all but the first and the last.
fn is_reachable(parts: &SummaryParts, between: u64) -> bool
    requires few { between ≤ MOST }
    ensures value { IsTrue result ↔ IsReachable between (summary_of parts.now) }
    ensures small { IsTrue result → unsigned_abs parts.now.sum ≤ bound * (MOST + 2) }
{
    let lowest = with_ends(parts, times(between, parts.least));
    let highest = with_ends(parts, times(between, parts.greatest));
    lowest <= parts.sum && parts.sum <= highest
}

// Whether the first or the last is the least value, or one of those between them can be.
fn has_least(parts: &SummaryParts, between: u64) -> bool
    requires few { between ≤ MOST }
    requires small { unsigned_abs parts.now.sum ≤ bound * (MOST + 2) }
    ensures { IsTrue result ↔ HasLeast between (summary_of parts.now) }
{
    if parts.first == parts.least || parts.last == parts.least {
        return true;
    }
    1 <= between && middle(parts) <= parts.least.get() + times(between - 1, parts.greatest)
}

// Whether the first or the last is the greatest value, or one of those between them can be.
fn has_greatest(parts: &SummaryParts, between: u64) -> bool
    requires few { between ≤ MOST }
    requires small { unsigned_abs parts.now.sum ≤ bound * (MOST + 2) }
    ensures { IsTrue result ↔ HasGreatest between (summary_of parts.now) }
{
    if parts.first == parts.greatest || parts.last == parts.greatest {
        return true;
    }
    1 <= between && parts.greatest.get() + times(between - 1, parts.least) <= middle(parts)
}

// The sum of these values and of the first and the last.
fn with_ends(parts: &SummaryParts, inner: i128) -> i128
    requires { unsigned_abs inner ≤ bound * MOST }
    ensures value { result ≡ inner +ℤ parts.now.first +ℤ parts.now.last }
    ensures bounded { unsigned_abs result ≤ bound * (MOST + 2) }
{
    inner + parts.first.get() + parts.last.get()
}

// The sum of all values but the first and the last.
fn middle(parts: &SummaryParts) -> i128
    requires small { unsigned_abs parts.now.sum ≤ bound * (MOST + 2) }
    ensures value { result ≡ middle (summary_of parts.now) }
    ensures bounded { unsigned_abs result ≤ bound * (MOST + 4) }
{
    parts.sum - parts.first.get() - parts.last.get()
}

// The sum of `count` samples that all have this value.
fn times(count: u64, value: Units) -> i128
    requires { count ≤ MOST }
    ensures value { result ≡ times count value }
    ensures bounded { unsigned_abs result ≤ bound * count }
{
    i128::from(count) * value.get()
}

// Powers of ten, division that rounds half away from zero, and clamping to the range of values.
ghost use Rattle.std.specs.Prelude.{◌≡◌, ◌^◌, ◌<◌, ◌≤◌, ℕ, ◌*◌, unsigned_abs};
ghost use Rattle.ts_spec.specs.Value.{clamp, div_round};

use ts_sample::Units;

/// 10^0 to 10^30.
const POWERS: [u128; 31] = [
    1,
    10,
    100,
    1_000,
    10_000,
    100_000,
    1_000_000,
    10_000_000,
    100_000_000,
    1_000_000_000,
    10_000_000_000,
    100_000_000_000,
    1_000_000_000_000,
    10_000_000_000_000,
    100_000_000_000_000,
    1_000_000_000_000_000,
    10_000_000_000_000_000,
    100_000_000_000_000_000,
    1_000_000_000_000_000_000,
    10_000_000_000_000_000_000,
    100_000_000_000_000_000_000,
    1_000_000_000_000_000_000_000,
    10_000_000_000_000_000_000_000,
    100_000_000_000_000_000_000_000,
    1_000_000_000_000_000_000_000_000,
    10_000_000_000_000_000_000_000_000,
    100_000_000_000_000_000_000_000_000,
    1_000_000_000_000_000_000_000_000_000,
    10_000_000_000_000_000_000_000_000_000,
    100_000_000_000_000_000_000_000_000_000,
    1_000_000_000_000_000_000_000_000_000_000,
];

/// 10^k.
pub fn power_of_ten(k: usize) -> u128
    requires { k ≤ 30 }
    ensures value { result ≡ 10 ^ k }
    ensures positive { 0 < result }
{
    POWERS[k]
}

/// sum / count, rounded to the nearest whole number, and a tie away from zero.
pub fn div_round(sum: i128, count: u64) -> i128
    requires { 0 < count }
    ensures value { result ≡ div_round sum count }

    // A mean is never larger in magnitude than the numbers it is taken of.
    ensures mean { (most : ℕ) → unsigned_abs sum ≤ most * count → unsigned_abs result ≤ most }
{
    let count = i128::from(count);
    let quotient = sum / count;
    let rest = (sum % count).unsigned_abs();
    if 2 * rest < count.unsigned_abs() {
        quotient
    } else if sum < 0 {
        quotient - 1
    } else {
        quotient + 1
    }
}

/// A number of millionths as a value, clamped to the range of values.
pub fn clamp(n: i128) -> Units
    ensures { result ≡ clamp n }
{
    match Units::new(n) {
        Some(value) => value,
        None if n < 0 => Units::MIN,
        None => Units::MAX,
    }
}

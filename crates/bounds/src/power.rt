// T^2.5, from the square root of a whole number.
ghost use Rattle.std.specs.Prelude.{◌≡◌, ◌*◌, ◌^◌, ◌<◌, ◌≤◌};
ghost use Rattle.bounds.specs.Enclosure.{WithinAll};
ghost use Rattle.bounds.specs.Series.{root, power2_5};
ghost use Rattle.bounds.specs.Power.{degrees, half_power, power, power_error, degrees_limit};

use crate::fixed::mul_shift;

// 0 °C, as a warmth
const FREEZING: u64 = 300000000000;

// 2^24: the result is in units of 2^-24, and a root is taken of 2^24 times a number
const SCALE: u64 = 16777216;

// 2^116 / 10^25, cut: from units of 10^-25 to units of 2^-24
const FACTOR: u64 = 8307674973;

// The largest whole number whose square is at most x, of 1 or more: Newton's steps come down to it from above.
fn root_from_above(x: u64) -> u64
    requires { 0 < x }
    ensures { (result ≡ root x) × (result < 2 ^ 32) }
{
    let mut r: u64 = 4294967295;
    // A while: the steps end where the root is reached. With std's isqrt, 32 steps each, a season's marks take a quarter longer.
    while x / r < r {
        r = (r + x / r) / 2;
    }
    r
}

// The same, of 0 too.
fn square_root(x: u64) -> u64
    ensures { (result ≡ root x) × (result < 2 ^ 32) }
{
    if x == 0 { 0 } else { root_from_above(x) }
}

// n^2.5 / 2^68, for a temperature n from 0 to 65 °C in units of 10^-10 °C
fn half_power(n: u64) -> u64
    requires { n ≤ 65 * 10 ^ 10 }
    ensures { (result ≡ half_power n) × (result < 2 ^ 31) }
{
    mul_shift(mul_shift(n, n), square_root(n * SCALE))
}

// T^2.5 in units of 2^-24, for a temperature T up to 65 °C whose warmth is (T + 30 °C) * 10^10; 0 below 0 °C
pub fn power(warmth: u64) -> u64
    requires { warmth ≤ degrees_limit }
    ensures { (result ≡ power warmth) × (result < 2 ^ 40) × WithinAll (2 ^ 24) result power_error (λ n. power2_5 n (degrees warmth)) }
{
    half_power(warmth.saturating_sub(FREEZING)) * FACTOR / SCALE
}

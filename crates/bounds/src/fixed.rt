// Products that would not fit 64 bits, each taken in parts that do, and cut once at the end.
ghost use Rattle.std.specs.Prelude.{◌≡◌, ◌+◌, ◌*◌, ◌/◌, ◌^◌, ◌<◌, ◌≤◌};

use crate::exp::ONE;

// Half of the 40 binary places: a number is cut into parts here.
const HALF: u64 = 1048576;

// The product of two numbers with 40 binary places, cut to 40 places.
pub fn mul_shift(a: u64, b: u64) -> u64
    requires { (a < 2 ^ 50) × (b < 2 ^ 50) }
    ensures { (result ≡ a * b / 2 ^ 40) × (result < 2 ^ 60) }
{
    let a1 = a / HALF;
    let a0 = a % HALF;
    let b1 = b / HALF;
    let b0 = b % HALF;
    a1 * b1 + (a1 * b0 + a0 * b1 + a0 * b0 / HALF) / HALF
}

// The same where b is from 1 to 1.09: what it has above 1 is short enough to stay whole, so that only a is cut into parts.
pub fn mul_above(a: u64, b: u64) -> u64
    requires { (a < 2 ^ 46) × (2 ^ 40 ≤ b) × (b < 12 * 10 ^ 11) }
    ensures { result ≡ a * b / 2 ^ 40 }
{
    let f = b - ONE;
    let a1 = a / HALF;
    let a0 = a % HALF;
    a + (a1 * f + a0 * f / HALF) / HALF
}

// x c + r over k, cut, where x c is too large: x is taken in parts of k.
#[inline]
pub fn mul_add_div(x: u64, c: u64, r: u64, k: u64) -> u64
    requires { (0 < k) × (k * c + r < 2 ^ 64) × (x * c + r < 2 ^ 64 * k) }
    ensures { result ≡ (x * c + r) / k }
{
    x / k * c + (x % k * c + r) / k
}

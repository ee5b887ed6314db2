// What breaks through a carbon canister of the vapour of a rise, in units of 2^-40 g.
ghost use Rattle.std.specs.Prelude.{◌≡◌, ◌*◌, ◌-◌, ◌/◌, ◌^◌, ◌<◌, ◌≤◌};
ghost use Rattle.breakthrough.specs.Through.{CurveReady, exponent_of, through};

use bounds::fixed::mul_shift;
use bounds::short::{risen, short};

// From units of 2^-36 g to units of 2^-40 g.
pub const TWO_4: u64 = 16;

// More than the cuts of an exponent's parts come to.
const TWO_24: u64 = 16777216;

// A row's canister at one temperature.
#[derive(Clone, Copy)]
pub struct Curve {
    // a + b s m at the load at parking start and at the saturating load, held as (z + 16) * 2^53, and what a rise of 1 adds to it, in units of 2^-36.
    pub exponent: u64,
    pub last: u64,
    pub reach: u64,
    // In units of 2^-40 g: what the canister can take up before it overflows, and what is lost at parking start with as much more as it can be off.
    pub room: u64,
    pub first: u64,
    // Vapour for a rise of 1 in E(0.0716 T).
    pub gain: u64,
}

// What overflows of the vapour of a rise. Where its exponent x ends below that of the saturating load by more than the cuts, nothing does.
fn overflow(c: Curve, rise: u64, x: u64) -> u64
    requires { CurveReady c × (rise ≤ 72 * 2 ^ 40) × (x ≡ exponent_of c rise) }
    ensures { (result ≡ c.gain * rise / 2 ^ 40 - c.room) × (result < 2 ^ 60) }
{
    if x + TWO_24 < c.last {
        0
    } else {
        mul_shift(c.gain, rise).saturating_sub(c.room)
    }
}

// What breaks through of the vapour of a rise.
#[tactic(auto, unfolding(crate::specs::Through::through))]
pub fn through(c: Curve, rise: u64) -> u64
    requires { CurveReady c × (rise ≤ 72 * 2 ^ 40) }
    ensures { result ≡ through c rise }
{
    let x = risen(c.exponent, c.reach, rise, c.last);
    (short(x) * TWO_4 + overflow(c, rise, x)).saturating_sub(c.first)
}

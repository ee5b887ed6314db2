// Whole milligrams as doubles, and doubles handed in as whole milligrams.
ghost use Rattle.std.specs.Prelude.{◌≡◌, ◌+◌, ◌≤◌, not, T, is_nan, Some, None, MatchOption};
ghost use Rattle.map_cells.specs.Doubles.{mass_limit, double, whole_of, zero_bits};
ghost use Rattle.map_cells.specs.Sums.{cell_refusal};
ghost use Rattle.map_cells.specs.Taken.{Taken};

use crate::cell_refusal;
use refusals::Refusal;

// 2^53 mg. A sum is held against it as a whole number: the double of 2^53 + 1 is that of 2^53.
pub const MASS_LIMIT: u64 = 9007199254740992;

// The bits of a minus zero, and of 1.
const MINUS_ZERO: u64 = 9223372036854775808;

const ONE_BITS: u64 = 4607182418800017408;

// A whole number of milligrams up to 2^53.
#[derive(Clone, Copy)]
pub struct WholeMass {
    pub milligrams: u64,
    ghost limit: { milligrams ≤ mass_limit },
}

// A mass as a double. Through i64, which the machine turns into a double in one step: 0 is then a plus zero however it is set to round.
impl From<WholeMass> for f64 {
    ghost from_gives = { λ m x. x ≡ double m.milligrams };

    fn from(m: WholeMass) -> f64 {
        m.milligrams as i64 as f64
    }
}

// Whether a double below 1 is 0, plus or minus, by its bits without the sign: one less, those of 0 come round to the top, and all others
// stay below those of 1. A machine that is set to take the smallest doubles for 0 when it compares sees them here. (Held against the two
// patterns of 0 the compiler makes a comparison of doubles of it again.)
#[tactic(auto, unfolding(crate::specs::Doubles::zero_bits))]
fn zero_bits(x: f64) -> bool
    requires { T (not (is_nan x)) }
    ensures { result ≡ zero_bits x }
{
    let bits = f64::to_bits(x);
    ONE_BITS <= (bits % MINUS_ZERO + (MINUS_ZERO - 1)) % MINUS_ZERO
}

// The whole number of milligrams up to 2^53 that a double handed in is, if it is one. A NaN fails the first test, an infinity one of the
// first two, a fraction or a number below 0 the last; a minus zero passes as 0.
fn whole_mass(x: f64) -> Option<WholeMass>
    ensures { MatchOption result (whole_of x ≡ None) (λ m. whole_of x ≡ Some m.milligrams) }
{
    if !(x > -1.0) {
        return None;
    }
    if !(x < 18446744073709551616.0) {
        return None;
    }
    let n = std::num::truncating_f64_to_u64(x);
    if MASS_LIMIT < n {
        return None;
    }
    if n == 0 {
        if !zero_bits(x) {
            return None;
        }
    }
    let mass = WholeMass { milligrams: n };
    if f64::from(mass) == x {
        Some(mass)
    } else {
        None
    }
}

impl TryFrom<f64> for WholeMass {
    type Error = Refusal;

    ghost try_from_gives = { λ x r. Taken (λ m. m.milligrams) cell_refusal (whole_of x) r };

    fn try_from(x: f64) -> Result<WholeMass, Refusal> {
        whole_mass(x).ok_or(cell_refusal())
    }
}

// Two masses, added as doubles.
pub fn add_whole(m: WholeMass, n: WholeMass) -> f64
    ensures { result ≡ double (m.milligrams + n.milligrams) }
{
    f64::from(m) + f64::from(n)
}

// Three masses whose sum is at most 2^53, added as doubles.
pub fn add_three(a: u64, b: u64, c: u64) -> f64
    requires { a + b + c ≤ mass_limit }
    ensures { result ≡ double (a + b + c) }
{
    let two = add_whole(WholeMass { milligrams: a }, WholeMass { milligrams: b });
    two + f64::from(WholeMass { milligrams: c })
}

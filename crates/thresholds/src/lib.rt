// The exponent at which E reaches a mileage, in units of 10^-14: it is found downwards from a whole exponent c, by the binary digits of d = c - y.
#![tactic(auto)]

ghost use Rattle.std.specs.Prelude.{◌≡◌, ◌+◌, ◌*◌, ◌^◌, ◌<◌, ◌≤◌};
ghost use Rattle.thresholds.specs.Thresholds.{within, digit, digits, first_kilometres, whole_above, log_lower};

use bounds::exp::{ZERO, exponential};
use bounds::whole::far;

// An exponent of 1, in units.
const TEN_14: u64 = 100000000000000;

// How far 2^40 E(d) can be above what is computed of it, for d up to 2^47.
const NEAR_ERROR: u64 = 35;

// From an exponent where E is at least M to one where it is below.
const MARGIN: u64 = 400001;

// A mileage M.
#[derive(Clone, Copy)]
pub struct Mileage {
    pub kilometres: u64,
    ghost in_limit: { kilometres ≤ 10 ^ 6 },
}

// A mileage M and a whole exponent c, for the exponents c - d below it.
#[derive(Clone, Copy)]
struct Below {
    mileage: Mileage,
    whole: usize,
    ghost in_table: { whole < 15 },
}

impl Below {
    // M is at most E(c - d).
    fn within(self, d: u64) -> bool
        requires { d ≤ 2 ^ 47 }
        ensures { result ≡ within self.mileage.kilometres self.whole d }
    {
        let above = exponential(ZERO + d) + NEAR_ERROR;
        self.mileage.kilometres * above <= far(self.whole) * 1024
    }

    // d with one more binary digit, where M is still at most E(c - d).
    fn digit(self, d: u64, bit: u64) -> u64
        requires { d + bit ≤ 2 ^ 47 }
        ensures { (result ≡ digit self.mileage.kilometres self.whole d bit) × (result ≤ d + bit) }
    {
        if self.within(d + bit) { d + bit } else { d }
    }

    // The largest d with M at most E(c - d), digit by digit from 2^46 down.
    fn digits(self) -> u64
        ensures { (result ≡ digits self.mileage.kilometres self.whole 47 0) × (result ≤ 2 ^ 47) }
    {
        let mut d: u64 = 0;
        for found in 0..47u32 {
            d = self.digit(d, 1 << (46 - found));
        }
        d
    }
}

impl Mileage {
    // M with a whole exponent.
    fn below(self, whole: usize) -> Below
        requires { whole < 15 }
        ensures { (result.mileage.kilometres ≡ self.kilometres) × (result.whole ≡ whole) }
    {
        Below {
            mileage: self,
            whole,
        }
    }

    // The first whole exponent from 3 on with E at least M, and 14 where none before it has.
    fn whole_above(self) -> usize
        ensures { (result ≡ whole_above self.kilometres) × (3 ≤ result) × (result ≤ 14) }
    {
        (3..14).find(|c| self.below(*c).within(0)).unwrap_or(14)
    }

    // A lower bound of the logarithm of M: E at this exponent is below M for every n from 40 upward, and at least M a margin above it.
    pub fn log_lower(self) -> u64
        requires { first_kilometres ≤ self.kilometres }
        ensures { (result ≡ log_lower self.kilometres) × (282 * 10 ^ 12 ≤ result) × (result ≤ 14 * 10 ^ 14) }
    {
        let c = self.whole_above();
        let d = self.below(c).digits();
        c as u64 * TEN_14 - d - MARGIN
    }
}

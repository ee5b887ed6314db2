// A mass times a fraction, cut down or cut up to whole milligrams, with no product beyond 64 bits.
ghost use Rattle.std.specs.Prelude.{◌≡◌, ◌/◌, ◌^◌, ◌≤◌};
ghost use Rattle.map_cells.specs.Doubles.{mass_limit};
ghost use Rattle.map_shares.specs.Range.{PartIn};
ghost use Rattle.map_rows.specs.Digits.{QuotientOf};
ghost use Rattle.map_rows.specs.Rounded.{share};

use map_cells::doubles::WholeMass;
use map_shares::Part;

// A mass is taken in digits of 18 bits, the highest first.
const DIGIT: u64 = 262144;

// Which whole number of milligrams a share is cut to.
#[derive(Clone, Copy)]
pub enum Rounding {
    Down,
    Up,
}

// A quotient and its remainder.
#[derive(Clone, Copy)]
pub struct Quotient {
    pub whole: u64,
    pub rest: u64,
}

// The quotient and the remainder of a mass times part over all, from those of the mass without its last digit.
// By two operators: std has no function that gives both.
fn next_digit(c: Quotient, mass: u64, p: Part) -> Quotient
    requires { PartIn p × (mass ≤ mass_limit) × QuotientOf (mass / 2 ^ 18) p c }
    ensures { QuotientOf mass p result }
{
    let n = c.rest * DIGIT + mass % DIGIT * p.part;
    Quotient {
        whole: c.whole * DIGIT + n / p.all,
        rest: n % p.all,
    }
}

// The mass times part over all.
fn cut_product(m: WholeMass, p: Part) -> Quotient
    requires { PartIn p }
    ensures { QuotientOf m.milligrams p result × (result.whole ≤ m.milligrams) }
{
    let mass = m.milligrams;
    let n = mass / DIGIT / DIGIT * p.part;
    let first = Quotient {
        whole: n / p.all,
        rest: n % p.all,
    };
    next_digit(next_digit(first, mass / DIGIT, p), mass, p)
}

// A share of a mass, cut down or cut up.
pub fn share(m: WholeMass, p: Part, rounding: Rounding) -> u64
    requires { PartIn p }
    ensures { (result ≡ share rounding m.milligrams p) × (result ≤ m.milligrams) }
{
    let c = cut_product(m, p);
    match rounding {
        Rounding::Down => c.whole,
        Rounding::Up => { if 0 < c.rest { c.whole + 1 } else { c.whole } }
    }
}

// Holds the bounds of E and of T^2.5 against exact values that tools/vectors/bounds.py put into standard input: how many are enclosed, and how
// far the largest lies above its lower bound, of how far it may.
#![tactic(auto)]

ghost use Rattle.std.specs.Prelude.{◌≡◌, ◌^◌, ◌<◌, ◌≤◌, true};
ghost use Rattle.bounds.specs.Exponential.{exponent_limit};
ghost use Rattle.bounds.specs.Power.{power_error};

use bounds::exp::ZERO;
use std::io;
use vectors::input::with_first_bytes;
use vectors::items::{Item, Rest, tally_of};
use vectors::tally::{Tally, Verdict};

// The bytes of a vector: every number of the input has eight. Two say how many exponents and how many temperatures there are; then comes a
// vector for each exponent, and one for each temperature.
const VECTOR: usize = 24;

// The most exponents, or temperatures, in an input
const MOST: u64 = 1000;

// z = 1 / 4096 and 1 / 16, as an exponent is held
const FINE_STEP: u64 = 1600024414062500;

const COARSE_STEP: u64 = 1606250000000000;

// The exponents after z = 2.3, 3 and 3.6, and the first that is not served
const PAST_2_3: u64 = 1830000000000001;

const PAST_3: u64 = 1900000000000001;

const PAST_3_6: u64 = 1960000000000001;

const LIMIT: u64 = 2010000000000000;

// The last temperature that is served, 65 °C, as a temperature is held
const WARMEST: u64 = 950000000000;

// An exponent or a temperature as the library holds it, and its exact value in the units of the bound, cut to a whole number, for n = 40
// and for n = 60
#[derive(Clone, Copy)]
struct Vector {
    held: u64,
    at_40: u64,
    at_60: u64,
}

impl<'a> Item<'a> for Vector {
    fn read(input: &mut Rest<'a>) -> Option<Vector> {
        Some(Vector {
            held: input.item()?,
            at_40: input.item()?,
            at_60: input.item()?,
        })
    }
}

// The exponents from the first on that are below the limit, up to which they are served
#[derive(Clone, Copy)]
struct Exponents {
    first: u64,
    limit: u64,
    ghost served: { limit ≤ exponent_limit },
}

// Whether every value with this whole part lies from low to low + error: the value itself can be nearly one unit larger.
fn encloses(low: u64, error: u64, whole: u64) -> bool
    requires { (low < 2 ^ 46) × (error < 2 ^ 10) }
{
    (low <= whole) & (whole < low + error)
}

// What the bound that was computed for a vector is worth
fn verdict_of(low: u64, error: u64, v: Vector) -> Verdict
    requires { (low < 2 ^ 46) × (error < 2 ^ 10) }
{
    Verdict {
        right: encloses(low, error, v.at_40) & encloses(low, error, v.at_60),
        width: error,
        distance: v.at_40.max(v.at_60).saturating_sub(low),
    }
}

impl Exponents {
    fn between(first: u64, limit: u64) -> Exponents
        requires { limit ≤ exponent_limit }
    {
        Exponents { first, limit }
    }

    fn contains(self, x: u64) -> bool
        ensures { result ≡ true → x < self.limit }
    {
        (self.first <= x) && (x < self.limit)
    }
}

// An exponent, where it lies in the range
fn with_exponent(exponents: Exponents, v: Vector) -> Tally {
    let x = v.held;
    if !exponents.contains(x) {
        return Tally::default();
    }
    let low = bounds::exp::exponential(x);
    let error = bounds::exp::exponential_error(x);
    verdict_of(low, error, v).into()
}

// The exponents of a range
fn exponentials(exponents: Exponents, s: &[u8]) -> io::Result<Tally> {
    tally_of(s, |_, v: Vector| Ok(with_exponent(exponents, v)))
}

// How far 2^24 T^2.5 can be above its lower bound
fn power_error() -> u64
    ensures { result ≡ power_error }
{
    716
}

// A temperature, where it is served
fn with_temperature(v: Vector) -> Tally {
    if WARMEST < v.held {
        return Tally::default();
    }
    verdict_of(bounds::power::power(v.held), power_error(), v).into()
}

fn powers(s: &[u8]) -> io::Result<Tally> {
    tally_of(s, |_, v: Vector| Ok(with_temperature(v)))
}

fn print(rt: &impl Print, values: &str, range: &str, tally: Tally) -> io::Result<()> {
    println!(rt;
        "{values} {range}: {} largest error {} of {}",
        tally.counts("enclosed"),
        tally.farthest,
        tally.widest
    )
}

// A line for each range, since the error follows the size of E. Below 1 / 4096 both table entries are 1 and the result is the quadratic;
// below 1 / 16 the first is 1.
fn print_ranges(rt: &impl Print, s: &[u8]) -> io::Result<()> {
    let ranges = [
        ("from 0 below 1/4096", Exponents::between(ZERO, FINE_STEP)),
        ("from 0 below 1/16", Exponents::between(ZERO, COARSE_STEP)),
        ("up to 2.3", Exponents::between(0, PAST_2_3)),
        ("up to 3", Exponents::between(0, PAST_3)),
        ("up to 3.6", Exponents::between(0, PAST_3_6)),
        ("below 4.1", Exponents::between(0, LIMIT)),
    ];
    for (name, exponents) in ranges {
        print(rt, "exponentials", name, exponentials(exponents, s)?)?;
    }
    Ok(())
}

// The exponents and the temperatures, where they are not too many and the input is of the length that it says
fn parts_of(input: &[u8]) -> Option<(&[u8], &[u8])> {
    let mut rest = Rest::of(input);
    let exponents = rest.item()?;
    let temperatures = rest.item()?;
    if (MOST < exponents) || (MOST < temperatures) {
        return None;
    }
    Some((
        rest.vectors(exponents, VECTOR)?,
        rest.last(temperatures, VECTOR)?,
    ))
}

fn report(rt: &impl Print, input: &[u8]) -> io::Result<()> {
    let Some((exponents, temperatures)) = parts_of(input) else {
        return println!(rt; "the input is not of the length that it says");
    };
    print_ranges(rt, exponents)?;
    print(rt, "powers", "up to 65 degrees", powers(temperatures)?)
}

fn main(rt: HostRuntime) -> io::Result<()> {
    with_first_bytes(&rt, |input| report(&rt, input))
}

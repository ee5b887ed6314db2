// A season at its 48 marks: temperatures, exponentials and permeation as whole numbers.
#![tactic(auto)]

ghost use Rattle.std.specs.Prelude.{◌≡◌, ℕ, ◌+◌, ◌*◌, ◌-◌, ◌%◌, ◌^◌, ◌<◌, ◌≤◌};
ghost use Rattle.numbers.specs.Lists.{tab, at};
ghost use Rattle.numbers.specs.Bounded.{AllAtMost};
ghost use Rattle.bounds.specs.Ahead.{ahead};
ghost use Rattle.bounds.specs.Weights.{apart};
ghost use Rattle.sheet.specs.Limits.{vp_limit};
ghost use Rattle.sheet.specs.Range.{warmth_limit, mark_warmth};
ghost use Rattle.marks.specs.AtMarks.{AtMarks};
ghost use Rattle.marks.specs.Marks.{pressure_factor};

use crate::warmths::{Raises, Warmths};
use bounds::exp::{ZERO, exponential};
use bounds::hours::{WARMEST, apart, weights_table};
use fields::range::CheckedSeason;
use fields::warmth;
use std::array;

pub mod warmths;

// A season at its marks 0 to 47.
#[derive(Clone, Copy)]
pub struct Marks {
    // The temperature T, in units of 10^-10 °C above -30 °C.
    pub temperature: [u64; 48],
    // A lower bound of E(0.0716 T), in units of 2^-40.
    pub exponential: [u64; 48],
}

// The rises of E(0.0716 T) that a canister meets, when T is raised by so many tenths of a degree, by distance from 14:00, in units of 2^-40.
// Each keeps a name of its own: cars and two-wheelers read different ones, and an array by an enum would name them no better.
#[derive(Clone, Copy)]
pub struct CanisterRaises {
    pub raise10: Raises,
    pub raise15: Raises,
    pub raise25: Raises,
    pub raise35: Raises,
    pub raise45: Raises,
    pub raise60: Raises,
}

// What is computed from the temperatures of a season.
#[derive(Clone, Copy)]
pub struct MarkValues {
    pub marks: Marks,
    // The temperatures by distance from 14:00.
    pub warmths: Warmths,
    // The rise of E(0.0716 T) from each mark to the next, in units of 2^-40.
    pub step: [u64; 48],
    // Permeation in grams per hour at each mark, in units of 2^-40.
    pub rate: [u64; 48],
    // The same by distance from 14:00, at T + 11 for the hot soak, and at T + 15 for running.
    pub soak: [u64; 25],
    pub run: [u64; 25],
    // The rises of E(0.0716 T) that a canister meets.
    pub raises: CanisterRaises,
    // The rise by 5 °C, of a car's hot trip. No canister meets it: a car with one loses no vapour on a trip.
    pub raise50: Raises,
}

// A tenth of a degree, in units of 10^-10 °C.
const TENTH: u64 = 1000000000;

// E(0.004 vp): the exponent is 4 * 10^10 for each tenth of a kPa.
const TEN_BILLION: u64 = 10000000000;

// The temperature at a mark, from the lowest of the day, the span up to the highest, and the mark's weight.
fn between(lowest: u64, span: u64, weight: u64) -> u64
    requires { (lowest ≤ warmth_limit) × (span ≤ warmth_limit) × (weight ≤ 10 ^ 9) }
    ensures { result ≡ lowest * 10 ^ 9 + span * weight }
{
    lowest * TENTH + span * weight
}

// The temperatures at the marks, from the lowest of the day and the span up to the highest.
fn temperatures(lowest: u64, span: u64, weights: [u64; 48]) -> [u64; 48]
    requires { (lowest ≤ warmth_limit) × (span ≤ warmth_limit) × AllAtMost (10 ^ 9) weights }
    ensures { result ≡ tab (λ (i : ℕ). lowest * 10 ^ 9 + span * at weights i) 48 }
{
    array::from_fn(|i| between(lowest, span, weights[i]))
}

// The temperatures at a season's marks.
fn season_temperatures(checked: CheckedSeason) -> [u64; 48]
    ensures { (result ≡ tab (mark_warmth checked.season) 48) × AllAtMost (80 * 10 ^ 10) result }
{
    let lowest = warmth(checked.season.lowest);
    let span = warmth(checked.season.highest) - lowest;
    temperatures(lowest, span, weights_table())
}

// Of values by mark those of the marks before 14:00, by distance from it.
pub fn by_distance(values: &[u64; 48]) -> [u64; 25]
    ensures { result ≡ tab (λ (d : ℕ). at values.now (ahead d)) 25 }
{
    array::from_fn(|d| values[WARMEST - d])
}

// At each mark the value of its distance from 14:00.
fn by_mark(values: &[u64; 25]) -> [u64; 48]
    ensures { result ≡ tab (λ (i : ℕ). at values.now (apart i)) 48 }
{
    array::from_fn(|i| values[apart(i)])
}

// The rise of E(0.0716 T) from each mark to the next, where it rises.
fn steps(heats: &[u64; 48]) -> [u64; 48]
    ensures { result ≡ tab (λ (i : ℕ). at heats.now ((i + 1) % 48) - at heats.now i) 48 }
{
    array::from_fn(|i| heats[(i + 1) % 48].saturating_sub(heats[i]))
}

// E(0.004 vp), vp in tenths of kPa.
fn pressure_factor(vp: u64) -> u64
    requires { vp ≤ vp_limit }
    ensures { (result ≡ pressure_factor vp) × (result < 2 ^ 46) }
{
    exponential(4 * vp * TEN_BILLION + ZERO)
}

// The values of a season, each computed once for all marks of one temperature. Not inlined, so that its arrays take stack only while it
// runs.
#[inline(never)]
pub fn at_marks(checked: CheckedSeason) -> MarkValues
    ensures { AtMarks checked.season result }
{
    let temperature = season_temperatures(checked);
    let warmths = Warmths::of_marks(&temperature);
    let heats = warmths.heats();
    let exponential = by_mark(&heats.by_distance);
    let step = steps(&exponential);
    let pressure = pressure_factor(checked.season.vp);
    let hourly = warmths.rates(pressure, 0);
    MarkValues {
        marks: Marks {
            temperature,
            exponential,
        },
        warmths,
        step,
        rate: by_mark(&hourly),
        soak: warmths.rates(pressure, 110 * TENTH),
        run: warmths.rates(pressure, 150 * TENTH),
        raises: CanisterRaises {
            raise10: warmths.raises(&heats, 10 * TENTH),
            raise15: warmths.raises(&heats, 15 * TENTH),
            raise25: warmths.raises(&heats, 25 * TENTH),
            raise35: warmths.raises(&heats, 35 * TENTH),
            raise45: warmths.raises(&heats, 45 * TENTH),
            raise60: warmths.raises(&heats, 60 * TENTH),
        },
        raise50: warmths.raises(&heats, 50 * TENTH),
    }
}

// The temperatures of a day by distance from 14:00: marks as far from it have one temperature, so that a day has 25.
ghost use Rattle.std.specs.Prelude.{◌≡◌, ℕ, ◌+◌, ◌*◌, ◌-◌, ◌/◌, ◌^◌, ◌<◌, ◌≤◌};
ghost use Rattle.numbers.specs.Lists.{tab, at};
ghost use Rattle.numbers.specs.Bounded.{AllAtMost};
ghost use Rattle.bounds.specs.Ahead.{ahead};
ghost use Rattle.marks.specs.Marks.{heat, raised_error, bracket_units};

use crate::by_distance;
use bounds::exp::exponential;
use bounds::fixed::mul_shift;
use bounds::power::power;
use std::array;

// In units of 10^-10 °C above -30 °C.
#[derive(Clone, Copy)]
pub struct Warmths {
    pub by_distance: [u64; 25],
    ghost temperate: { AllAtMost (80 * 10 ^ 10) by_distance },
}

// E(0.0716 T) at each of them, in units of 2^-40.
#[derive(Clone, Copy)]
pub struct Heats {
    pub by_distance: [u64; 25],
    ghost moderate: { AllAtMost (56 * 2 ^ 40) by_distance },
}

// The rise of E(0.0716 T) at each of them when T is raised, in units of 2^-40. A type of its own, though it has the shape of
// `Heats`: where a rise is asked for, an exponential is refused.
#[derive(Clone, Copy)]
pub struct Raises {
    pub by_distance: [u64; 25],
    ghost moderate: { AllAtMost (56 * 2 ^ 40) by_distance },
}

// E(0.0716 T): the exponent in units of 10^-14 above -16 is 716 for each unit of T + 30 °C, and this at -30 °C.
const COLDEST: u64 = 1385200000000000;

// 6.1656 * 10^-6 * 2^56, cut, and 0.0206 * 2^40, cut.
const POWER_RATE: u64 = 444278301800;

const CONSTANT_RATE: u64 = 22649939532;

// How far E(0.0716 T) can be above `heat_at`, up to 56 °C.
const RAISED_ERROR: u64 = 475;

// E(0.0716 T), up to 56 °C.
fn heat_at(warmth: u64) -> u64
    requires { warmth ≤ 86 * 10 ^ 10 }
    ensures { (result ≡ heat warmth) × (result ≤ 56 * 2 ^ 40) }
{
    exponential(716 * warmth + COLDEST)
}

// Permeation per hour where E(0.004 vp) is `pressure`, up to 65 °C.
#[tactic(auto, unfolding(crate::specs::Marks::bracket_units))]
fn rate_at(pressure: u64, warmth: u64) -> u64
    requires { (pressure < 2 ^ 46) × (warmth ≤ 95 * 10 ^ 10) }
    ensures { result ≡ pressure * bracket_units warmth / 2 ^ 40 }
{
    mul_shift(
        pressure,
        mul_shift(power(warmth), POWER_RATE) + CONSTANT_RATE,
    )
}

impl Warmths {
    // Of temperatures by mark those of the marks before 14:00.
    pub fn of_marks(temperatures: &[u64; 48]) -> Warmths
        requires { AllAtMost (80 * 10 ^ 10) temperatures.now }
        ensures { result.by_distance ≡ tab (λ (d : ℕ). at temperatures.now (ahead d)) 25 }
    {
        Warmths {
            by_distance: by_distance(temperatures),
        }
    }

    // E(0.0716 T) at each.
    pub fn heats(&self) -> Heats
        ensures { result.by_distance ≡ tab (λ (d : ℕ). heat (at self.now.by_distance d)) 25 }
    {
        Heats {
            by_distance: array::from_fn(|d| heat_at(self.by_distance[d])),
        }
    }

    // The rise of E(0.0716 T) at each when T is raised.
    pub fn raises(&self, heats: &Heats, raise: u64) -> Raises
        requires { raise ≤ 6 * 10 ^ 10 }
        ensures { result.by_distance ≡ tab (λ (d : ℕ). heat (at self.now.by_distance d + raise) - (at heats.now.by_distance d + raised_error)) 25 }
    {
        Raises {
            by_distance: array::from_fn(|d| {
                let raised = heat_at(self.by_distance[d] + raise);
                raised.saturating_sub(heats.by_distance[d] + RAISED_ERROR)
            }),
        }
    }

    // Permeation per hour at each, the temperature raised, where E(0.004 vp) is `pressure`.
    pub fn rates(&self, pressure: u64, raise: u64) -> [u64; 25]
        requires { (pressure < 2 ^ 46) × (raise ≤ 15 * 10 ^ 10) }
        ensures { result ≡ tab (λ (d : ℕ). pressure * bracket_units (at self.now.by_distance d + raise) / 2 ^ 40) 25 }
    {
        array::from_fn(|d| rate_at(pressure, self.by_distance[d] + raise))
    }
}

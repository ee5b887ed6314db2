// A season's a and b at each temperature of a day, and a row's canister by them.
ghost use Rattle.std.specs.Prelude.{◌≡◌, ℕ, ◌*◌, ◌^◌, ◌<◌, ◌≤◌};
ghost use Rattle.sheet.specs.Limits.{vp_limit};
ghost use Rattle.factors.specs.Escape.{tenth_grams};
ghost use Rattle.factors.specs.Units.{row_start, loss_error};
ghost use Rattle.breakthrough.specs.Lines.{line_of_warmth, line_at, CurveBy, FitReady};
ghost use Rattle.breakthrough.specs.Through.{curve_at};
ghost use Rattle.numbers.specs.Lists.{at};

use crate::curve::{Curve, TWO_4};
use crate::curves::Curves;
use crate::loads::{LoadedRow, loss_error, start_load, tenth_grams};
use bounds::fixed::mul_shift;
use bounds::short::{self, binary};
use marks::warmths::Warmths;
use starting_loads::loads::Line;
use std::array;

// a at -30 °C and a vapour pressure of 0; what it gains with each unit of warmth; and what it loses with each tenth of a kPa.
const BASE: u64 = 305000000000000;

const BASE_BY_WARMTH: u64 = 650;

const BASE_BY_PRESSURE: u64 = 150000000000;

// The same of b, which gains 1 with each unit of warmth.
const GROWTH: u64 = 11200000000000;

const GROWTH_BY_PRESSURE: u64 = 1500000000;

// From units of 2^-45 to units of 2^-36.
const TWO_9: u64 = 512;

// a and 2 b s at a temperature, for 2 s = times.
#[tactic(auto, unfolding(crate::specs::Lines::line_of_warmth, factors::specs::Escape::base))]
fn line_of_warmth(warmth: u64, vp: u64, times: u64) -> Line
    requires { (warmth ≤ 80 * 10 ^ 10) × (vp ≤ vp_limit) × (times ≤ 4) }
    ensures { result ≡ line_of_warmth vp times warmth }
{
    Line {
        base: binary(BASE + BASE_BY_WARMTH * warmth - BASE_BY_PRESSURE * vp),
        growth: binary((GROWTH + warmth - GROWTH_BY_PRESSURE * vp) * times),
    }
}

// The same at each distance from 14:00. The pressure is a number with its limit, and no season: a's and b's line takes nothing else of one.
pub fn lines(warmths: &Warmths, vp: u64, times: u64) -> [Line; 25]
    requires { (vp ≤ vp_limit) × (times ≤ 4) }
    ensures { (d : ℕ) → d < 25 → line_at result d ≡ line_of_warmth vp times (at warmths.now.by_distance d) }
{
    array::from_fn(|d| line_of_warmth(warmths.by_distance[d], vp, times))
}

// A row's canister at one temperature, with so much vapour in its tank for a rise of 1.
fn curve_of(line: Line, row: LoadedRow, vapour: u64) -> Curve
    requires { FitReady row.row line.base line.growth vapour }
    ensures { CurveBy line.base line.growth (row_start row.row line.base line.growth)
        (tenth_grams row.row.saturation) vapour (loss_error row.row) result }
{
    let load = start_load(row, line);
    let saturation = tenth_grams(row.row.saturation);
    let exponent = short::line(line.base, line.growth, load);
    Curve {
        exponent,
        last: short::line(line.base, line.growth, saturation),
        reach: mul_shift(line.growth, vapour) / TWO_9,
        room: saturation + 1 - load,
        first: short::short(exponent) * TWO_4 + loss_error(row.row),
        gain: vapour,
    }
}

// The same at each distance from 14:00.
pub fn fit(lines: &[Line; 25], row: LoadedRow, vapour: u64) -> Curves
    requires { (d : ℕ) → d < 25 → FitReady row.row (line_at lines.now d).base (line_at lines.now d).growth vapour }
    ensures { (d : ℕ) → d < 25 → CurveBy (line_at lines.now d).base (line_at lines.now d).growth
        (row_start row.row (line_at lines.now d).base (line_at lines.now d).growth)
        (tenth_grams row.row.saturation) vapour (loss_error row.row) (curve_at result.by_distance d) }
{
    Curves {
        by_distance: array::from_fn(|d| curve_of(lines[d], row, vapour)),
    }
}

// What a season gives to every row: its day, the rises of its parkings, and the means that no row changes.
ghost use Rattle.std.specs.Prelude.{◌≡◌, ℕ, ◌/◌, ◌^◌};
ghost use Rattle.numbers.specs.Bounded.{AllAtMost};
ghost use Rattle.marks.specs.AtMarks.{AtMarks};
ghost use Rattle.factors.specs.Means.{mean_units};
ghost use Rattle.parking.specs.Grid.{passed_in};
ghost use Rattle.row_factors.specs.Season.{MeansOf, rises_of, DayReady, SeasonReady};

use breakthrough::fitting::lines;
use exact::Season;
use fields::range::CheckedSeason;
use marks::{CanisterRaises, MarkValues, Marks, at_marks};
use parking::cells::Moment;
use parking::grid::Grid;
use parking::walk::{rises, walk};
use starting_loads::loads::Line;
use std::array;

// Means over the cells, in units of 2^-28. Each has a name of its own, since a car and a two-wheeler read different ones.
#[derive(Clone, Copy)]
pub struct Means {
    // The rise of E(0.0716 T) in a parking.
    pub rise: u64,
    // Permeation in grams: in a parking, in an hour at T1 + 11, and in an hour at T2 + 15.
    pub permeation: u64,
    pub soak: u64,
    pub run: u64,
    // The rise of E(0.0716 T) when T is raised by so many tenths of a degree, from the start or from the end of a parking.
    pub end10: u64,
    pub start15: u64,
    pub end25: u64,
    pub start35: u64,
    pub start45: u64,
    pub end50: u64,
    pub start60: u64,
}

// What the rows of a season read at its 25 temperatures, by distance from 14:00.
#[derive(Clone, Copy)]
pub struct Day {
    // a and 2 b s of a large, a medium and a small canister.
    pub large: [Line; 25],
    pub medium: [Line; 25],
    pub small: [Line; 25],
    pub raises: CanisterRaises,
}

// A season as the functions of its rows have it: its 48 temperatures with their exponential bounds, and what is derived from them.
#[derive(Clone, Copy)]
pub struct AtSeason {
    pub season: Season,
    // No row reads them here: `SeasonRows` has them by value, as document 01 names the form, two arrays made once a season and passed to the
    // functions of a factor.
    pub marks: Marks,
    pub day: Day,
    pub means: Means,
}

// With the rises of the season's parkings, of which a list is made where a row with a canister is to read it.
#[derive(Clone, Copy)]
pub struct Prepared {
    pub rises: [u64; 576],
    pub at: AtSeason,
}

// The day of a season that has these values at its marks. Not inlined, so that its arrays take stack only while it runs.
#[inline(never)]
fn day_of(checked: CheckedSeason, values: &MarkValues) -> Day
    requires { AtMarks checked.season values.now }
    ensures { DayReady checked.season result }
{
    let vp = checked.season.vp;
    Day {
        large: lines(&values.warmths, vp, 1),
        medium: lines(&values.warmths, vp, 2),
        small: lines(&values.warmths, vp, 4),
        raises: values.raises,
    }
}

// The permeation in a parking: half of the hourly rates at its marks. Not inlined, so that its arrays take stack only while it runs.
#[inline(never)]
fn permeation_mean(grid: &Grid, rates: &[u64; 48]) -> u64
    requires { AllAtMost (2 ^ 40) rates.now }
    ensures { result ≡ mean_units grid.now.cells.counts (λ (cell : ℕ). passed_in rates.now cell / 2) }
{
    let all = walk(rates);
    let halves = array::from_fn(|cell| all.passed[cell] / 2);
    grid.mean_by_cell(&halves)
}

// The means of a season, from the rises of its parkings and its values at the marks.
fn means_of(grid: &Grid, rises: &[u64; 576], checked: CheckedSeason, values: &MarkValues) -> Means
    requires { AtMarks checked.season values.now × (rises.now ≡ rises_of checked.season) }
    ensures { MeansOf checked.season grid.now.cells.counts result }
{
    Means {
        rise: grid.mean_by_cell(rises),
        permeation: permeation_mean(grid, &values.rate),
        soak: grid.mean_by_distance(Moment::Start, &values.soak),
        run: grid.mean_by_distance(Moment::End, &values.run),
        end10: grid.mean_by_distance(Moment::End, &values.raises.raise10.by_distance),
        start15: grid.mean_by_distance(Moment::Start, &values.raises.raise15.by_distance),
        end25: grid.mean_by_distance(Moment::End, &values.raises.raise25.by_distance),
        start35: grid.mean_by_distance(Moment::Start, &values.raises.raise35.by_distance),
        start45: grid.mean_by_distance(Moment::Start, &values.raises.raise45.by_distance),
        end50: grid.mean_by_distance(Moment::End, &values.raise50.by_distance),
        start60: grid.mean_by_distance(Moment::Start, &values.raises.raise60.by_distance),
    }
}

// A season as the functions of its rows have it, made once for all of them.
pub fn prepare(grid: &Grid, checked: CheckedSeason) -> Prepared
    ensures { (result.at.season ≡ checked.season) × SeasonReady grid.now.cells.counts result.at × (result.rises ≡ rises_of checked.season) }
{
    let values = at_marks(checked);
    let rises = rises(&values.step);
    let day = day_of(checked, &values);
    let means = means_of(grid, &rises, checked, &values);
    let marks = values.marks;
    let at = AtSeason {
        season: checked.season,
        marks,
        day,
        means,
    };
    Prepared { rises, at }
}

// The three kinds of cell: made of two doubles, and taken apart.
ghost use Rattle.std.specs.Prelude.{◌≡◌, ◌≤◌};
ghost use Rattle.map_cells.specs.Between.{LowAndHigh, cell_between};
ghost use Rattle.map_cells.specs.Cells.{exact_masses, band_masses, masses_of};
ghost use Rattle.map_cells.specs.Doubles.{mass_limit, whole_of};
ghost use Rattle.map_cells.specs.Sums.{cell_refusal};
ghost use Rattle.map_cells.specs.Taken.{Taken};

use crate::Cell;
use crate::doubles::WholeMass;
use refusals::{Refusal, Rule, refuse};

// Two doubles that are a low and a high mass, in this order.
#[derive(Clone, Copy)]
pub struct Limits {
    pub low: f64,
    pub high: f64,
    ghost masses: { ∥ LowAndHigh low high ∥₁ },
}

// The low and the high of a cell, in whole milligrams.
#[derive(Clone, Copy)]
pub struct Masses {
    pub low: u64,
    pub high: u64,
    ghost order: { low ≤ high },
    ghost limit: { high ≤ mass_limit },
}

// Empty where the high is 0, one mass where low and high are equal.
impl From<Limits> for Cell {
    ghost from_gives = { λ l c. c ≡ cell_between l.low l.high };

    fn from(limits: Limits) -> Cell {
        let low = limits.low;
        let high = limits.high;
        if high == 0.0 {
            return Cell::Empty;
        }
        if low == high {
            Cell::Exact(low)
        } else {
            Cell::Band(low, high)
        }
    }
}

// One mass: it is above 0.
fn exact_masses(m: f64) -> Result<Masses, Refusal>
    ensures { Taken (λ v. (v.low, v.high)) cell_refusal (exact_masses (whole_of m)) result }
{
    let n = WholeMass::try_from(m)?.milligrams;
    refuse(n == 0, Rule::Cell, 0)?;
    Ok(Masses { low: n, high: n })
}

// A low and a high: the low is below the high.
fn band_masses(l: f64, h: f64) -> Result<Masses, Refusal>
    ensures { Taken (λ v. (v.low, v.high)) cell_refusal (band_masses (whole_of l) (whole_of h)) result }
{
    let low = WholeMass::try_from(l)?.milligrams;
    let high = WholeMass::try_from(h)?.milligrams;
    refuse(high <= low, Rule::Cell, 0)?;
    Ok(Masses { low, high })
}

// A cell handed in, taken apart: its low and high, where it is one of the three kinds.
impl TryFrom<Cell> for Masses {
    type Error = Refusal;

    ghost try_from_gives = { λ c r. Taken (λ v. (v.low, v.high)) cell_refusal (masses_of c) r };

    fn try_from(c: Cell) -> Result<Masses, Refusal> {
        match c {
            Cell::Empty => Ok(Masses { low: 0, high: 0 }),
            Cell::Exact(m) => exact_masses(m),
            Cell::Band(l, h) => band_masses(l, h),
        }
    }
}

// The sum of two cells.
ghost use Rattle.std.specs.Prelude.{◌≡◌, Some};
ghost use Rattle.map_cells.specs.Sums.{masses_sum, cell_sum};
ghost use Rattle.map_cells.specs.Promise.{SumPromise};

use crate::doubles::{MASS_LIMIT, WholeMass, add_whole};
use crate::kinds::{Limits, Masses};
use crate::{Cell, CellAnswer};
use refusals::{Refusal, Rule, refuse};

// Lows and highs, added as doubles.
fn add_masses(a: Masses, b: Masses) -> CellAnswer
    ensures { result ≡ masses_sum (Some (a.low, a.high)) (Some (b.low, b.high)) }
{
    refuse(MASS_LIMIT < a.high + b.high, Rule::Cell, 0)?;
    let low = add_whole(
        WholeMass { milligrams: a.low },
        WholeMass { milligrams: b.low },
    );
    let high = add_whole(
        WholeMass { milligrams: a.high },
        WholeMass { milligrams: b.high },
    );
    Ok(Cell::from(Limits { low, high }))
}

// The sum of two cells handed in, or a refusal.
pub fn add_cells(a: Cell, b: Cell) -> CellAnswer
    ensures { (result ≡ cell_sum a b) × SumPromise a b result }
{
    let first = Masses::try_from(a)?;
    let second = Masses::try_from(b)?;
    add_masses(first, second)
}

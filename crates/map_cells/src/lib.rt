// Cells for a map of emissions: nothing, one mass or a low and a high one, in doubles that are whole milligrams; and their sums.
#![tactic(auto)]

ghost use Rattle.std.specs.Prelude.{◌≡◌};
ghost use Rattle.map_cells.specs.Sums.{cell_refusal};

use refusals::{Refusal, Rule};

pub mod doubles;
pub mod kinds;
pub mod sums;

// A cell of the map, in milligrams.
#[derive(Clone, Copy)]
pub enum Cell {
    Empty,
    Exact(f64),
    Band(f64, f64),
}

// What the sum of two cells answers: a cell, or why it is refused.
pub type CellAnswer = Result<Cell, Refusal>;

// Why a cell, a mass of it or a sum is refused.
pub fn cell_refusal() -> Refusal
    ensures { result ≡ cell_refusal }
{
    Refusal {
        rule: Rule::Cell,
        place: 0,
    }
}

// The calls of the map on what is handed in.
ghost use Rattle.std.specs.Prelude.{◌≡◌};
ghost use Rattle.boundary.specs.Cells.{cell_handed, handed_sum, travel_handed, handed_row};

use boundary::{EvpCell, EvpTravel};
use map_cells::Cell;
use map_cells::sums::add_cells;
use map_rows::{RowCells, cells_of_row};
use map_shares::{Travel, Words};
use refusals::Refusal;

// The sum of two cells handed in, or a refusal where one of them is none.
pub fn handed_sum(a: EvpCell, b: EvpCell) -> Result<Cell, Refusal>
    ensures { result ≡ handed_sum (cell_handed a) (cell_handed b) }
{
    let first = Cell::try_from(a)?;
    let second = Cell::try_from(b)?;
    add_cells(first, second)
}

// The cells of a row, or a refusal where it is not told where its vehicles drive.
pub fn handed_row(w: Words, t: EvpTravel) -> Result<RowCells, Refusal>
    ensures { result ≡ handed_row w (travel_handed t) }
{
    let travel = Travel::try_from(t)?;
    cells_of_row(w, travel)
}

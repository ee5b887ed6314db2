// The cells of the map for a program in another language: structs by value of numbers and doubles, no enum.
ghost use Rattle.boundary.specs.Cells.{RowCellsNumbers, CellSumNumbers};

use boundary::{EvpCell, EvpCellSum, EvpRowCells, EvpTravel};
use boundary_calls::map::{handed_row, handed_sum};
use map_shares::Words;

// The urban, rural and highway cells of a row.
#[unsafe(no_mangle)]
pub extern "C" fn evp_cells_of_row(words: Words, travel: EvpTravel) -> EvpRowCells
    ensures { RowCellsNumbers words travel result }
{
    EvpRowCells::from(handed_row(words, travel))
}

// The sum of two cells.
#[unsafe(no_mangle)]
pub extern "C" fn evp_add_cells(a: EvpCell, b: EvpCell) -> EvpCellSum
    ensures { CellSumNumbers a b result }
{
    EvpCellSum::from(handed_sum(a, b))
}

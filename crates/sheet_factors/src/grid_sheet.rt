// An accepted sheet with its grid, which is made once, and its seasons and rows as the factors read them.
ghost use Rattle.std.specs.Prelude.{◌≡◌, ◌<◌};
ghost use Rattle.parking.specs.Grid.{CellsInRange};
ghost use Rattle.sheet.specs.Bytes.{seasons_of, rows_of, cells_of, row_at};
ghost use Rattle.sheet_factors.specs.Ready.{SeasonOf};

use breakthrough::loads::{LoadedRow, kept_of};
use checks::accepted::Accepted;
use fields::{duration_counts, grid_counts, has_grid, hour_counts};
use parking::cells::{Cells, products};
use parking::grid::Grid;
use row_factors::season::{Prepared, prepare};

#[derive(Clone, Copy)]
pub struct GridSheet<'a> {
    pub sheet: Accepted<'a>,
    pub grid: Grid,
    ghost cells_are: { grid.cells.counts ≡ cells_of sheet.bytes.now },
}

// The counts of the grid, or the products of the two lists of a sheet that has none.
#[tactic(auto, using(checks::proofs::Reading::reading))]
fn cells_of(sheet: Accepted) -> [u64; 576]
    ensures { (result ≡ cells_of sheet.entry.bytes.now) × CellsInRange result }
{
    let s = sheet.bytes;
    if has_grid(s) {
        grid_counts(s)
    } else {
        products(duration_counts(s), hour_counts(s))
    }
}

impl<'a> GridSheet<'a> {
    // Of an accepted sheet.
    pub fn new(sheet: Accepted<'a>) -> GridSheet<'a>
        ensures { result.sheet.bytes.now ≡ sheet.entry.bytes.now }
    {
        let counts = cells_of(sheet);
        let grid = Grid::new(Cells { counts });
        GridSheet { sheet, grid }
    }

    // Season j, made ready for its rows. By its number, not by an iterator over the seasons: `units_with` and `each_row` are each asked for one.
    pub fn season(&self, j: usize) -> Prepared
        requires { j < seasons_of self.now.sheet.bytes.now }
        ensures { SeasonOf self.now.sheet.bytes.now self.now.grid.cells.counts j result }
    {
        prepare(&self.grid, self.sheet.season(j))
    }

    // Row i, with what its canister keeps of its load.
    pub fn row(&self, i: usize) -> LoadedRow
        requires { i < rows_of self.now.sheet.bytes.now }
        ensures { result.row ≡ row_at self.now.sheet.bytes.now i }
    {
        let row = self.sheet.row(i);
        let kept = kept_of(row);
        LoadedRow { row, kept }
    }
}

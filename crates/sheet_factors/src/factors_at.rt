// The seven factors of a season and a row of an accepted sheet.
ghost use Rattle.std.specs.Prelude.{◌≡◌, ◌<◌};
ghost use Rattle.parking.specs.SeasonList.{ListBreathes};
ghost use Rattle.row_factors.specs.Seven.{seven_units};
ghost use Rattle.sheet.specs.Bytes.{seasons_of, rows_of, cells_of, season_at, row_at};
ghost use Rattle.sheet.specs.Range.{halves};

use crate::grid_sheet::GridSheet;
use breakthrough::loads::LoadedRow;
use checks::accepted::Accepted;
use exact::Canister;
use parking::grid::Grid;
use parking::season_list::SeasonList;
use row_factors::rows::SeasonRows;
use row_factors::units::Units;

// The list of a season's parkings, where a row with this canister is to read it. Without one nothing does, and none is made.
fn list_for(grid: &Grid, rises: &[u64; 576], canister: Option<Canister>) -> SeasonList
    ensures { 0 < halves canister → ListBreathes grid.now.cells.counts rises.now result }
{
    match canister {
        None => SeasonList::EMPTY,
        Some(_) => SeasonList::new(grid, rises),
    }
}

// Of row i with what its canister keeps of its load, in units of 2^-28 g.
pub fn units_with(sheet: &GridSheet, season: usize, i: usize, row: LoadedRow) -> Units
    requires { (season < seasons_of sheet.now.sheet.bytes.now) × (i < rows_of sheet.now.sheet.bytes.now) ×
        (row.row ≡ row_at sheet.now.sheet.bytes.now i) }
    ensures { result.factors ≡ seven_units (season_at sheet.now.sheet.bytes.now season) (row_at sheet.now.sheet.bytes.now i)
        (cells_of sheet.now.sheet.bytes.now) }
{
    let prepared = sheet.season(season);
    let list = list_for(&sheet.grid, &prepared.rises, row.row.canister);
    let rows = SeasonRows {
        grid: &sheet.grid,
        list: &list,
        marks: prepared.at.marks,
        at: &prepared.at,
    };
    rows.units(row)
}

// The same from the sheet alone.
pub fn factors_at(sheet: Accepted, season: usize, row: usize) -> Units
    requires { (season < seasons_of sheet.bytes.now) × (row < rows_of sheet.bytes.now) }
    ensures { result.factors ≡ seven_units (season_at sheet.entry.bytes.now season) (row_at sheet.entry.bytes.now row)
        (cells_of sheet.entry.bytes.now) }
{
    let sheet = GridSheet::new(sheet);
    units_with(&sheet, season, row, sheet.row(row))
}

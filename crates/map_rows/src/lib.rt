// A row's urban, rural and highway cells, from its six words of the report and where its vehicles drive.
#![tactic(auto)]

ghost use Rattle.std.specs.Prelude.{◌≡◌};
ghost use Rattle.map_rows.specs.Promise.{RowCellsPromise};
ghost use Rattle.map_rows.specs.Rows.{row_cells_answer};

use crate::shares::row_shares;
use checks::{CheckedTravel, CheckedWords};
use map_cells::Cell;
use map_cells::kinds::Limits;
use map_shares::{Roads, Travel, Words};
use refusals::Refusal;
use sums::share_out;

pub mod checks;
pub mod roads;
mod shares;
mod split;
mod sums;

// The lows and highs of the three road kinds of one row, as doubles.
pub type RoadLimits = Roads<Limits>;

// The three cells of one row.
pub type RowCells = Roads<Cell>;

// What the call for the cells of a row answers: the three, or why they are refused.
pub type RowCellsAnswer = Result<RowCells, Refusal>;

// The cells of a row, or a refusal: 28 before 27.
pub fn cells_of_row(w: Words, t: Travel) -> RowCellsAnswer
    ensures { (result ≡ row_cells_answer w t) × RowCellsPromise w t result }
{
    let travel = CheckedTravel::try_from(t)?;
    let words = CheckedWords::try_from(w)?;
    share_out(row_shares(words, travel))
}

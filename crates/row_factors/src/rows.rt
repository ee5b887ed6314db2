// A season for the factors of its rows.
ghost use Rattle.marks.specs.AtMarks.{MarksOf};
ghost use Rattle.row_factors.specs.Season.{SeasonReady};

use crate::season::AtSeason;
use marks::Marks;
use parking::grid::Grid;
use parking::season_list::SeasonList;

// The grid of the sheet, the list of the season's parkings, which rows with a canister read, and what is made of the season once. That a row
// is ready in it, RowReady, is required by four methods, one of them public: a type of the two would be made from the same fact for one call.
#[derive(Clone, Copy)]
pub struct SeasonRows<'a> {
    pub grid: &'a Grid,
    pub list: &'a SeasonList,
    // The 48 temperatures of the season and their exponential bounds, two arrays by value, as document 01 names them. What the rows read is
    // derived from them and passed by reference, so that a row copies these two arrays alone.
    pub marks: Marks,
    pub at: &'a AtSeason,
    ghost marks_of: { MarksOf at.now.season marks },
    ghost ready: { SeasonReady grid.now.cells.counts at.now },
}

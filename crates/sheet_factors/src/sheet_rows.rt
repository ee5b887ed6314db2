// An accepted sheet with what the canisters of its rows keep of their loads. A mileage says it, whatever the season, so it is found once a row.
ghost use Rattle.std.specs.Prelude.{◌≡◌, ℕ, ◌*◌, ◌<◌, ◌≤◌, length, drop};
ghost use Rattle.std.specs.Fork.{slice_chunk};
ghost use Rattle.sheet.specs.Bytes.{seasons_of, rows_of, row_at};
ghost use Rattle.row_factors.specs.Season.{RowReady};
ghost use Rattle.row_factors.specs.Seven.{seven_units};
ghost use Rattle.sheet_factors.specs.Ready.{RowsKept, AcceptsRow, ChangesRow, units_at};

use crate::grid_sheet::GridSheet;
use blocks::fill_blocks;
use breakthrough::loads::LoadedRow;
use checks::accepted::Accepted;
use masses::figures::UsedRow;
use parking::season_list::SeasonList;
use row_factors::rows::SeasonRows;
use row_factors::units::Units;

#[derive(Clone, Copy)]
pub struct SheetRows<'a> {
    pub sheet: GridSheet<'a>,
    // Of 1,000 rows, the most that a sheet has: there is no heap.
    pub kept: [u64; 1000],
    ghost kept_of: { RowsKept sheet.sheet.bytes.now kept },
}

// What the canister of each row keeps.
fn rows_kept(sheet: &GridSheet) -> [u64; 1000]
    ensures { RowsKept sheet.now.sheet.bytes.now result }
{
    let rows = sheet.sheet.rows();
    let mut out = [0u64; 1000];
    for i in 0..rows {
        out[i] = sheet.row(i).kept;
    }
    out
}

impl<'a> SheetRows<'a> {
    // Of an accepted sheet. Not inlined, so that its arrays take stack only while it runs.
    #[inline(never)]
    pub fn new(sheet: Accepted<'a>) -> SheetRows<'a>
        ensures { result.sheet.sheet.bytes.now ≡ sheet.entry.bytes.now }
    {
        let sheet = GridSheet::new(sheet);
        let kept = rows_kept(&sheet);
        SheetRows { sheet, kept }
    }

    // Row i.
    #[tactic(auto, using(checks::proofs::Reading::reading))]
    pub fn row(&self, i: usize) -> LoadedRow
        requires { i < rows_of self.now.sheet.sheet.bytes.now }
        ensures { result.row ≡ row_at self.now.sheet.sheet.bytes.now i }
    {
        LoadedRow {
            row: self.sheet.sheet.row(i),
            kept: self.kept[i],
        }
    }

    // Season j, made ready once for all rows: `fill` gets each row, its seven factors in units of 2^-28 g, and its part of a buffer, which
    // has `size` words for each row.
    pub fn each_row<F: Fn(UsedRow, Units, &mut [u64])>(
        &self,
        j: usize,
        size: usize,
        words: &mut [u64],
        fill: F,
    )
        requires season { j < seasons_of self.now.sheet.sheet.bytes.now }
        requires room { rows_of self.now.sheet.sheet.bytes.now * size ≤ length words.old }
        requires accepts { (i : ℕ) → i < rows_of self.now.sheet.sheet.bytes.now
            → AcceptsRow F.Fn fill (row_at self.now.sheet.sheet.bytes.now i) (units_at self.now.sheet.sheet.bytes.now j i)
            (slice_chunk words.old size i) }
        ensures rows { (i : ℕ) → i < rows_of self.now.sheet.sheet.bytes.now
            → ChangesRow F.Fn fill (row_at self.now.sheet.sheet.bytes.now i) (units_at self.now.sheet.sheet.bytes.now j i)
            (slice_chunk words.old size i) (slice_chunk words.new size i) }
        ensures rest { drop (rows_of self.now.sheet.sheet.bytes.now * size) words.new
            ≡ drop (rows_of self.now.sheet.sheet.bytes.now * size) words.old }
    {
        let sheet = &self.sheet;
        let season = sheet.season(j);
        let list = SeasonList::new(&sheet.grid, &season.rises);
        let in_season = SeasonRows {
            grid: &sheet.grid,
            list: &list,
            marks: season.at.marks,
            at: &season.at,
        };
        let fill_row = |i: usize, part: &mut [u64]|
            requires { let row = row_at self.now.sheet.sheet.bytes.now i in let counts = in_season.grid.now.cells.counts in
                (i < rows_of self.now.sheet.sheet.bytes.now) × RowReady counts in_season.list.now in_season.at.now.season row
                × AcceptsRow F.Fn fill row (seven_units in_season.at.now.season row counts) part.now }
            ensures { let row = row_at self.entry.now.sheet.sheet.bytes.now i in ChangesRow F.Fn fill row
                (seven_units in_season.entry.at.now.season row in_season.entry.grid.now.cells.counts) part.entry.now part.exit.now }
        {
            let loaded = self.row(i);
            let units = in_season.units(loaded);
            fill(UsedRow { loaded }, units, part);
        };
        fill_blocks(words, size, sheet.sheet.rows(), fill_row);
    }
}

// One row of a report made anew, apart from the others, and the sums with it.
ghost use Rattle.std.specs.Prelude.{◌≡◌, ◌+◌, ◌*◌, ◌<◌, ◌≤◌, length};
ghost use Rattle.numbers.specs.Lists.{tab};
ghost use Rattle.sheet.specs.Bytes.{seasons_of, rows_of, cells_of, season_at, row_at};
ghost use Rattle.masses.specs.Day.{day_figures};
ghost use Rattle.report_words.specs.Report.{words_of};
ghost use Rattle.report_sums.specs.Renewed.{renewed};
ghost use Rattle.report_sums.specs.RowYear.{row_year};

use crate::write_sums;
use breakthrough::loads::LoadedRow;
use checks::accepted::Accepted;
use masses::figures::UsedRow;
use report_words::words::{ROW_WORDS, six_words};
use report_words::year::add_days;
use sheet_factors::factors_at::units_with;
use sheet_factors::grid_sheet::GridSheet;

// What one vehicle of row i loses on a day of season j.
fn day_of(sheet: &GridSheet, j: usize, i: usize, row: LoadedRow) -> [u64; 6]
    requires { (j < seasons_of sheet.now.sheet.bytes.now) × (i < rows_of sheet.now.sheet.bytes.now) × (row.row ≡ row_at sheet.now.sheet.bytes.now i) }
    ensures { result ≡ day_figures (cells_of sheet.now.sheet.bytes.now) (season_at sheet.now.sheet.bytes.now j) (row_at sheet.now.sheet.bytes.now i) }
{
    let units = units_with(sheet, j, i, row);
    UsedRow { loaded: row }.six_figures(&units)
}

// What one vehicle of row i loses in the year: its figures of a day, for the days of each season.
fn year_of(sheet: &GridSheet, i: usize) -> [u64; 6]
    requires { i < rows_of sheet.now.sheet.bytes.now }
    ensures { result ≡ tab (row_year sheet.now.sheet.bytes.now i (seasons_of sheet.now.sheet.bytes.now)) 6 }
{
    let row = sheet.row(i);
    let mut year = [0u64; 6];
    let seasons = sheet.sheet.seasons();
    for j in 0..seasons {
        let figures = day_of(sheet, j, i, row);
        let days = sheet.sheet.season(j).season.days;
        add_days(&mut year, days, figures);
    }
    year
}

// The six words of row i: a low is cut down, a high cut up.
fn words_of(sheet: Accepted, i: usize) -> [u64; 6]
    requires { i < rows_of sheet.bytes.now }
    ensures { result ≡ words_of sheet.entry.bytes.now i }
{
    let mut six = year_of(&GridSheet::new(sheet), i);
    six_words(&mut six, sheet.vehicles(i));
    six
}

// Row i's words are made anew, and all sums with them, whatever the buffer holds.
pub fn renew_row(sheet: Accepted, words: &mut [u64], i: usize)
    requires { (i < rows_of sheet.bytes.now) × (6 * rows_of sheet.bytes.now + 26 ≤ length words.old) }
    ensures { words.new ≡ renewed sheet.entry.bytes.now i words.old }
{
    let place = ROW_WORDS * i;
    words[place..place + ROW_WORDS].copy_from_slice(&words_of(sheet, i));
    write_sums(sheet, words);
}

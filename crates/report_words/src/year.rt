// The figures of a year, added up season by season in the six words of each row.
ghost use Rattle.std.specs.Prelude.{◌≡◌, ℕ, ◌+◌, ◌*◌, ◌≤◌, ◌<◌, length};
ghost use Rattle.numbers.specs.Lists.{tab};
ghost use Rattle.sheet.specs.Bytes.{seasons_of, rows_of, season_at};
ghost use Rattle.masses.specs.Day.{six_figures};
ghost use Rattle.report_words.specs.Years.{RowsHold, SumsFit, SeasonFits, days_added, season_added, year_word, filled};

use crate::words::ROW_WORDS;
use checks::accepted::Accepted;
use masses::figures::UsedRow;
use row_factors::units::Units;
use sheet_factors::sheet_rows::SheetRows;

// The first n words are set to 0.
pub fn clear(words: &mut [u64], n: usize)
    requires { n ≤ length words.old }
    ensures { words.new ≡ filled (λ (k : ℕ). 0) n words.old }
{
    words[..n].fill(0);
}

// Six figures of a day, for so many days, are added to six words.
// By the place and not by `zip`: once a loop over `iter_mut().zip(figures)` has ended, a proof knows the length of the slice and not its words.
pub fn add_days(six: &mut [u64], days: u64, figures: [u64; 6])
    requires { (length six.old ≡ 6) × SumsFit six.old days figures }
    ensures { six.new ≡ tab (days_added six.old days figures) 6 }
{
    for (m, word) in six.iter_mut().enumerate() {
        *word += days * figures[m];
    }
}

// Season j: what one vehicle of a row loses on its days is added to the row's six words.
pub fn add_season(loaded: &SheetRows, j: usize, words: &mut [u64])
    requires { (j < seasons_of loaded.now.sheet.sheet.bytes.now) × (6 * rows_of loaded.now.sheet.sheet.bytes.now ≤ length words.old)
        × SeasonFits loaded.now.sheet.sheet.bytes.now (season_at loaded.now.sheet.sheet.bytes.now j) words.old }
    ensures { words.new ≡ filled (season_added loaded.now.sheet.sheet.bytes.now (season_at loaded.now.sheet.sheet.bytes.now j) words.old)
        (6 * rows_of loaded.now.sheet.sheet.bytes.now) words.old }
{
    let days = loaded.sheet.sheet.season(j).season.days;
    let add_row = |row: UsedRow, units: Units, six: &mut [u64]|
        requires { (length six.now ≡ 6) × SumsFit six.now days (six_figures row.loaded.row units.factors) }
        ensures { six.exit.now ≡ tab (days_added six.entry.now days (six_figures row.loaded.row units.factors)) 6 }
    { add_days(six, days, row.six_figures(&units)) };
    loaded.each_row(j, ROW_WORDS, words, add_row);
}

// All seasons. Each is added to the same words, so that they aren't the blocks of a buffer, one for each season.
fn add_seasons(loaded: &SheetRows, words: &mut [u64])
    requires { RowsHold (year_word loaded.now.sheet.sheet.bytes.now 0) loaded.now.sheet.sheet.bytes.now words.old }
    ensures { words.new ≡ filled (year_word loaded.now.sheet.sheet.bytes.now (seasons_of loaded.now.sheet.sheet.bytes.now))
        (6 * rows_of loaded.now.sheet.sheet.bytes.now) words.old }
{
    let seasons = loaded.sheet.sheet.seasons();
    for j in 0..seasons {
        add_season(loaded, j, words);
    }
}

// The whole year of an accepted sheet is added to words that are 0. The grid and what the rows' canisters keep are made once.
pub fn add_year(sheet: Accepted, words: &mut [u64])
    requires { RowsHold (year_word sheet.bytes.now 0) sheet.bytes.now words.old }
    ensures { words.new
        ≡ filled (year_word sheet.entry.bytes.now (seasons_of sheet.entry.bytes.now)) (6 * rows_of sheet.entry.bytes.now) words.old }
{
    let rows = SheetRows::new(sheet);
    add_seasons(&rows, words);
}

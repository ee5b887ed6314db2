// The report of each season of a sheet, one after another.
#![tactic(auto)]

ghost use Rattle.std.specs.Prelude.{◌≡◌, ◌+◌, ◌*◌, ◌≤◌, ◌<◌, length};
ghost use Rattle.refusals.specs.Check.{Pass};
ghost use Rattle.sheet.specs.Bytes.{seasons_of, rows_of};
ghost use Rattle.inventory.specs.ReportCall.{written};
ghost use Rattle.season_report.specs.Seasons.{season_report, report_seasons, seasons_length, SeasonsCall};

use blocks::fill_blocks;
use checks::accepted::Accepted;
use inventory::check::{report_length, sheet_with_room};
use refusals::Check;
use report_sums::write_sums;
use report_words::words::row_words;
use report_words::year::{add_season, clear};
use sheet_factors::sheet_rows::SheetRows;

// The report of season j alone, into a buffer of its size: the steps of the year's report with one season.
fn write_season(loaded: &SheetRows, j: usize, words: &mut [u64])
    requires { (j < seasons_of loaded.now.sheet.sheet.bytes.now) × (length words.old ≡ 6 * rows_of loaded.now.sheet.sheet.bytes.now + 26) }
    ensures { words.new ≡ season_report loaded.now.sheet.sheet.bytes.now j }
{
    let sheet = loaded.sheet.sheet;
    clear(words, 6 * sheet.rows());
    add_season(loaded, j, words);
    row_words(sheet, words);
    write_sums(sheet, words);
}

// All seasons of an accepted sheet, each into its part of a buffer with room for them. The grid and what the rows' canisters keep are made once.
// factor_table's `all_factors` has the same steps: a method of `SheetRows` for both would repeat `fill_blocks`' four clauses to call it.
fn write_seasons(sheet: Accepted, words: &mut [u64])
    requires { seasons_length sheet.bytes.now ≤ length words.old }
    ensures { words.new ≡ written Pass (report_seasons sheet.entry.bytes.now) words.old }
{
    let loaded = SheetRows::new(sheet);
    let size = report_length(sheet);
    fill_blocks(words, size, sheet.seasons(), |j, part| {
        write_season(&loaded, j, part)
    });
}

// How many words that are.
fn seasons_length(sheet: Accepted) -> usize
    ensures { result ≡ seasons_length sheet.entry.bytes.now }
{
    report_length(sheet) * sheet.seasons()
}

// The words of each season's report in milligrams, season by season, or a refusal that leaves the buffer as it is.
pub fn report_seasons(s: &[u8], words: &mut [u64]) -> Check
    ensures { SeasonsCall s.now words.old words.new result }
{
    let sheet = sheet_with_room(s, words.len(), seasons_length)?;
    write_seasons(sheet, words);
    Ok(())
}

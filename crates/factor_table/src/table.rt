// The factors of all seasons and rows of a sheet, in one pass.
ghost use Rattle.std.specs.Prelude.{◌≡◌, ◌*◌, ◌≤◌, ◌<◌, length, map};
ghost use Rattle.refusals.specs.Check.{Pass};
ghost use Rattle.sheet.specs.Bytes.{seasons_of, rows_of};
ghost use Rattle.inventory.specs.FactorAnswers.{band};
ghost use Rattle.inventory.specs.ReportCall.{written};
ghost use Rattle.factor_table.specs.RowFactors.{in_words};
ghost use Rattle.factor_table.specs.Factors.{factors_length, season_factors, all_factors, FactorsCall};

use crate::bands::in_words;
use blocks::fill_blocks;
use checks::accepted::Accepted;
use inventory::Band;
use inventory::check::sheet_with_room;
use masses::figures::UsedRow;
use refusals::Check;
use row_factors::units::Units;
use sheet_factors::sheet_rows::SheetRows;

// Words for each row: the low and the high of seven factors.
const BAND_WORDS: usize = 14;

// One season, prepared once for all rows, into a buffer of its size. Not inlined, so that its arrays take stack only while it runs.
#[inline(never)]
fn season_factors(loaded: &SheetRows, j: usize, words: &mut [u64])
    requires { (j < seasons_of loaded.now.sheet.sheet.bytes.now) × (length words.old ≡ 14 * rows_of loaded.now.sheet.sheet.bytes.now) }
    ensures { words.new ≡ season_factors loaded.now.sheet.sheet.bytes.now j }
{
    let put_row = |_: UsedRow, units: Units, part: &mut [u64]|
        requires { length part.now ≡ 14 }
        ensures { part.exit.now ≡ in_words (map band units.factors) }
    { part.copy_from_slice(&in_words(Band::of_each(&units))) };
    loaded.each_row(j, BAND_WORDS, words, put_row);
}

// All seasons of an accepted sheet, each into its part of a buffer with room for them. The grid and what the rows' canisters keep are made once.
// season_report's `write_seasons` has the same steps: a method of `SheetRows` for both would repeat `fill_blocks`' four clauses to call it.
fn all_factors(sheet: Accepted, words: &mut [u64])
    requires { factors_length sheet.bytes.now ≤ length words.old }
    ensures { words.new ≡ written Pass (all_factors sheet.entry.bytes.now) words.old }
{
    let loaded = SheetRows::new(sheet);
    let size = BAND_WORDS * sheet.rows();
    fill_blocks(words, size, sheet.seasons(), |j, part| {
        season_factors(&loaded, j, part)
    });
}

// How many words that are.
#[tactic(auto, unfolding(crate::specs::Factors::factors_length))]
fn factors_length(sheet: Accepted) -> usize
    ensures { result ≡ factors_length sheet.entry.bytes.now }
{
    BAND_WORDS * sheet.rows() * sheet.seasons()
}

// All factors of a sheet in micrograms, season by season and row by row, or a refusal that leaves the buffer as it is.
pub fn factors(s: &[u8], words: &mut [u64]) -> Check
    ensures { FactorsCall s.now words.old words.new result }
{
    let sheet = sheet_with_room(s, words.len(), factors_length)?;
    all_factors(sheet, words);
    Ok(())
}

// The words of a report's rows, in milligrams.
ghost use Rattle.std.specs.Prelude.{◌≡◌, ◌+◌, ◌*◌, ◌-◌, ◌/◌, ◌%◌, ◌^◌, ◌≤◌, ◌<◌, length};
ghost use Rattle.sheet.specs.Limits.{vehicles_limit};
ghost use Rattle.numbers.specs.Lists.{tab};
ghost use Rattle.sheet.specs.Bytes.{rows_of, row_at};
ghost use Rattle.report_words.specs.Years.{in_milligrams, for_vehicles, filled, report_word};

use crate::year::{add_year, clear};
use blocks::fill_blocks;
use bounds::fixed::mul_add_div;
use checks::accepted::Accepted;

// Units of 10^-12 g in a milligram.
const MILLIGRAM: u64 = 1000000000;

// How many words a row has, and a category.
pub const ROW_WORDS: usize = 6;

// A year's figure of one vehicle, for all vehicles, in milligrams, with what is to be added before it is cut. The limit of the vehicles stands
// in three contracts: a type of a count would be made of it for each row, and opened here.
pub fn milligrams(year: u64, vehicles: u64, added: u64) -> u64
    requires { (vehicles ≤ vehicles_limit) × (added < 10 ^ 9) }
    ensures { result ≡ (year * vehicles + added) / 10 ^ 9 }
{
    mul_add_div(year, vehicles, added, MILLIGRAM)
}

// Word k of a row, from its figure of one vehicle: a low, at an even place, is cut down, a high cut up.
pub fn row_word(figure: u64, vehicles: u64, k: usize) -> u64
    requires { vehicles ≤ vehicles_limit }
    ensures { result ≡ (figure * vehicles + k % 2 * (10 ^ 9 - 1)) / 10 ^ 9 }
{
    let added = if k % 2 == 0 { 0 } else { MILLIGRAM - 1 };
    milligrams(figure, vehicles, added)
}

// A row's six figures of one vehicle become those of its vehicles in milligrams, whatever figures they are: a low is cut down, a high up.
// Six words are a slice and no array, since `fill_blocks` and `each_row` hand out parts of a size that is known only when they run. So each
// contract on such a part says that it has six words.
pub fn six_words(six: &mut [u64], vehicles: u64)
    requires { (length six.old ≡ 6) × (vehicles ≤ vehicles_limit) }
    ensures { six.new ≡ tab (for_vehicles six.old vehicles) 6 }
{
    for (m, word) in six.iter_mut().enumerate() {
        *word = row_word(*word, vehicles, m);
    }
}

// The same of all rows.
pub fn row_words(sheet: Accepted, words: &mut [u64])
    requires { 6 * rows_of sheet.bytes.now ≤ length words.old }
    ensures { words.new ≡ filled (in_milligrams sheet.entry.bytes.now words.old) (6 * rows_of sheet.entry.bytes.now) words.old }
{
    let of_row = |i: usize, six: &mut [u64]|
        requires { (i < rows_of sheet.bytes.now) × (length six.now ≡ 6) }
        ensures { six.exit.now ≡ tab (for_vehicles six.entry.now (row_at sheet.entry.bytes.now i).vehicles) 6 }
    { six_words(six, sheet.vehicles(i)) };
    fill_blocks(words, ROW_WORDS, sheet.rows(), of_row);
}

// The words of the rows of an accepted sheet, in a buffer with room for them. One struct of sheet and words, with the room as its fact, would
// be no plainer: each step that changes its words would have to promise that its sheet stays, in place of asking for the room.
pub fn write_rows(sheet: Accepted, words: &mut [u64])
    requires { 6 * rows_of sheet.bytes.now ≤ length words.old }
    ensures { words.new ≡ filled (report_word sheet.entry.bytes.now) (6 * rows_of sheet.entry.bytes.now) words.old }
{
    clear(words, 6 * sheet.rows());
    add_year(sheet, words);
    row_words(sheet, words);
}

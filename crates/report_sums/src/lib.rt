// The words of a report after those of the rows: sums by category, and the grand total.
#![tactic(auto)]

ghost use Rattle.std.specs.Prelude.{◌≡◌, ◌+◌, ◌*◌, ◌/◌, ◌%◌, ◌^◌, ◌<◌, ◌≤◌, [], ◌∷◌, length};
ghost use Rattle.numbers.specs.Lists.{tab};
ghost use Rattle.sheet.specs.Bytes.{rows_of};
ghost use Rattle.report_words.specs.Categories.{category};
ghost use Rattle.report_sums.specs.Numbers.{number};
ghost use Rattle.report_sums.specs.Sums.{buffer_sum, sum_word, three_word, resummed};

use checks::accepted::Accepted;
use report_words::words::ROW_WORDS;

pub mod renewal;

// Whose words a subtotal adds up.
#[derive(Clone, Copy)]
enum Category {
    Cars,
    LightDuty,
    TwoWheelers,
    AllRows,
}

// The category of word k after those of the rows: six words each, in this order.
#[tactic(auto, unfolding(crate::specs::Numbers::number))]
fn category_of(k: usize) -> Category
    requires { k < 24 }
    ensures { number result ≡ k / 6 }
{
    match k / ROW_WORDS {
        0 => Category::Cars,
        1 => Category::LightDuty,
        2 => Category::TwoWheelers,
        _ => Category::AllRows,
    }
}

// The class belongs to the category.
#[tactic(auto, unfolding(crate::specs::Numbers::number, report_words::specs::Categories::category, report_words::specs::Categories::car, report_words::specs::Categories::light_duty, report_words::specs::Categories::two_wheeler, report_words::specs::Categories::any_class))]
fn belongs(c: Category, class: u64) -> bool
    ensures { result ≡ category (number c) class }
{
    match c {
        Category::Cars => (1..=3).contains(&class),
        Category::LightDuty => class == 4,
        Category::TwoWheelers => (5..=9).contains(&class),
        Category::AllRows => true,
    }
}

// Word j of the rows of a category, summed. By the row's number, which its class needs too: chunks of six words would be no plainer. The word is
// read for every row, and it or 0 is added, so that nothing waits for the class.
#[inline(always)]
#[tactic(auto, unfolding(crate::specs::Sums::buffer_sum))]
fn sum_of(sheet: Accepted, rows: &[u64], c: Category, j: usize) -> u64
    requires { (length rows.now ≡ 6 * rows_of sheet.bytes.now) × (j < 6) }
    ensures { result ≡ buffer_sum sheet.entry.bytes.now rows.now (category (number c)) (rows_of sheet.entry.bytes.now) j % 2 ^ 64 }
{
    let mut sum: u64 = 0;
    for i in 0..sheet.rows() {
        let word = rows[ROW_WORDS * i + j];
        sum = sum.wrapping_add(if belongs(c, sheet.class(i)) { word } else { 0 });
    }
    sum
}

// The same. Each category has a loop of its own, in which no row asks which it is.
fn subtotal(sheet: Accepted, rows: &[u64], c: Category, j: usize) -> u64
    requires { (length rows.now ≡ 6 * rows_of sheet.bytes.now) × (j < 6) }
    ensures { result ≡ buffer_sum sheet.entry.bytes.now rows.now (category (number c)) (rows_of sheet.entry.bytes.now) j % 2 ^ 64 }
{
    match c {
        Category::Cars => sum_of(sheet, rows, Category::Cars, j),
        Category::LightDuty => sum_of(sheet, rows, Category::LightDuty, j),
        Category::TwoWheelers => sum_of(sheet, rows, Category::TwoWheelers, j),
        Category::AllRows => sum_of(sheet, rows, Category::AllRows, j),
    }
}

// The words of the four categories, of those of the rows.
fn subtotals(sheet: Accepted, rows: &[u64], sums: &mut [u64])
    requires { (length rows.now ≡ 6 * rows_of sheet.bytes.now) × (length sums.old ≡ 24) }
    ensures { sums.new ≡ tab (sum_word sheet.entry.bytes.now rows.now) 24 }
{
    for (k, word) in sums.iter_mut().enumerate() {
        *word = subtotal(sheet, rows, category_of(k), k % ROW_WORDS);
    }
}

// The grand total of the six words for all rows: the sum of their three lows, and that of their three highs.
#[tactic(auto, unfolding(crate::specs::Sums::three_word))]
fn grand_total(all: &[u64]) -> [u64; 2]
    requires { length all.now ≡ 6 }
    ensures { result ≡ three_word all.now 0 ∷ three_word all.now 1 ∷ [] }
{
    [
        all[0].wrapping_add(all[2]).wrapping_add(all[4]),
        all[1].wrapping_add(all[3]).wrapping_add(all[5]),
    ]
}

// All 26 words after the rows, of the words that the rows have in the buffer: those of the categories, of which the last six are for all
// rows, and the low and the high of the grand total, each the sum of three of these.
// Four contracts relate a sheet to its words: one struct of both would be no plainer, as the line at `write_rows` of report_words shows.
pub fn write_sums(sheet: Accepted, words: &mut [u64])
    requires { 6 * rows_of sheet.bytes.now + 26 ≤ length words.old }
    ensures { words.new ≡ resummed sheet.entry.bytes.now words.old }
{
    let (rows, sums) = words.split_at_mut(ROW_WORDS * sheet.rows());
    let (categories, totals) = sums.split_at_mut(24);
    subtotals(sheet, rows, categories);
    let [low, high] = grand_total(&categories[18..]);
    totals[0] = low;
    totals[1] = high;
}

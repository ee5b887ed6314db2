// The words of a buffer that a report was written to, and the rows that are expected of it: words left as they were, and sums.
ghost use Rattle.std.specs.Prelude.{◌≤◌, length};

use crate::items::item_at;

// What the buffer holds before a call, larger than any mass
pub const OLD: u64 = 17361641481138401520;

// The words of the buffer
pub const WORDS: usize = 6144;

// The bytes of a row that is expected: nine numbers, the category first
pub const ROW: usize = 72;

// Whether the words are as they were
pub fn kept(words: &[u64]) -> bool {
    words.iter().all(|word| *word == OLD)
}

// Whether a row counts in the subtotal of a category, or in that of all rows, which has none. A category is the number that the input has of
// it, which is compared and nothing else.
fn counts(row: &[u8; ROW], category: Option<u64>) -> bool {
    category.is_none() || item_at(row, 0) == category
}

fn add(sums: &mut [u64; 6], words: &[u64; 6]) {
    for (sum, word) in sums.iter_mut().zip(words) {
        *sum = sum.wrapping_add(*word);
    }
}

// The sums of the words of the rows that count in a subtotal
fn sums_of(words: &[[u64; 6]], rows: &[[u8; ROW]], category: Option<u64>) -> [u64; 6] {
    let mut sums = [0; 6];
    for (words, row) in words.iter().zip(rows) {
        if counts(row, category) {
            add(&mut sums, words);
        }
    }
    sums
}

// Whether the subtotals, which are those of categories 1, 2 and 3 and of all rows, are the sums of the rows' words
fn subtotals_right(words: &[[u64; 6]], subtotals: &[[u64; 6]], rows: &[[u8; ROW]]) -> bool {
    [Some(1), Some(2), Some(3), None].iter().zip(subtotals).all(|(category, sums)| sums_of(
        words, rows, *category,
    ) == *sums)
}

// The grand total of the three masses of all rows, its low and its high
fn totals(all: &[u64; 6]) -> [u64; 2] {
    let [a, b, c, d, e, f] = *all;
    [
        a.wrapping_add(c).wrapping_add(e),
        b.wrapping_add(d).wrapping_add(f),
    ]
}

// Whether the subtotals and totals are the sums of the rows' words, and the words beyond the report as they were
pub fn sums_right(words: &[u64; WORDS], rows: &[[u8; ROW]]) -> bool
    requires { length rows.now ≤ 1000 }
{
    let n = rows.len();
    let (of_rows, _) = words.as_chunks();
    let all = &of_rows[n + 3];
    let at = 6 * n + 24;
    subtotals_right(&of_rows[..n], &of_rows[n..n + 4], rows)
        & (words[at..at + 2] == totals(all)[..])
        & kept(&words[at + 2..])
}

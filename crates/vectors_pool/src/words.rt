// The report of a pooled sheet beside those of its two sheets.
ghost use Rattle.std.specs.Prelude.{◌≤◌};

use crate::Pair;
use vectors::items::item_at;
use vectors::words::WORDS;

// The words after those of the rows: subtotals and totals
const SUMS: usize = 26;

// The words of the rows that the head of a sheet of version 4 counts, as far as there can be
fn row_words(sheet: &[u8]) -> usize
    ensures { result ≤ 6000 }
{
    let rows: u16 = item_at(sheet, 6).unwrap_or(0);
    6 * usize::from(rows).min(1000)
}

// Whether each of the words after the rows is the sum of those of the two sheets
fn are_sums(pooled: &[u64], first: &[u64], second: &[u64]) -> bool {
    pooled
        .iter()
        .zip(first.iter().zip(second))
        .all(|(sum, (a, b))| *sum == a.wrapping_add(*b))
}

impl Pair<'_> {
    // Whether the pooled report has both sheets' row words in their places, and the sums of their sums
    pub fn has_words(self) -> bool {
        let (mut first, mut second, mut words) = ([0; WORDS], [0; WORDS], [0; WORDS]);
        let passed = inventory::report(self.first, &mut first).is_ok()
            & inventory::report(self.second, &mut second).is_ok();
        let whole = inventory::report(self.pooled, &mut words).is_ok();
        let (i, j) = (row_words(self.first), row_words(self.second));
        if 6000 < i + j {
            return false;
        }
        let rows = (words[..i] == first[..i]) & (words[i..i + j] == second[..j]);
        let sums = are_sums(
            &words[i + j..i + j + SUMS],
            &first[i..i + SUMS],
            &second[j..j + SUMS],
        );
        passed & whole & rows & sums
    }
}

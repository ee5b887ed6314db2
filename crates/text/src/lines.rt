// The lines of the program `report`.
ghost use Rattle.std.specs.Prelude.{◌≡◌, ◌+◌, ◌*◌, ◌/◌, ◌≤◌, ◌++◌, length};
ghost use Rattle.refusals.specs.Rule.{number};
ghost use Rattle.text.specs.Ascii.{bytes};
ghost use Rattle.text.specs.Decimal.{digits};
ghost use Rattle.text.specs.Lines.{field, fields, line, pair_line, row_lines, sum_lines, report_lines, refusal_line};
ghost use Rattle.text.specs.Put.{Put};

use crate::writer::Writer;
use refusals::Refusal;

// The words of a row.
const ROW_WORDS: usize = 6;

impl Writer<'_> {
    // A field of a line: a space and a word.
    fn field(&mut self, word: u64)
        ensures { Put self.old (field word) self.new }
    {
        self.text(b" ");
        self.number(word);
    }

    // One function for this loop and that of `rows` would take a closure that writes, with a clause on what it wrote: longer than both.
    #[tactic(auto, unfolding(crate::specs::Lines::fields))]
    fn fields(&mut self, words: &[u64])
        ensures { Put self.old (fields words.now) self.new }
    {
        for &word in words {
            self.field(word);
        }
    }

    // A line: its name, its words, and the line feed.
    fn line(&mut self, name: &[u8], words: &[u64])
        ensures { Put self.old (line name.now words.now) self.new }
    {
        self.text(name);
        self.fields(words);
        self.text(b"\n");
    }

    // The line of a row, whose number is counted from 1.
    fn row(&mut self, number: u64, words: &[u64])
        ensures { Put self.old (line (bytes "row " ++ digits number) words.now) self.new }
    {
        self.text(b"row ");
        self.number(number);
        self.fields(words);
        self.text(b"\n");
    }

    // The lines of all rows, from the six words of each.
    #[tactic(auto, unfolding(crate::specs::Lines::row_lines))]
    fn rows(&mut self, words: &[u64])
        ensures { Put self.old (row_lines words.now (length words.now / 6)) self.new }
    {
        let rows = words.as_chunks::<ROW_WORDS>().0;
        for (i, row) in rows.iter().enumerate() {
            self.row(i as u64 + 1, row);
        }
    }

    // The lines below the rows.
    fn sums(&mut self, words: &[u64])
        requires { 26 ≤ length words.now }
        ensures { Put self.old (sum_lines words.now 0) self.new }
    {
        self.line(b"cars", &words[..6]);
        self.line(b"light", &words[6..12]);
        self.line(b"two", &words[12..18]);
        self.line(b"all", &words[18..24]);
        self.line(b"total", &words[24..26]);
    }

    // A line of two numbers, each behind a text.
    pub fn pair(&mut self, first: &[u8], a: u64, second: &[u8], b: u64)
        ensures { Put self.old (pair_line first.now a second.now b) self.new }
    {
        self.text(first);
        self.number(a);
        self.text(second);
        self.number(b);
        self.text(b"\n");
    }

    // All lines of an accepted sheet, from its version, its rows and the words of its report.
    pub fn report(&mut self, version: u64, rows: usize, words: &[u64])
        requires { 6 * rows + 26 ≤ length words.now }
        ensures { Put self.old (report_lines version rows words.now) self.new }
    {
        let (of_rows, sums) = words.split_at(ROW_WORDS * rows);
        self.pair(b"EVP ", version, b" rows ", rows as u64);
        self.rows(of_rows);
        self.sums(sums);
    }

    // The line of a refused sheet.
    pub fn refusal(&mut self, refusal: Refusal)
        ensures { Put self.old (refusal_line (number refusal.rule) refusal.place) self.new }
    {
        self.pair(b"refused ", refusal.rule.number(), b" at ", refusal.place);
    }
}

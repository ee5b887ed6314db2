// From the bytes of a sheet to the bytes that are printed for it.
#![tactic(auto)]

ghost use Rattle.std.specs.Prelude.{◌≡◌, ◌≤◌, ◌<◌, length, IfOk};
ghost use Rattle.std.specs.Result.{MatchResult};
ghost use Rattle.refusals.specs.Check.{Pass};
ghost use Rattle.text.specs.Whole.{length_of, text_or_refusal};
ghost use Rattle.report_text.specs.Reported.{Reported, LinesThere, lines_text};
ghost use Rattle.report_text.specs.Text.{text_of, text_most, TextCall};

use fields::{rows_of, version_of};
use inventory::report;
use refusals::{Check, Refusal};
pub use text::whole::length_of;
use text::whole::{Lines, write_whole};
use text::writer::Writer;

// What the lines of an accepted sheet are made from: its version, its rows and the words of its report.
#[derive(Clone, Copy, Drop)]
struct ReportLines<'a> {
    version: u64,
    rows: usize,
    words: &'a [u64],
}

impl Lines for ReportLines<'_> {
    ghost are_there = { LinesThere };

    ghost text = { lines_text };

    fn write(&self, writer: &mut Writer<'_>) {
        writer.report(self.version, self.rows, self.words);
    }
}

// What the text of a sheet that was checked is made from.
fn lines_of<'a>(s: &[u8], words: &'a [u64], check: Check) -> Result<ReportLines<'a>, Refusal>
    requires { check ≡ Pass → Reported s.now words.now }
    ensures there { IfOk result LinesThere }
    ensures text { text_or_refusal lines_text result ≡ text_of check s.now }
    ensures most { length (text_of check s.now) ≤ text_most }
{
    check?;
    let rows = rows_of(s);
    let end = 6 * rows + 26;
    Ok(ReportLines {
        version: version_of(s),
        rows,
        words: &words[..end],
    })
}

// The text that is printed for a sheet, at the front of a buffer that it fits; the words of the report are left as the report call leaves
// them. The length of the text is returned, as an error where the buffer has less: it is then left as it is. C hands over the sheet and the
// words as two slices, and one call here takes both: a struct of the two would be made for that call alone.
pub fn report_text(s: &[u8], words: &mut [u64], out: &mut [u8]) -> Result<usize, usize>
    ensures call { TextCall s.now words.old words.new out.old out.new (length_of result) }
    ensures answer { MatchResult result (λ n. n ≤ length out.old) (λ n. length out.old < n) }
{
    let check = report(s, words);
    write_whole(&lines_of(s, words, check), out)
}

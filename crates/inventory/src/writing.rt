// The words of an accepted sheet's report, for the calls that have made its checks: `report`, and the opening of a shared ledger.
ghost use Rattle.std.specs.Prelude.{◌≡◌, ◌≤◌, length};
ghost use Rattle.refusals.specs.Check.{Pass};
ghost use Rattle.report_words.specs.Categories.{report_length};
ghost use Rattle.report_words.specs.Report.{report};
ghost use Rattle.inventory.specs.ReportCall.{written};

use checks::accepted::Accepted;
use report_sums::write_sums;
use report_words::words::write_rows;

// The report of an accepted sheet, in a buffer with room for it: the words of the rows and their sums.
#[tactic(auto, unfolding(report_words::specs::Categories::report_length))]
pub fn write_report(sheet: Accepted, words: &mut [u64])
    requires { report_length sheet.bytes.now ≤ length words.old }
    ensures { words.new ≡ written Pass (report sheet.entry.bytes.now) words.old }
{
    write_rows(sheet, words);
    write_sums(sheet, words);
}

// What the program `report` does: it reads one sheet, from the file that its argument names or from standard input, and writes its
// text, a report or the number and the place where it stops. Where the sheet cannot be read, or not all of the text
// could be written, it says so on standard error. Its exit status is 0 for a report, 1 for a refusal and 2 for neither.
#![tactic(auto)]

ghost use Rattle.std.specs.Prelude.{◌≢◌};
ghost use Rattle.std.specs.Io.KnownBytes.{Keeps};
ghost use Rattle.report_text.specs.Text.{report_text};
ghost use Rattle.program.specs.Status.{status_number};
ghost use Rattle.report_run.specs.Ran.{ReportRan, ReportPrints};

use program::one_sheet::SheetText;
use program::sources::Sources;
use program::{Status, Streams};
use report_text::{length_of, report_text};
use std::io::Write;

// The bytes of the longest text: 151 · 1,000 + 622.
const TEXT: usize = 151622;

// The text that the program makes of a sheet. The programs `report` and `species` differ in it, in its length and in their names, and share
// all else in `print_sheet`.
#[derive(Drop)]
struct Report;

impl SheetText for Report {
    const NAME: &'static str = "report";

    ghost text_of = { λ s. report_text s 6026 };

    ghost most = { 151622 };

    fn put(&self, s: &[u8], words: &mut [u64], text: &mut [u8]) -> usize {
        length_of(report_text(s, words, text))
    }
}

// The whole program; what it returns is the exit status.
pub fn evp_run<S: Sources, W: Write, E: Write>(sheets: &S, streams: &mut Streams<W, E>) -> Status
    ensures ran { ReportRan (status_number result) }
    ensures prints { ReportPrints (S.bytes sheets.now 1)
        (W.contents streams.old.out) (W.contents streams.new.out) (status_number result) }
    ensures silent { status_number result ≢ 2 → Keeps (E.contents streams.old.err) (E.contents streams.new.err) }
{
    let mut text = [0u8; TEXT];
    program::one_sheet::print_sheet(&Report, sheets, &mut text, streams)
}

// How many words the report of a sheet has.
ghost use Rattle.boundary.specs.SheetExport.{WordsCounted};

use checks::accepted::Accepted;
use inventory::check::report_length;

// 0 where the sheet is refused: C gets this number as it is, so no `None` stands for it.
pub fn report_words(s: &[u8]) -> usize
    ensures { WordsCounted s.now result }
{
    Accepted::of(s).map_or(0, report_length)
}

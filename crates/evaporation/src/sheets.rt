// The calls that check a sheet and make no report, for a program in another language.
ghost use Rattle.boundary.specs.SheetExport.{SheetNumbers, WordsCounted};

use boundary::EvpCheck;
use boundary_calls::sheets::report_words;
use checks::check_sheet;

// Where a sheet stops.
#[unsafe(no_mangle)]
pub extern "C" fn evp_check_sheet(sheet: &[u8]) -> EvpCheck
    ensures { SheetNumbers sheet.now result }
{
    EvpCheck::from(check_sheet(sheet))
}

// How many words its report has.
#[unsafe(no_mangle)]
pub extern "C" fn evp_report_words(sheet: &[u8]) -> usize
    ensures { WordsCounted sheet.now result }
{
    report_words(sheet)
}

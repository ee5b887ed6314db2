// The calls that answer in bulk, for a program in another language.
ghost use Rattle.boundary.specs.Bulk.{RowFactorsNumbers, FactorsNumbers, SeasonsNumbers};

use boundary::{EvpCheck, EvpRowFactors};

// All seven factors of a season and a row.
#[unsafe(no_mangle)]
pub extern "C" fn evp_row_factors(sheet: &[u8], season: u64, row: u64) -> EvpRowFactors
    ensures { RowFactorsNumbers sheet.now season row result }
{
    EvpRowFactors::from(factor_table::row_factors(sheet, season, row))
}

// All factors of a sheet.
#[unsafe(no_mangle)]
pub extern "C" fn evp_factors(sheet: &[u8], words: &mut [u64]) -> EvpCheck
    ensures { FactorsNumbers sheet.now words.old words.new result }
{
    EvpCheck::from(factor_table::table::factors(sheet, words))
}

// The report of each season.
#[unsafe(no_mangle)]
pub extern "C" fn evp_report_seasons(sheet: &[u8], words: &mut [u64]) -> EvpCheck
    ensures { SeasonsNumbers sheet.now words.old words.new result }
{
    EvpCheck::from(season_report::report_seasons(sheet, words))
}

// The library for programs in another language: a static library, of which each export is the call of the crate `evaporation` with the same
// name, and states its clauses again. A slice is passed as a pointer and a length. A static library exports only what stands in it, and no crate can
// depend on one (the kit's UNSAFE.md), so each call stands in both crates.
#![tactic(auto)]

ghost use Rattle.std.specs.Prelude.{◌≡◌};
ghost use Rattle.boundary.specs.Export.{ReportNumbers, FactorNumbers};
ghost use Rattle.boundary.specs.TextExport.{TextNumbers};
ghost use Rattle.boundary.specs.Version.{library_version};
ghost use Rattle.boundary.specs.SheetExport.{SheetNumbers, WordsCounted};
ghost use Rattle.findings.specs.Table.{finding_of};
ghost use Rattle.findings.specs.Meaning.{Explains};
ghost use Rattle.boundary.specs.Bulk.{RowFactorsNumbers, FactorsNumbers, SeasonsNumbers};
ghost use Rattle.ledger.specs.declared.Call.TheVariants.{Arrival, Departure};
ghost use Rattle.boundary.specs.Change.{ChangeNumbers};
ghost use Rattle.boundary.specs.Shared.{OpenNumbers, SharedNumbers, RowNumbers, TotalsNumbers};
ghost use Rattle.boundary.specs.PoolExport.{PoolNumbers};
ghost use Rattle.boundary.specs.MarkExport.{MarkNumbers};
ghost use Rattle.boundary.specs.Cells.{RowCellsNumbers, CellSumNumbers};
ghost use Rattle.boundary.specs.SpeciesCall.{SpeciesNumbers};
ghost use Rattle.boundary.specs.CompositionExport.{CompositionNumbers};

use boundary::{
    EvpCell, EvpCellSum, EvpCheck, EvpComposition, EvpFactor, EvpFiled, EvpPool, EvpRow,
    EvpRowCells, EvpRowFactors, EvpText, EvpTotals, EvpTravel, EvpVerdict,
};
use findings::Finding;
use map_shares::Words;

// The version of the library, which its header names too.
#[unsafe(no_mangle)]
pub extern "C" fn evp_library_version() -> u64
    ensures { result ≡ library_version }
{
    evaporation::evp_library_version()
}

// The factor call.
#[unsafe(no_mangle)]
pub extern "C" fn evp_factor(sheet: &[u8], season: u64, row: u64, factor: u64) -> EvpFactor
    ensures { FactorNumbers sheet.now season row factor result }
{
    evaporation::evp_factor(sheet, season, row, factor)
}

// The report call.
#[unsafe(no_mangle)]
pub extern "C" fn evp_report(sheet: &[u8], words: &mut [u64]) -> EvpCheck
    ensures { ReportNumbers sheet.now words.old words.new result }
{
    evaporation::evp_report(sheet, words)
}

// The report as a text. It returns whether the text is a report, and its length; the text is written only where it fits.
#[unsafe(no_mangle)]
pub extern "C" fn evp_text(sheet: &[u8], words: &mut [u64], text: &mut [u8]) -> EvpText
    ensures { TextNumbers sheet.now words.old words.new text.old text.new result }
{
    evaporation::evp_text(sheet, words, text)
}

// Where a sheet stops.
#[unsafe(no_mangle)]
pub extern "C" fn evp_check_sheet(sheet: &[u8]) -> EvpCheck
    ensures { SheetNumbers sheet.now result }
{
    evaporation::sheets::evp_check_sheet(sheet)
}

// How many words its report has.
#[unsafe(no_mangle)]
pub extern "C" fn evp_report_words(sheet: &[u8]) -> usize
    ensures { WordsCounted sheet.now result }
{
    evaporation::sheets::evp_report_words(sheet)
}

// The first thing that is wrong on a sheet; all zeros where it is accepted.
#[unsafe(no_mangle)]
pub extern "C" fn evp_explain(sheet: &[u8]) -> Finding
    ensures { (result ≡ finding_of sheet.now) × Explains sheet.now result }
{
    evaporation::reasons::evp_explain(sheet)
}

// All seven factors of a season and a row.
#[unsafe(no_mangle)]
pub extern "C" fn evp_row_factors(sheet: &[u8], season: u64, row: u64) -> EvpRowFactors
    ensures { RowFactorsNumbers sheet.now season row result }
{
    evaporation::bulk::evp_row_factors(sheet, season, row)
}

// All factors of a sheet.
#[unsafe(no_mangle)]
pub extern "C" fn evp_factors(sheet: &[u8], words: &mut [u64]) -> EvpCheck
    ensures { FactorsNumbers sheet.now words.old words.new result }
{
    evaporation::bulk::evp_factors(sheet, words)
}

// The report of each season.
#[unsafe(no_mangle)]
pub extern "C" fn evp_report_seasons(sheet: &[u8], words: &mut [u64]) -> EvpCheck
    ensures { SeasonsNumbers sheet.now words.old words.new result }
{
    evaporation::bulk::evp_report_seasons(sheet, words)
}

// Vehicles arrive at a row, counted from 0.
#[unsafe(no_mangle)]
pub extern "C" fn evp_arrive(
    sheet: &mut [u8],
    words: &mut [u64],
    row: u64,
    vehicles: u64,
) -> EvpCheck
    ensures { ChangeNumbers sheet.old words.old (Arrival row vehicles) sheet.new words.new result }
{
    evaporation::registrations::evp_arrive(sheet, words, row, vehicles)
}

// Vehicles depart from it.
#[unsafe(no_mangle)]
pub extern "C" fn evp_depart(
    sheet: &mut [u8],
    words: &mut [u64],
    row: u64,
    vehicles: u64,
) -> EvpCheck
    ensures { ChangeNumbers sheet.old words.old (Departure row vehicles) sheet.new words.new result }
{
    evaporation::registrations::evp_depart(sheet, words, row, vehicles)
}

// The ledger is opened with its owners, one byte a row.
#[unsafe(no_mangle)]
pub extern "C" fn evp_shared_open(sheet: &[u8], owners: &[u8], words: &mut [u64]) -> EvpCheck
    ensures { OpenNumbers sheet.now owners.now words.old words.new result }
{
    evaporation::shared::evp_shared_open(sheet, owners, words)
}

// Vehicles arrive at a row, counted from 0, where its owner calls.
#[unsafe(no_mangle)]
pub extern "C" fn evp_shared_arrive(
    sheet: &mut [u8],
    owners: &[u8],
    words: &mut [u64],
    who: u64,
    row: u64,
    vehicles: u64,
) -> EvpCheck
    ensures { SharedNumbers sheet.old owners.now words.old who (Arrival row vehicles)
        sheet.new words.new result }
{
    evaporation::shared::evp_shared_arrive(sheet, owners, words, who, row, vehicles)
}

// Vehicles depart from it.
#[unsafe(no_mangle)]
pub extern "C" fn evp_shared_depart(
    sheet: &mut [u8],
    owners: &[u8],
    words: &mut [u64],
    who: u64,
    row: u64,
    vehicles: u64,
) -> EvpCheck
    ensures { SharedNumbers sheet.old owners.now words.old who (Departure row vehicles)
        sheet.new words.new result }
{
    evaporation::shared::evp_shared_depart(sheet, owners, words, who, row, vehicles)
}

// A row's count and six words.
#[unsafe(no_mangle)]
pub extern "C" fn evp_shared_row(
    sheet: &[u8],
    owners: &[u8],
    words: &[u64],
    who: u64,
    row: u64,
) -> EvpRow
    ensures { RowNumbers sheet.now owners.now words.now who row result }
{
    evaporation::shared::evp_shared_row(sheet, owners, words, who, row)
}

// The 26 words after the rows.
#[unsafe(no_mangle)]
pub extern "C" fn evp_shared_totals(
    sheet: &[u8],
    owners: &[u8],
    words: &[u64],
    who: u64,
) -> EvpTotals
    ensures { TotalsNumbers sheet.now owners.now words.now who result }
{
    evaporation::shared::evp_shared_totals(sheet, owners, words, who)
}

// The pool call.
#[unsafe(no_mangle)]
pub extern "C" fn evp_pool(first: &[u8], second: &[u8], pool: &mut [u8]) -> EvpPool
    ensures { PoolNumbers first.now second.now pool.old pool.new result }
{
    evaporation::pool::evp_pool(first, second, pool)
}

// The mark of a filed figure against a band from low to high milligrams.
#[unsafe(no_mangle)]
pub extern "C" fn evp_mark(filed: EvpFiled, low: u64, high: u64) -> EvpVerdict
    ensures { MarkNumbers filed low high result }
{
    evaporation::filed::evp_mark(filed, low, high)
}

// The urban, rural and highway cells of a row.
#[unsafe(no_mangle)]
pub extern "C" fn evp_cells_of_row(words: Words, travel: EvpTravel) -> EvpRowCells
    ensures { RowCellsNumbers words travel result }
{
    evaporation::map::evp_cells_of_row(words, travel)
}

// The sum of two cells.
#[unsafe(no_mangle)]
pub extern "C" fn evp_add_cells(a: EvpCell, b: EvpCell) -> EvpCellSum
    ensures { CellSumNumbers a b result }
{
    evaporation::map::evp_add_cells(a, b)
}

// The species of a total, in milligrams.
#[unsafe(no_mangle)]
pub extern "C" fn evp_species(total: u64, milligrams: &mut [u64]) -> EvpCheck
    ensures { SpeciesNumbers total milligrams.old milligrams.new result }
{
    evaporation::species::evp_species(total, milligrams)
}

// The species of a sheet's high total, with the refusals of its report; the words are a buffer for that report.
#[unsafe(no_mangle)]
pub extern "C" fn evp_species_of(sheet: &[u8], words: &mut [u64]) -> EvpComposition
    ensures { CompositionNumbers sheet.now words.old words.new result }
{
    evaporation::species::evp_species_of(sheet, words)
}

// The calls for a program in another language. A slice is passed as a pointer and a length. Their answers are declared in the crate
// boundary, and made there of those in Rattle.
#![tactic(auto)]

ghost use Rattle.std.specs.Prelude.{◌≡◌};
ghost use Rattle.boundary.specs.Export.{ReportNumbers, FactorNumbers};
ghost use Rattle.boundary.specs.TextExport.{TextNumbers};
ghost use Rattle.boundary.specs.Version.{library_version};

use boundary::{EvpCheck, EvpFactor, EvpText};
use inventory::check::report_check;

pub mod bulk;
pub mod filed;
pub mod map;
pub mod pool;
pub mod reasons;
pub mod registrations;
pub mod shared;
pub mod sheets;
pub mod species;

// Version 1.1.0: a million for each major, a thousand for each minor.
const VERSION: u64 = 1001000;

// The version of the library, which its header names too.
#[tactic(auto, unfolding(boundary::specs::Version::version_number, boundary::specs::Version::library_version))]
#[unsafe(no_mangle)]
pub extern "C" fn evp_library_version() -> u64
    ensures { result ≡ library_version }
{
    VERSION
}

// The factor call.
#[unsafe(no_mangle)]
pub extern "C" fn evp_factor(sheet: &[u8], season: u64, row: u64, factor: u64) -> EvpFactor
    ensures { FactorNumbers sheet.now season row factor result }
{
    EvpFactor::from(inventory::factor(sheet, season, row, factor))
}

// The report call.
#[unsafe(no_mangle)]
pub extern "C" fn evp_report(sheet: &[u8], words: &mut [u64]) -> EvpCheck
    ensures { ReportNumbers sheet.now words.old words.new result }
{
    EvpCheck::from(inventory::report(sheet, words))
}

// The report as a text. It answers whether the text is a report, and its length; it is written only where it fits.
#[unsafe(no_mangle)]
pub extern "C" fn evp_text(sheet: &[u8], words: &mut [u64], text: &mut [u8]) -> EvpText
    ensures { TextNumbers sheet.now words.old words.new text.old text.new result }
{
    let check = report_check(sheet, words.len());
    let written = report_text::report_text(sheet, words, text);
    EvpText::from((check, report_text::length_of(written)))
}

// The two calls of the inventory: one emission factor, and the report.
#![tactic(auto)]

ghost use Rattle.std.specs.Prelude.{◌≡◌, ◌<◌, map};
ghost use Rattle.numbers.specs.Lists.{at};
ghost use Rattle.inventory.specs.FactorAnswers.{band};
ghost use Rattle.inventory.specs.FactorCall.{FactorCall};
ghost use Rattle.inventory.specs.ReportCall.{ReportCall};

use crate::asked::{AskedRow, Factor};
use crate::check::{report_length, sheet_with_room};
use crate::writing::write_report;
use refusals::{Check, Refusal};
use row_factors::units::Units;
use std::array;

pub mod asked;
pub mod check;
pub mod writing;

// A factor's low and high, in micrograms. The `Band` of the crate marking is in milligrams, and neither may stand for the other.
#[derive(Clone, Copy, Debug, PartialEq, Eq)]
pub struct Band {
    pub low: u64,
    pub high: u64,
}

impl Band {
    // Of the factor at a place of the seven.
    fn of(units: &Units, place: usize) -> Band
        requires { place < 7 }
        ensures { result ≡ band (at units.now.factors place) }
    {
        Band {
            low: units.low(place),
            high: units.high(place),
        }
    }

    // Of each of the seven.
    pub fn of_each(units: &Units) -> [Band; 7]
        ensures { result ≡ map band units.now.factors }
    {
        array::from_fn(|place| Band::of(units, place))
    }
}

// What the call for a factor answers: its band, or why it is refused.
pub type FactorAnswer = Result<Band, Refusal>;

// One factor, 1 to 7, of a season and a row, counted from 0, in micrograms. Document 01 leaves low and high open within
// the bounds that are promised here; the answer is also a function of the bytes and the three numbers.
pub fn factor(s: &[u8], season: u64, row: u64, k: u64) -> FactorAnswer
    ensures { FactorCall s.now season row k result }
{
    let asked = AskedRow::of(s, season, row)?;
    let factor = Factor::try_from(k)?;
    Ok(asked.band_of(factor))
}

// All words of the report in milligrams, or a refusal that leaves the buffer as it is. Document 01 leaves a low or high
// open within the bounds that are promised here; all words are also a function of the bytes.
pub fn report(s: &[u8], words: &mut [u64]) -> Check
    ensures { ReportCall s.now words.old words.new result }
{
    let sheet = sheet_with_room(s, words.len(), report_length)?;
    write_report(sheet, words);
    Ok(())
}

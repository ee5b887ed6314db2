// Reading a sheet: every byte string is read, or refused with the number and the place that document 01 fixes.
#![tactic(auto)]

ghost use Rattle.std.specs.Prelude.{◌≡◌};
ghost use Rattle.refusals.specs.Check.{number_of, place_of};
ghost use Rattle.sheet.specs.Sheet.{sheet_check};
ghost use Rattle.sheet.specs.Demands.{Says, demands};

use crate::head::{head_check, length_check};
use crate::parking::parking_check;
use crate::rows::rows_check;
use crate::seasons::seasons_check;
use refusals::Check;

pub mod accepted;
mod checked_row;
pub mod exponent;
pub mod head;
mod parking;
pub mod passed_seasons;
mod rows;
mod seasons;

// The stages one after another, in table and file order. Each reads only what the stages before it showed to be there.
// The crate explanation has the same five for what it says of a refusal: a trait with a method for each stage would be no plainer.
#[tactic(auto, using(refusals::proofs::Chain::chained, crate::proofs::Reading::shown), unfolding(sheet::specs::Sheet::sheet_check))]
fn stages(s: &[u8]) -> Check
    ensures { result ≡ sheet_check s.now }
{
    head_check(s)?;
    length_check(s)?;
    parking_check(s)?;
    let seasons = seasons_check(s)?;
    rows_check(seasons)
}

// Every check of a sheet: the answer is the table's, and says which demand is the first that is not met, or that all are.
pub fn check_sheet(s: &[u8]) -> Check
    ensures { (result ≡ sheet_check s.now) × Says (demands s.now) (number_of result) (place_of result) }
{
    stages(s)
}

// All factors of a season and row, and of a sheet, in one call each.
#![tactic(auto)]

ghost use Rattle.factor_table.specs.RowFactors.{RowFactorsCall};

use inventory::Band;
use inventory::asked::AskedRow;
use refusals::Refusal;

pub mod bands;
pub mod table;

// All seven factors of a season and a row, counted from 0: the low and the high of factors 1 to 7 in micrograms, refused as the factor call is.
pub fn row_factors(s: &[u8], season: u64, row: u64) -> Result<[Band; 7], Refusal>
    ensures { RowFactorsCall s.now season row result }
{
    let asked = AskedRow::of(s, season, row)?;
    Ok(Band::of_each(&asked.units()))
}

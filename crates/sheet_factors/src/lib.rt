// The seven factors of a season and a row of an accepted sheet.
#![tactic(auto)]

pub mod factors_at;
pub mod grid_sheet;
pub mod sheet_rows;
#[cfg(test)]
mod tests;

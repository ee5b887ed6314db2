// The words of the report of an accepted sheet.
#![tactic(auto)]

pub mod words;
pub mod year;

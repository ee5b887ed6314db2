// What breaks through the carbon canister of a row.
#![tactic(auto)]

pub mod curve;
pub mod curves;
pub mod fitting;
pub mod loads;
pub mod losses;

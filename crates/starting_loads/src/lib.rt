// The load that a canister starts with, from the mileage.
#![tactic(auto)]

pub mod loads;
pub mod mileage;

// The seven factors of a row in a season, in whole numbers that enclose the exact ones.
#![tactic(auto)]

mod escapes;
pub mod micrograms;
pub mod rows;
pub mod season;
pub mod units;

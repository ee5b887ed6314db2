// The figures of a row: what one vehicle loses on one day, a row's six words of a year, and that they enclose the exact masses.
#![tactic(auto)]

pub mod figures;

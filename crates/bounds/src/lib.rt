// Bounds of the exponential and of the root: the lower crate of document 01.
#![tactic(auto)]

pub mod exp;
pub mod fixed;
pub mod hours;
pub mod power;
pub mod short;
pub mod theta;
pub mod whole;

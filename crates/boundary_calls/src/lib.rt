// The calls for a program in another language that need more than the call in Rattle and its answer as numbers.
#![tactic(auto)]

pub mod filed;
pub mod map;
pub mod pool;
pub mod sheets;
pub mod species;

// What the programs vectors_* share: the items of their input and one loop over its records, and a tally of what was tried. Nothing here uses what
// they try, so that a fault of it cannot hide itself; of the crates below this one names the refusals alone. `rt` is the leave to read and to
// print, and goes to all that does.
#![tactic(auto)]

pub mod answer;
pub mod band;
pub mod bytes;
pub mod input;
pub mod items;
pub mod mass;
pub mod tally;
#[cfg(test)]
mod tests;
pub mod words;

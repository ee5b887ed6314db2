// The parkings of a sheet: the grid of 24 end hours by 24 durations, means over it, and the list of those that breathe in a season.
#![tactic(auto)]

pub mod cells;
pub mod grid;
pub mod season_list;
pub mod walk;

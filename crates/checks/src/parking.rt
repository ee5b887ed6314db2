// Parking: numbers 8 and 9 of two lists of counts, 24 of a grid.
ghost use Rattle.std.specs.Prelude.{◌≡◌, ◌≤◌, length};
ghost use Rattle.sheet.specs.Versions.{seasons_start};
ghost use Rattle.sheet.specs.Sheet.{parking_check};

use fields::limits::{COUNTS_LIMIT, GRID_LIMIT};
use fields::range::outside;
use fields::{CELLS, COUNTS, DURATIONS_START, GRID_START, HOURS_START, counts_total, has_grid};
use refusals::{Check, Rule, refuse};

// The sum of the grid is 1 to 1,000,000; in a sheet that has none that of each list is 1 to 1,000.
// The crate explanation makes the same choice, for other words on each sum: one function for both would take each branch as a closure.
#[tactic(auto, using(refusals::proofs::Chain::chained, crate::proofs::GridOrLists::parking))]
pub fn parking_check(s: &[u8]) -> Check
    requires { seasons_start s.now ≤ length s.now }
    ensures { result ≡ parking_check s.now }
{
    if has_grid(s) {
        let sum = counts_total(s, GRID_START, CELLS);
        return refuse(outside(1, GRID_LIMIT, sum), Rule::Grid, 8);
    }
    let durations = counts_total(s, DURATIONS_START, COUNTS);
    let hours = counts_total(s, HOURS_START, COUNTS);
    refuse(outside(1, COUNTS_LIMIT, durations), Rule::Durations, 8)?;
    refuse(outside(1, COUNTS_LIMIT, hours), Rule::Hours, 56)
}

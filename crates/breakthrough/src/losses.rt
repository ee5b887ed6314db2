// What breaks through a row's canister: in the parkings of a season's list, and over a raise at their starts or ends.
ghost use Rattle.std.specs.Prelude.{◌≡◌, ℕ, ◌*◌, ◌/◌, ◌^◌};
ghost use Rattle.parking.specs.Grid.{is_end};
ghost use Rattle.parking.specs.SeasonList.{by_entry, ListFits};
ghost use Rattle.breakthrough.specs.Through.{curve_at, through, raise_through};

use crate::curve::through;
use crate::curves::Curves;
use marks::warmths::Raises;
use parking::cells::Moment;
use parking::grid::{CUT, Grid};
use parking::season_list::SeasonList;
use std::array;

// Of the rise in the parkings of the list: each entry in units of 2^-28 g, as often as it counts, summed.
pub fn through_list(list: &SeasonList, c: &Curves) -> u64
    requires { ListFits (72 * 2 ^ 40) list.now }
    ensures { result ≡ by_entry list.now (λ (start : ℕ) (rise : ℕ). through (curve_at c.now.by_distance start) rise / 2 ^ 12) }
{
    let mut sum: u64 = 0;
    for entry in &list.entries[..list.length] {
        let curve = c.by_distance[entry.kind.start];
        sum += entry.count * (through(curve, entry.kind.rise) / CUT);
    }
    sum
}

// Of the rise when the temperature at the start, or the end, of each parking is raised, the mean in units of 2^-28 g.
pub fn through_raises(grid: &Grid, moment: Moment, raises: &Raises, c: &Curves) -> u64
    ensures { result ≡ raise_through grid.now.cells.counts (is_end moment) raises.now.by_distance c.now.by_distance }
{
    let losses = array::from_fn(|d| through(c.by_distance[d], raises.by_distance[d]));
    grid.mean_by_distance(moment, &losses)
}

// The grid of a sheet, made once: its cells, how much each distance from 14:00 counts at the start and at the end of a parking, and the sum
// of the counts. Weighted means over it are in units of 2^-28 g: of values by cell, and of values that depend on the temperature of one
// moment, which stand by that moment's distance from 14:00.
ghost use Rattle.std.specs.Prelude.{false, true, ◌≡◌, ℕ, ◌*◌, ◌/◌, ◌^◌, ◌<◌};
ghost use Rattle.numbers.specs.Lists.{at, sum};
ghost use Rattle.numbers.specs.Bounded.{AllAtMost};
ghost use Rattle.exact.specs.Factors.{total};
ghost use Rattle.factors.specs.Means.{mean_units};
ghost use Rattle.parking.specs.Grid.{is_end, apart_of, tally};

use crate::cells::{Cells, Moment};

// From units of 2^-40 g, the values', to units of 2^-28 g.
pub const CUT: u64 = 4096;

#[derive(Clone, Copy)]
pub struct Grid {
    pub cells: Cells,
    pub starts: [u64; 25],
    pub ends: [u64; 25],
    pub sum: u64,
    ghost starts_are: { starts ≡ tally 25 (apart_of false) cells.counts 576 },
    ghost ends_are: { ends ≡ tally 25 (apart_of true) cells.counts 576 },
    ghost sum_is: { sum ≡ total cells.counts },
}

// Each value, in units of 2^-28 g, as often as it counts, summed.
fn weighted<const N: usize>(counts: &[u64; N], values: &[u64; N]) -> u64
    requires { sum (λ (k : ℕ). at counts.now k * (at values.now k / 2 ^ 12)) N < 2 ^ 64 }
    ensures { result ≡ sum (λ (k : ℕ). at counts.now k * (at values.now k / 2 ^ 12)) N }
{
    let mut sum: u64 = 0;
    for (&count, &value) in counts.iter().zip(values) {
        sum += count * (value / CUT);
    }
    sum
}

impl Grid {
    // The grid of the cells.
    pub fn new(cells: Cells) -> Grid
        ensures { result.cells.counts ≡ cells.counts }
    {
        let starts = cells.by_distance(Moment::Start);
        let ends = cells.by_distance(Moment::End);
        let sum = cells.total();
        Grid {
            cells,
            starts,
            ends,
            sum,
        }
    }

    // How much each distance from 14:00 counts at the start, or the end, of a parking.
    pub fn by_distance(&self, moment: Moment) -> &[u64; 25]
        ensures { result.now ≡ tally 25 (apart_of (is_end moment)) self.now.cells.counts 576 }
    {
        match moment {
            Moment::Start => &self.starts,
            Moment::End => &self.ends,
        }
    }

    // The mean of values by cell.
    pub fn mean_by_cell(&self, values: &[u64; 576]) -> u64
        requires { AllAtMost (2 ^ 54) values.now }
        ensures { result ≡ mean_units self.now.cells.counts (at values.now) }
    {
        weighted(&self.cells.counts, values) / self.sum
    }

    // The mean of values by distance from 14:00, taken at the start, or the end, of each parking.
    pub fn mean_by_distance(&self, moment: Moment, values: &[u64; 25]) -> u64
        requires { AllAtMost (2 ^ 54) values.now }
        ensures { result ≡ mean_units self.now.cells.counts (λ (cell : ℕ). at values.now (apart_of (is_end moment) cell)) }
    {
        weighted(self.by_distance(moment), values) / self.sum
    }
}

// The cells of the grid, end hour 1 first, its 24 durations in a row: what they hold, and at which marks their parkings start and end.
// They are one flat array since a sheet has them in this order.
ghost use Rattle.std.specs.Prelude.{◌≡◌, ◌^◌, ◌<◌, ◌≤◌};
ghost use Rattle.exact.specs.Day.{start_mark};
ghost use Rattle.exact.specs.Factors.{total, products};
ghost use Rattle.parking.specs.Grid.{CellsInRange, mark_of, is_end, apart_of, tally};

use bounds::hours::apart;

// The start or the end of a parking.
#[derive(Clone, Copy)]
pub enum Moment {
    Start,
    End,
}

// The products of two lists of counts.
pub fn products(durations: [u64; 24], hours: [u64; 24]) -> [u64; 576]
    requires { (total durations ≤ 1000) × (total hours ≤ 1000) }
    ensures { result ≡ products durations hours }
{
    let mut out = [0u64; 576];
    for (cell, product) in out.iter_mut().enumerate() {
        *product = durations[cell % 24] * hours[cell / 24];
    }
    out
}

// The mark at which a parking of d half-hours starts that ends at an hour; with d = 0, the mark at which it ends.
// What is asked for only keeps the sum and the difference in range.
#[tactic(auto, unfolding(exact::specs::Day::start_mark))]
pub fn start_mark(hour: usize, d: usize) -> usize
    requires { (hour ≤ 2 ^ 62) × (d ≤ 48) }
    ensures { (result ≡ start_mark hour d) × (result < 48) }
{
    (2 * hour + 48 - d) % 48
}

// The mark at which the parking of a cell starts, or ends.
pub fn mark_of(cell: usize, moment: Moment) -> usize
    ensures { (result ≡ mark_of (is_end moment) cell) × (result < 48) }
{
    match moment {
        Moment::Start => start_mark(cell / 24 + 1, cell % 24 + 1),
        Moment::End => start_mark(cell / 24 + 1, 0),
    }
}

// How far from 14:00 that mark is, in half-hours.
pub fn apart_of(cell: usize, moment: Moment) -> usize
    ensures { (result ≡ apart_of (is_end moment) cell) × (result ≤ 24) }
{
    apart(mark_of(cell, moment))
}

// The counts of the 576 cells: some parking is counted, and at most a million.
#[derive(Clone, Copy)]
pub struct Cells {
    pub counts: [u64; 576],
    ghost in_range: { CellsInRange counts },
}

// The loops go over ranges: with iterators over the arrays a report took 10 kB more stack.
impl Cells {
    // The sum of the counts.
    pub fn total(&self) -> u64
        ensures { result ≡ total self.now.counts }
    {
        let mut sum: u64 = 0;
        for cell in 0..576 {
            sum += self.counts[cell];
        }
        sum
    }

    // How much each distance from 14:00 counts at the start, or the end, of a parking.
    pub fn by_distance(&self, moment: Moment) -> [u64; 25]
        ensures { result ≡ tally 25 (apart_of (is_end moment)) self.now.counts 576 }
    {
        let mut out = [0u64; 25];
        for cell in 0..576 {
            let d = apart_of(cell, moment);
            out[d] += self.counts[cell];
        }
        out
    }
}

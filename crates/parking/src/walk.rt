// What passes in each parking, end hour by end hour: a half-hour further back adds its mark's value to what is carried along, so that
// an end hour takes 24 steps for its 24 parkings.
ghost use Rattle.std.specs.Prelude.{◌≡◌, ℕ, ◌+◌, ◌*◌, ◌-◌, ◌^◌, ◌<◌, ◌≤◌, length};
ghost use Rattle.numbers.specs.Lists.{tab};
ghost use Rattle.numbers.specs.Bounded.{AllAtMost};
ghost use Rattle.marks.specs.Marks.{rise_error};
ghost use Rattle.parking.specs.Grid.{passed_in};
ghost use Rattle.parking.specs.Walk.{steps_most, steps_back, walked};

use crate::cells::start_mark;
use std::array;

// How many end hours there are, and how many durations each has.
const HOURS: usize = 24;

const DURATIONS: usize = 24;

// How far the rises of a parking's steps, summed, can be too high: the error of a mark for each of two runs.
const RISE_ERROR: u64 = 582;

// What is carried along in an end hour: what passed since the mark that was reached, and in how many steps it was added up.
#[derive(Clone, Copy)]
pub struct Carried {
    pub passed: u64,
    pub steps: u64,
}

// A step back: the value of its mark is added, and the step is counted. Nothing else adds to what is carried.
fn step_back(before: Carried, value: u64) -> Carried
    requires { (before.passed + value < 2 ^ 64) × (before.steps < 2 ^ 32) }
    ensures { (result.passed ≡ before.passed + value) × (result.steps ≡ before.steps + 1) }
{
    Carried {
        passed: before.passed + value,
        steps: before.steps + 1,
    }
}

// What passed in each of the 24 parkings that end at an hour, the shortest first; and how many steps that took. The bound on the values is
// asked for here and twice below: they are rises once and rates once, so that no one type has it.
fn column(values: &[u64; 48], hour: usize, out: &mut [u64]) -> u64
    requires { AllAtMost (2 ^ 50) values.now × (hour ≤ 24) × (length out.old ≡ 24) }
    ensures { (out.new ≡ steps_back values.now hour 0 0 24) × (result ≡ steps_most) }
{
    let mut carried = Carried {
        passed: 0,
        steps: 0,
    };
    for (d, passed) in out.iter_mut().enumerate() {
        let mark = start_mark(hour, d + 1);
        carried = step_back(carried, values[mark]);
        *passed = carried.passed;
    }
    carried.steps
}

// What passed in every cell's parking, of values by mark, and how many steps that took.
#[derive(Clone, Copy)]
pub struct Walked {
    pub passed: [u64; 576],
    pub steps: u64,
}

// The end hours in turn, each from nothing. The columns are slices cut by hand: std doesn't say what a slice holds after `chunks_exact_mut` or
// `as_chunks_mut`, and the closure of `fill_blocks` returns nothing, so that the steps could not be summed.
pub fn walk(values: &[u64; 48]) -> Walked
    requires { AllAtMost (2 ^ 50) values.now }
    ensures { (result.passed ≡ walked values.now 24) × (result.steps ≡ 24 * steps_most) }
{
    let mut passed = [0u64; 576];
    let mut steps: u64 = 0;
    for hour in 0..HOURS {
        let from = DURATIONS * hour;
        let to = from + DURATIONS;
        steps += column(values, hour + 1, &mut passed[from..to]);
    }
    Walked { passed, steps }
}

// The rise in every cell's parking, from below, of the rises from each mark to the next. Not inlined, so that its arrays take stack only
// while it runs.
#[inline(never)]
pub fn rises(steps: &[u64; 48]) -> [u64; 576]
    requires { AllAtMost (2 ^ 50) steps.now }
    ensures { result ≡ tab (λ (cell : ℕ). passed_in steps.now cell - rise_error) 576 }
{
    let all = walk(steps);
    array::from_fn(|cell| all.passed[cell].saturating_sub(RISE_ERROR))
}

// The load that a canister starts with, from its net load, in units of 2^-40 g: the starting load m is the net load G and the loss at m.
// With y = E(a + b s G) that loss is y Θ(b s y).
ghost use Rattle.std.specs.Prelude.{◌≡◌, ◌*◌, ◌^◌, ◌≤◌};
ghost use Rattle.starting_loads.specs.Loss.{feedback, loss, loaded, start};
ghost use Rattle.starting_loads.specs.Balance.{BalanceReady};

use bounds::short;
use bounds::theta::theta;

// a + 16 and 2 b s of a canister at one temperature, in units of 2^-44.
#[derive(Clone, Copy)]
pub struct Line {
    pub base: u64,
    pub growth: u64,
}

// A row's canister at one temperature.
#[derive(Clone, Copy)]
pub struct Balance {
    pub line: Line,
    // The saturating load in units of 2^-40 g.
    pub saturation: u64,
}

// The divisors from one binary unit to another: Q44 is 2^-44.
const FROM_Q44_TO_Q32: u64 = 4096;

const FROM_Q65_TO_Q40: u64 = 33554432;

const FROM_Q63_TO_Q40: u64 = 8388608;

const FROM_Q36_TO_Q32: u64 = 16;

// b s y in units of 2^-40, where y is in units of 2^-32.
fn feedback(growth: u64, y: u64) -> u64
    requires { (growth ≤ 2 ^ 43) × (y ≤ 2 ^ 32) }
    ensures { (result ≡ feedback growth y) × (result ≤ 2 ^ 38) }
{
    growth / FROM_Q44_TO_Q32 * y / FROM_Q65_TO_Q40
}

// The loss at the starting load, where y is the loss at the net load.
fn loss(growth: u64, y: u64) -> u64
    requires { (growth ≤ 2 ^ 43) × (y ≤ 2 ^ 32) }
    ensures { (result ≡ loss growth y) × (result ≤ 2 ^ 41) }
{
    y * theta(feedback(growth, y)) / FROM_Q63_TO_Q40
}

// The starting load for this net load, which is at most the saturating load.
fn loaded(c: Balance, net: u64) -> u64
    requires { BalanceReady c × (net ≤ c.saturation) }
    ensures { result ≡ loaded c.line.base c.line.growth c.saturation net }
{
    let x = short::line(c.line.base, c.line.growth, net);
    let y = short::short(x) / FROM_Q36_TO_Q32;
    c.saturation.min(net + loss(c.line.growth, y))
}

// The starting load for any net load.
pub fn start(c: Balance, net: u64) -> u64
    requires { BalanceReady c }
    ensures { result ≡ start c.line.base c.line.growth c.saturation net }
{
    loaded(c, c.saturation.min(net))
}

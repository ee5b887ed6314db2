// The net load that a mileage implies, that is the starting load less the loss at it, in units of 2^-40 g.
ghost use Rattle.std.specs.Prelude.{◌≡◌, ◌*◌, ◌^◌, ◌<◌, ◌≤◌};
ghost use Rattle.thresholds.specs.Thresholds.{first_kilometres};
ghost use Rattle.starting_loads.specs.Net.{net, net_of};

use bounds::fixed::mul_add_div;
use thresholds::Mileage;

// 22.92 in units of 10^-16.
const OFFSET: u64 = 229200000000000000;

// 2^24 and 5^16: from units of 10^-16 to units of 2^-40.
const TWOS: u64 = 16777216;

const FIVES: u64 = 152587890625;

// (8.13 y - 22.92) / s, for 2 s = halves.
fn net_from(y: u64, halves: u64) -> u64
    requires { (282 * 10 ^ 12 ≤ y) × (y ≤ 14 * 10 ^ 14) × (0 < halves) }
    ensures { (result ≡ net halves y) × (result < 2 ^ 50) }
{
    mul_add_div(2 * (813 * y - OFFSET) / halves, TWOS, 0, FIVES)
}

// The net load of a canister with 2 s = halves.
pub fn net(mileage: Mileage, halves: u64) -> u64
    requires { (first_kilometres ≤ mileage.kilometres) × (0 < halves) }
    ensures { (result ≡ net_of halves mileage.kilometres) × (result < 2 ^ 50) }
{
    net_from(mileage.log_lower(), halves)
}

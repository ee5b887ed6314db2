// A factor in micrograms, from units of 2^-28 g: 10^6 / 2^28 is 15625 / 2^22.
ghost use Rattle.std.specs.Prelude.{◌≡◌, ◌*◌, ◌/◌, ◌^◌, ◌<◌};
ghost use Rattle.numbers.specs.Lists.{at};
ghost use Rattle.factors.specs.Units.{low_micrograms, high_micrograms};

use crate::units::Units;

// How far a factor can be above the computed one, in units of 2^-28 g.
const FACTOR_ERROR: u64 = 188;

// Cut down.
fn micrograms(units: u64) -> u64
    requires { units < 2 ^ 45 }
    ensures { result ≡ units * 15625 / 2 ^ 22 }
{
    units * 15625 / 4194304
}

// A factor of any units below 2^44, cut down.
#[tactic(auto, unfolding(factors::specs::Units::low_micrograms))]
pub fn low_micrograms(units: u64) -> u64
    requires { units < 2 ^ 44 }
    ensures { result ≡ low_micrograms units }
{
    micrograms(units)
}

// With what it can be off, cut up.
#[tactic(auto, unfolding(factors::specs::Units::high_micrograms))]
pub fn high_micrograms(units: u64) -> u64
    requires { units < 2 ^ 44 }
    ensures { result ≡ high_micrograms units }
{
    micrograms(units + FACTOR_ERROR) + 1
}

impl Units {
    // The factor at a place, cut down. A place and no enum, since what asks for them goes through all seven by it.
    #[tactic(auto, using(crate::proofs::Range::units_fit))]
    pub fn low(&self, place: usize) -> u64
        requires { place < 7 }
        ensures { result ≡ low_micrograms (at self.now.factors place) }
    {
        low_micrograms(self.factors[place])
    }

    // The factor at a place with what it can be off, cut up.
    #[tactic(auto, using(crate::proofs::Range::units_fit))]
    pub fn high(&self, place: usize) -> u64
        requires { place < 7 }
        ensures { result ≡ high_micrograms (at self.now.factors place) }
    {
        high_micrograms(self.factors[place])
    }
}

// A mass split among the species of the guidebook's Table 3-14.
#![tactic(auto)]

ghost use Rattle.std.specs.Prelude.{◌≡◌, ◌+◌, ◌-◌, ◌≤◌};
ghost use Rattle.speciation.specs.Table.{shares};
ghost use Rattle.speciation.specs.Split.{all_shares, part_of, species_masses, SpeciesPromise};

// Table 3-14 in printed order, in hundredths of a percent.
static SHARES: [u64; 29] = [
    // alkanes
    30, 515, 438, 586, 1069, 772, 1402, 2514, 202, 165,
    // alkenes
    5, 28, 72, 119, 12, 105, 0, 160, 75, 0,
    // alkines
    7, 1,
    // aromatics
    97, 394, 352, 579, 252, 50, 0,
];

// What they sum to, and so what a share is out of.
const ALL_SHARES: u64 = 10001;

// The whole part of total · c / 10,001. Since c is at most 10,001, each product fits. Not by `mul_add_div` of bounds, which cuts so too: this
// crate stands on `numbers` alone.
fn part_of(total: u64, c: u64) -> u64
    requires { c ≤ all_shares }
    ensures { result ≡ part_of total c }
{
    total / ALL_SHARES * c + total % ALL_SHARES * c / ALL_SHARES
}

// What a species gets, from the sum of the shares before it and its own.
fn mass_of(total: u64, before: u64, share: u64) -> u64
    requires { before + share ≤ all_shares }
    ensures { result ≡ part_of total (before + share) - part_of total before }
{
    part_of(total, before + share) - part_of(total, before)
}

// The masses of the 29 species in printed order, in the unit of the total.
pub fn split(total: u64) -> [u64; 29]
    ensures { (result ≡ species_masses total) × SpeciesPromise total result }
{
    let mut masses = [0u64; 29];
    let mut before: u64 = 0;
    // By the place and not by `zip`: once a loop over `iter_mut().zip(..)` has ended, a proof knows the length of the array and not its masses.
    for (i, &share) in SHARES.iter().enumerate() {
        masses[i] = mass_of(total, before, share);
        before += share;
    }
    masses
}

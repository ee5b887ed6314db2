// A number in a range, and a season whose values are.
ghost use Rattle.std.specs.Prelude.{◌≡◌};
ghost use Rattle.sheet.specs.Range.{SeasonInRange};
ghost use Rattle.sheet.specs.Sheet.{outside};

use exact::Season;

// A season whose temperatures and vapour pressure are in range, as those of an accepted sheet are.
#[derive(Clone, Copy)]
pub struct CheckedSeason {
    pub season: Season,
    pub ghost in_range: { SeasonInRange season },
}

// A number outside least to most.
#[tactic(auto, unfolding(sheet::specs::Sheet::outside))]
pub fn outside(least: u64, most: u64, x: u64) -> bool
    ensures { result ≡ outside least most x }
{
    !(least..=most).contains(&x)
}

// The exponent a + b·s·m of a row's saturating load m, in the seasons of its sheet: what numbers 20 and 25 demand of it.
ghost use Rattle.std.specs.Prelude.{◌≡◌, ◌+◌, ◌*◌, ◌-◌, ◌/◌, ◌<◌, ◌≤◌, ltb, MatchOption};
ghost use Rattle.sheet.specs.Bytes.{seasons_of};
ghost use Rattle.sheet.specs.Range.{warmth, halves};
ghost use Rattle.sheet.specs.Sheet.{saturation_above, some_season};

use crate::passed_seasons::PassedSeasons;
use exact::Canister;
use fields::classes::halves;
use fields::range::CheckedSeason;
use fields::warmth;

// What one season allows of a saturating load of m tenths of a gram, times 20,000,000: growth·m is at most room.
#[derive(Clone, Copy)]
struct Allowance {
    growth: u64,
    room: u64,
    ghost growth_fits: { growth ≤ 480000 },
    ghost room_fits: { room ≤ 352000000 },
}

// More than any room, so that every growth but 0 makes too much of it, as it does of all that is more.
const BEYOND: u64 = 352000001;

impl Allowance {
    // m is too much.
    fn is_exceeded(self, m: u64) -> bool
        ensures { result ≡ ltb self.room (self.growth * m) }
    {
        self.room < self.growth * m.min(BEYOND)
    }

    // The largest m that is not; none where each is allowed.
    fn largest(self) -> Option<u64>
        ensures { MatchOption result (self.growth ≡ 0) (λ most. (0 < self.growth) × (most ≡ self.room / self.growth)) }
    {
        self.room.checked_div(self.growth)
    }
}

// What the saturating load of a row is held to: with its canister the exponent is at most the limit, in every season.
#[derive(Clone, Copy)]
pub struct Demand {
    pub limit: u64,
    pub canister: Option<Canister>,
    ghost in_range: { limit ≤ 3 },
}

impl Demand {
    // Beside a written load, and in a row without a mileage, the exponent is at most 3.
    pub fn beside_load(canister: Option<Canister>) -> Demand
        ensures { (result.limit ≡ 3) × (result.canister ≡ canister) }
    {
        Demand { limit: 3, canister }
    }

    // Beside a mileage it is at most 0.
    pub fn beside_mileage(canister: Option<Canister>) -> Demand
        ensures { (result.limit ≡ 0) × (result.canister ≡ canister) }
    {
        Demand { limit: 0, canister }
    }

    // In one season, at its highest temperature. At h tenths above −30 °C, 20000000·a is 130000·h − 2000·(129500 + 15·vp), and 1000000·b
    // is 112000 + 10·h − 15·vp. Without a canister s is 0, and a alone is below 0.
    fn in_season(self, checked: CheckedSeason) -> Allowance
        ensures { let h = warmth checked.season.highest in
            (result.growth ≡ (112000 + 10 * h - 15 * checked.season.vp) * halves self.canister)
            × (result.room ≡ self.limit * 20000000 + 2000 * (129500 + 15 * checked.season.vp) - 130000 * h) }
    {
        let season = checked.season;
        let highest = warmth(season.highest);
        let b = 112000 + 10 * highest - 15 * season.vp;
        let most = self.limit * 20000000 + 2000 * (129500 + 15 * season.vp);
        Allowance {
            growth: b * halves(self.canister),
            room: most - 130000 * highest,
        }
    }

    // The largest m, in tenths of a gram, with which the exponent is not above the limit in this season. Without a canister there is none,
    // since it never is.
    pub fn largest_in(self, checked: CheckedSeason) -> Option<u64>
        ensures { let h = warmth checked.season.highest in
            let growth = (112000 + 10 * h - 15 * checked.season.vp) * halves self.canister in
            MatchOption result (halves self.canister ≡ 0) (λ most. (0 < halves self.canister)
            × (most ≡ (self.limit * 20000000 + 2000 * (129500 + 15 * checked.season.vp) - 130000 * h) / growth)) }
    {
        self.in_season(checked).largest()
    }

    // With m it is above the limit in this season.
    pub fn is_above(self, m: u64, checked: CheckedSeason) -> bool
        ensures { result ≡ saturation_above self.limit self.canister m checked.season }
    {
        self.in_season(checked).is_exceeded(m)
    }

    // In some season.
    pub fn is_above_in_some(self, m: u64, seasons: PassedSeasons) -> bool
        ensures { let s = seasons.entry.sheet.now in
            result ≡ some_season (saturation_above self.limit self.canister m) s (seasons_of s) }
    {
        (0..seasons.count()).any(|j| self.is_above(m, seasons.season(j)))
    }
}

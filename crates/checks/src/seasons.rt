// Each season: numbers 10 to 12.
ghost use Rattle.std.specs.Prelude.{◌≡◌, ◌+◌, ◌<◌, ◌≤◌, MatchResult, length};
ghost use Rattle.sheet.specs.Limits.{days_limit};
ghost use Rattle.sheet.specs.Bytes.{seasons_of, season_place, row_place};
ghost use Rattle.refusals.specs.Check.{Pass, each};
ghost use Rattle.sheet.specs.Sheet.{temperatures_wrong, season_check};
ghost use Rattle.sheet.specs.RunningSums.{days_before};

use crate::passed_seasons::PassedSeasons;
use exact::Season;
use fields::limits::{COLD_LIMIT, DAYS_LIMIT, VP_LEAST, VP_LIMIT, WARM_LIMIT};
use fields::range::outside;
use fields::{season_at, season_place, seasons_of, warmth};
use refusals::{Check, Refusal, Rule, refuse};

// The temperatures are out of range or the wrong way round. A lowest that is not above the highest is in range where that is.
fn temperatures_wrong(season: Season) -> bool
    requires { (season.lowest < 65536) × (season.highest < 65536) }
    ensures { result ≡ temperatures_wrong season }
{
    let lowest = warmth(season.lowest);
    let highest = warmth(season.highest);
    (COLD_LIMIT + WARM_LIMIT < highest) | (highest < lowest)
}

// Season i, with the days of the seasons before it. Its bytes are asked for: it is what makes the sheet accepted.
#[tactic(auto, using(refusals::proofs::Chain::chained), unfolding(sheet::specs::Sheet::season_check))]
fn season_check(s: &[u8], i: usize, before: u64) -> Check
    requires { (season_place s.now i + 8 ≤ length s.now) × (before ≡ days_before s.now i) × (before ≤ days_limit) }
    ensures { result ≡ season_check s.now i }
{
    let season = season_at(s, i);
    let place = season_place(s, i) as u64;
    let days = outside(1, DAYS_LIMIT, season.days) | (DAYS_LIMIT < before + season.days);
    refuse(days, Rule::Days, place)?;
    refuse(temperatures_wrong(season), Rule::Temperatures, place)?;
    refuse(
        outside(VP_LEAST, VP_LIMIT, season.vp),
        Rule::VapourPressure,
        place,
    )
}

// The seasons one after another, with their running sum of days: the sheet with the word that they have passed, or the first refusal.
// An iterator with the sum before each would be written for this loop alone.
#[tactic(auto, using(refusals::proofs::Chain::chained, sheet::proofs::Versions::start_between, crate::proofs::OneMore::seasons_on))]
pub fn seasons_check(s: &[u8]) -> Result<PassedSeasons<'_>, Refusal>
    requires { row_place s.now 0 ≤ length s.now }
    ensures { let checks = each (season_check s.now) (seasons_of s.now) in
        MatchResult result (λ seasons. (seasons.sheet.now ≡ s.now) × (checks ≡ Pass)) (λ refusal. checks ≡ Err refusal) }
{
    let mut before: u64 = 0;
    for i in 0..seasons_of(s) {
        season_check(s, i, before)?;
        before += season_at(s, i).days;
    }
    Ok(PassedSeasons { sheet: s })
}

// Each season: numbers 10 to 12.
#![tactic(auto)]

ghost use Rattle.std.specs.Prelude.{◌≡◌, ◌+◌, ◌*◌, ◌<◌, ◌≤◌, MatchResult, length};
ghost use Rattle.sheet.specs.Bytes.{seasons_of, season_place, row_place};
ghost use Rattle.sheet.specs.RunningSums.{days_before};
ghost use Rattle.findings.specs.Lines.{none_found, each_finding};
ghost use Rattle.findings.specs.Table.{shifted, days_finding, weather_finding, season_finding};

use checks::passed_seasons::PassedSeasons;
use exact::Season;
use fields::limits::{COLD_LIMIT, DAYS_LIMIT, VP_LEAST, VP_LIMIT, WARM_LIMIT};
use fields::{season_at, season_place, seasons_of};
use finding_lines::Record;
use findings::reasons::Reason;
use findings::spans::{DAYS, HIGHEST, LOWEST, VAPOUR_PRESSURE};
use findings::{Found, Judged, Limits};

// What a temperature is shifted by, so that none is below 0.
const SHIFT: u16 = 32768;

const COLDEST: u64 = 32768 - COLD_LIMIT;

const WARMEST: u64 = 32768 + WARM_LIMIT;

// A temperature in tenths of °C, shifted.
fn shifted(tenths: u64) -> u64
    requires { tenths < 65536 }
    ensures { result ≡ shifted tenths }
{
    u64::from((tenths as u16).wrapping_add(SHIFT))
}

// A season in its sheet: where it starts, which it is, what it says, and the days of the seasons before.
#[derive(Clone, Copy)]
struct SeasonAt {
    at: Record,
    season: Season,
    before: u64,
    ghost days_fit: { season.days < 65536 },
    ghost lowest_fits: { season.lowest < 65536 },
    ghost highest_fits: { season.highest < 65536 },
    ghost before_fits: { before ≤ 65536 * 256 },
}

impl SeasonAt {
    // Number 10.
    #[tactic(auto, using(findings::proofs::Steps::in_order), unfolding(findings::specs::Table::days_finding))]
    fn days_finding(self) -> Judged
        ensures { result ≡ days_finding self.at.index self.at.place self.season self.before }
    {
        let (at, days) = (self.at, self.season.days);
        let range = Limits::between(1, DAYS_LIMIT);
        at.judge(Reason::Days, DAYS, days, range)?;
        at.judge(Reason::DaysSoFar, DAYS, self.before + days, range)
    }

    // Numbers 11 and 12.
    #[tactic(auto, using(findings::proofs::Steps::in_order), unfolding(findings::specs::Table::weather_finding))]
    fn weather_finding(self) -> Judged
        ensures { result ≡ weather_finding self.at.index self.at.place self.season }
    {
        let (at, vp) = (self.at, self.season.vp);
        let lowest = shifted(self.season.lowest);
        let highest = shifted(self.season.highest);
        let range = Limits::between(COLDEST, WARMEST);
        let below = Limits::between(COLDEST, highest);
        let pressure = Limits::between(VP_LEAST, VP_LIMIT);
        at.judge(Reason::Lowest, LOWEST, lowest, range)?;
        at.judge(Reason::Highest, HIGHEST, highest, range)?;
        at.judge(Reason::LowestAboveHighest, LOWEST, lowest, below)?;
        at.judge(Reason::VapourPressure, VAPOUR_PRESSURE, vp, pressure)
    }
}

// Season i, with the days of the seasons before it. The season's bytes are asked for, since the sheet is not accepted yet.
#[tactic(auto, using(findings::proofs::Steps::in_order), unfolding(findings::specs::Table::season_finding))]
fn season_finding(s: &[u8], i: usize, before: u64) -> Judged
    requires { (season_place s.now i + 8 ≤ length s.now) × (i < 256) × (before ≡ days_before s.now i) × (before ≤ 65536 * 256) }
    ensures { result ≡ season_finding s.now i }
{
    let here = SeasonAt {
        at: Record {
            place: season_place(s, i) as u64,
            index: i as u64,
        },
        season: season_at(s, i),
        before,
    };
    here.days_finding()?;
    here.weather_finding()
}

// The seasons one after another, with their running sum of days: the sheet with the word that they have passed, or the first finding. An
// iterator over the seasons with the days before each would be a type for this loop alone, and no plainer.
#[tactic(auto, using(findings::proofs::Steps::in_order))]
pub fn seasons_finding(s: &[u8]) -> Result<PassedSeasons<'_>, Found>
    requires { row_place s.now 0 ≤ length s.now }
    ensures { let findings = each_finding (season_finding s.now) (seasons_of s.now) in
        MatchResult result (λ seasons. (seasons.sheet.now ≡ s.now) × (findings ≡ none_found)) (λ found. findings ≡ Err found) }
{
    let mut before: u64 = 0;
    for i in 0..seasons_of(s) {
        season_finding(s, i, before)?;
        before += season_at(s, i).days;
    }
    Ok(PassedSeasons { sheet: s })
}

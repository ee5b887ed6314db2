// What the two calls for factors ask for: a row of an accepted sheet in one of its seasons, and one of its seven factors.
ghost use Rattle.std.specs.Prelude.{◌≡◌, ℕ, ◌+◌, ◌^◌, ◌<◌, ◌≤◌, true, false, MatchResult};
ghost use Rattle.refusals.specs.Check.{Pass};
ghost use Rattle.row_factors.specs.Seven.{seven_units};
ghost use Rattle.sheet.specs.Bytes.{seasons_of, rows_of, cells_of, season_at, row_at};
ghost use Rattle.sheet.specs.Sheet.{outside};
ghost use Rattle.inventory.specs.FactorAnswers.{absent, band, factor_check, factor_number, units_at};

use crate::Band;
use checks::accepted::Accepted;
use refusals::{Refusal, Rule, refuse};
use row_factors::units::Units;
use sheet_factors::factors_at::factors_at;

// The seven factors, under the numbers by which a call asks for them.
#[derive(Clone, Copy, Debug, PartialEq, Eq)]
pub enum Factor {
    // Of a day's parkings.
    Diurnal = 1,
    // Of a soak after a trip: with fuel injection, and with a carburettor after a warm and a hot engine.
    SoakInjection = 2,
    SoakWarm = 3,
    SoakHot = 4,
    // Of a trip itself, likewise.
    RunningInjection = 5,
    RunningWarm = 6,
    RunningHot = 7,
}

impl Factor {
    // Its number, 1 to 7.
    #[tactic(auto, unfolding(crate::specs::FactorAnswers::factor_number))]
    pub fn number(self) -> usize
        ensures { (result ≡ factor_number self) × (1 ≤ result) × (result ≤ 7) }
    {
        self as usize
    }
}

impl TryFrom<u64> for Factor {
    type Error = Refusal;

    ghost try_from_gives = { λ k r. MatchResult r (λ factor. (factor_number factor ≡ k) × (outside 1 7 k ≡ false))
        (λ refusal. (refusal ≡ absent) × (outside 1 7 k ≡ true)) };

    #[tactic(auto, unfolding(crate::specs::FactorAnswers::factor_number, sheet::specs::Sheet::outside))]
    fn try_from(k: u64) -> Result<Factor, Refusal> {
        match k {
            1 => Ok(Factor::Diurnal),
            2 => Ok(Factor::SoakInjection),
            3 => Ok(Factor::SoakWarm),
            4 => Ok(Factor::SoakHot),
            5 => Ok(Factor::RunningInjection),
            6 => Ok(Factor::RunningWarm),
            7 => Ok(Factor::RunningHot),
            _ => Err(Refusal {
                rule: Rule::Absent,
                place: 0,
            }),
        }
    }
}

// A row of an accepted sheet in one of its seasons, both counted from 0.
#[derive(Clone, Copy)]
pub struct AskedRow<'a> {
    pub sheet: Accepted<'a>,
    pub season: usize,
    pub row: usize,
    ghost season_there: { season < seasons_of sheet.bytes.now },
    ghost row_there: { row < rows_of sheet.bytes.now },
}

impl<'a> AskedRow<'a> {
    // Of a sheet, where every check of it passes and it has the season and the row; else why the call for any factor is refused.
    #[tactic(auto, using(crate::proofs::CallConditions::asking))]
    pub fn of(s: &'a [u8], season: u64, row: u64) -> Result<Self, Refusal>
        ensures { MatchResult result (λ asked. (asked.sheet.bytes.now ≡ s.now) × (asked.season ≡ season) × (asked.row ≡ row))
            (λ refusal. (k : ℕ) → factor_check s.now season row k ≡ Err refusal) }
    {
        let sheet = Accepted::of(s)?;
        let absent = (sheet.seasons() as u64 <= season) | (sheet.rows() as u64 <= row);
        refuse(absent, Rule::Absent, 0)?;
        Ok(AskedRow {
            sheet,
            season: season as usize,
            row: row as usize,
        })
    }

    // Its seven factors, in units of 2^-28 g.
    pub fn units(self) -> Units
        ensures { result.factors ≡ seven_units (season_at self.entry.sheet.bytes.now self.entry.season)
            (row_at self.entry.sheet.bytes.now self.entry.row) (cells_of self.entry.sheet.bytes.now) }
    {
        factors_at(self.sheet, self.season, self.row)
    }

    // The band of one of them.
    #[tactic(auto, using(crate::proofs::Numbered::unit_at))]
    pub fn band_of(self, factor: Factor) -> Band
        ensures { result ≡ band (units_at self.entry.sheet.bytes.now self.entry.season self.entry.row (factor_number factor)) }
    {
        let units = self.units();
        Band::of(&units, factor.number() - 1)
    }
}

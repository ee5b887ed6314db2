// A row's words and where its vehicles drive, once they have passed their checks.
ghost use Rattle.std.specs.Prelude.{◌≡◌, true, false, MatchResult};
ghost use Rattle.map_cells.specs.Sums.{cell_refusal};
ghost use Rattle.map_shares.specs.Demands.{TravelIn, WordsIn};
ghost use Rattle.map_rows.specs.Rows.{amiss, travel_refusal, travel_wrong, span_wrong, words_wrong};

use map_cells::doubles::MASS_LIMIT;
use map_shares::{Span, Travel, Words};
use refusals::{Refusal, Rule, refuse};

const TRAVEL_LIMIT: u64 = 1000000;

// Where a row's vehicles drive: every mileage and speed is from 1 to 1,000,000.
#[derive(Clone, Copy)]
pub struct CheckedTravel {
    pub travel: Travel,
    ghost within: { TravelIn travel },
}

// A row's words: no low is above its high, and no word above 2^53.
#[derive(Clone, Copy)]
pub struct CheckedWords {
    pub words: Words,
    ghost within: { WordsIn words },
}

// Travel and words are made alike, each with a test and a rule of its own; one conversion for both would take all four as parameters.
impl TryFrom<Travel> for CheckedTravel {
    type Error = Refusal;

    ghost try_from_gives = { λ t r.
        MatchResult r (λ c. (c.travel ≡ t) × (travel_wrong t ≡ false)) (λ e. (travel_wrong t ≡ true) × (e ≡ travel_refusal)) };

    fn try_from(travel: Travel) -> Result<CheckedTravel, Refusal> {
        refuse(travel_wrong(travel), Rule::Travel, 0)?;
        Ok(CheckedTravel { travel })
    }
}

impl TryFrom<Words> for CheckedWords {
    type Error = Refusal;

    ghost try_from_gives = { λ w r.
        MatchResult r (λ c. (c.words ≡ w) × (words_wrong w ≡ false)) (λ e. (words_wrong w ≡ true) × (e ≡ cell_refusal)) };

    fn try_from(words: Words) -> Result<CheckedWords, Refusal> {
        refuse(words_wrong(words), Rule::Cell, 0)?;
        Ok(CheckedWords { words })
    }
}

// A mileage or a speed that is not from 1 to 1,000,000.
#[tactic(auto, unfolding(crate::specs::Rows::amiss))]
fn amiss(x: u64) -> bool
    ensures { result ≡ amiss x }
{
    !(1..=TRAVEL_LIMIT).contains(&x)
}

#[tactic(auto, unfolding(crate::specs::Rows::travel_wrong))]
fn travel_wrong(t: Travel) -> bool
    ensures { result ≡ travel_wrong t }
{
    amiss(t.mileage.urban)
        | amiss(t.mileage.rural)
        | amiss(t.mileage.highway)
        | amiss(t.speed.rural)
        | amiss(t.speed.highway)
}

// A low above its high, or a word above 2^53.
#[tactic(auto, unfolding(crate::specs::Rows::span_wrong))]
fn span_wrong(s: Span) -> bool
    ensures { result ≡ span_wrong s }
{
    (s.high < s.low) | (MASS_LIMIT < s.high)
}

#[tactic(auto, unfolding(crate::specs::Rows::words_wrong))]
fn words_wrong(w: Words) -> bool
    ensures { result ≡ words_wrong w }
{
    span_wrong(w.diurnal) | span_wrong(w.soak) | span_wrong(w.running)
}

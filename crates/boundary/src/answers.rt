// The answers of the calls on sheets as numbers.
ghost use Rattle.std.specs.Prelude.{◌≡◌, Err};
ghost use Rattle.refusals.specs.Check.{number_of, place_of};
ghost use Rattle.boundary.specs.Bulk.{row_factors_numbers};
ghost use Rattle.boundary.specs.Export.{check_numbers, factor_numbers};
ghost use Rattle.boundary.specs.PoolExport.{pool_numbers};
ghost use Rattle.boundary.specs.TextExport.{text_numbers};

use crate::{EvpCheck, EvpFactor, EvpPool, EvpRowFactors, EvpText};
use factor_table::bands::in_words;
use inventory::Band;
use pooling::PoolRefusal;
use refusals::{Check, Refusal};

// The number and the place of an answer, whatever it is of; both are 0 where it is no refusal.
#[tactic(auto, unfolding(refusals::specs::Check::number_of, refusals::specs::Check::place_of))]
pub(crate) fn told<T>(answer: &Result<T, Refusal>) -> EvpCheck
    ensures { result ≡ record { number = number_of answer.now; place = place_of answer.now } }
{
    match answer {
        Ok(_) => EvpCheck {
            number: 0,
            place: 0,
        },
        Err(why) => EvpCheck {
            number: why.rule.number(),
            place: why.place,
        },
    }
}

impl From<Check> for EvpCheck {
    ghost from_gives = { λ c r. r ≡ check_numbers c };

    #[tactic(auto, using(crate::proofs::Numbers::check_told))]
    fn from(c: Check) -> EvpCheck {
        told(&c)
    }
}

impl From<Result<Band, Refusal>> for EvpFactor {
    ghost from_gives = { λ a r. r ≡ factor_numbers a };

    fn from(a: Result<Band, Refusal>) -> EvpFactor {
        let EvpCheck { number, place } = told(&a);
        let Band { low, high } = a.unwrap_or(Band { low: 0, high: 0 });
        EvpFactor {
            number,
            place,
            low,
            high,
        }
    }
}

impl From<Result<[Band; 7], Refusal>> for EvpRowFactors {
    ghost from_gives = { λ a r. r ≡ row_factors_numbers a };

    fn from(a: Result<[Band; 7], Refusal>) -> EvpRowFactors {
        let EvpCheck { number, place } = told(&a);
        EvpRowFactors {
            number,
            place,
            bands: a.map_or([0; 14], in_words),
        }
    }
}

// What the report's check says of a text, and the length of the text.
impl From<(Check, usize)> for EvpText {
    ghost from_gives = { λ a r. r ≡ text_numbers a.0 a.1 };

    fn from((check, bytes): (Check, usize)) -> EvpText {
        let told = EvpCheck::from(check);
        EvpText {
            number: told.number,
            place: told.place,
            bytes: bytes as u64,
        }
    }
}

// A refusal, of one of three sheets; no bytes are written.
impl From<PoolRefusal> for EvpPool {
    ghost from_gives = { λ why r. r ≡ pool_numbers (Err why) 0 };

    fn from(why: PoolRefusal) -> EvpPool {
        let (refusal, sheet) = match why {
            PoolRefusal::First(refusal) => (refusal, 1),
            PoolRefusal::Second(refusal) => (refusal, 2),
            PoolRefusal::Pooled(refusal) => (refusal, 3),
        };
        EvpPool {
            number: refusal.rule.number(),
            place: refusal.place,
            sheet,
            bytes: 0,
        }
    }
}

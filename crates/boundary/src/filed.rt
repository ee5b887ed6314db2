// A filed figure as the mark takes it, and the verdict as numbers.
ghost use Rattle.std.specs.Prelude.{◌≡◌, Some, None, MatchResult};
ghost use Rattle.boundary.specs.MarkExport.{unit_handed, figure, verdict_numbers};

use crate::{EvpFiled, EvpVerdict};
use marking::{Filed, Unit, Verdict};

// The number of a unit that is none.
#[derive(Clone, Copy, Debug, PartialEq, Eq)]
pub struct NoUnit;

impl TryFrom<EvpFiled> for Filed {
    type Error = NoUnit;

    ghost try_from_gives = { λ f r.
        MatchResult r (λ x. (unit_handed f.unit ≡ Some x.unit) × (x ≡ figure f.digits f.places x.unit)) (λ _. unit_handed f.unit ≡ None) };

    #[tactic(auto, unfolding(crate::specs::MarkExport::unit_handed))]
    fn try_from(f: EvpFiled) -> Result<Filed, NoUnit> {
        let unit = match f.unit {
            0 => Unit::Milligram,
            1 => Unit::Gram,
            2 => Unit::Kilogram,
            3 => Unit::Tonne,
            _ => return Err(NoUnit),
        };
        Ok(Filed {
            digits: f.digits,
            places: f.places,
            unit,
        })
    }
}

impl From<Verdict> for EvpVerdict {
    ghost from_gives = { λ v r. r ≡ verdict_numbers v };

    #[tactic(auto, unfolding(crate::specs::MarkExport::verdict_numbers))]
    fn from(v: Verdict) -> EvpVerdict {
        match v {
            Verdict::Agrees => EvpVerdict { verdict: 0, off: 0 },
            Verdict::Fits => EvpVerdict { verdict: 1, off: 0 },
            Verdict::Low(off) => EvpVerdict { verdict: 2, off },
            Verdict::High(off) => EvpVerdict { verdict: 3, off },
            Verdict::Unreadable => EvpVerdict { verdict: 4, off: 0 },
        }
    }
}

// The species of a sheet as numbers.
ghost use Rattle.std.specs.Prelude.{◌≡◌};
ghost use Rattle.boundary.specs.CompositionExport.{composition_numbers};

use crate::answers::told;
use crate::{EvpCheck, EvpComposition};
use refusals::Refusal;
use species_report::composition::Composition;

// Zeros stand beside a refusal.
impl From<Result<Composition, Refusal>> for EvpComposition {
    ghost from_gives = { λ a r. r ≡ composition_numbers a };

    fn from(a: Result<Composition, Refusal>) -> EvpComposition {
        let EvpCheck { number, place } = told(&a);
        let Composition { total, milligrams } = a.unwrap_or(Composition {
            total: 0,
            milligrams: [0; 29],
        });
        EvpComposition {
            number,
            place,
            total,
            milligrams,
        }
    }
}

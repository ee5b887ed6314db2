// The seven factors of a row in a season, in units of 2^-28 g.
ghost use Rattle.std.specs.Prelude.{◌≡◌, ◌+◌, ◌^◌, ◌<◌};
ghost use Rattle.row_factors.specs.Season.{RowReady};
ghost use Rattle.row_factors.specs.Units.{UnitsInRange};
ghost use Rattle.row_factors.specs.Seven.{SevenFit, seven_of, seven_units};

use crate::escapes::{Escapes, Kind};
use crate::rows::SeasonRows;
use crate::season::Means;
use breakthrough::loads::LoadedRow;

// An array, since document 01 numbers the factors 1 to 7: factor k stands at place k - 1. The call for one factor is given its number, and the
// others go through all seven.
#[derive(Clone, Copy)]
pub struct Units {
    pub factors: [u64; 7],
    pub ghost in_range: { UnitsInRange factors },
}

#[tactic(auto, unfolding(crate::specs::Seven::seven_of))]
impl Kind {
    // The factors of a car: permeation in a parking, in a soak and in the minutes of a trip, and the escapes besides. Of a two-wheeler:
    // permeation counts in a parking alone.
    fn factors(self, e: &Escapes, m: &Means, minutes: u64) -> [u64; 7]
        requires { SevenFit e.now m.now minutes }
        ensures { result ≡ seven_of self e.now m.now minutes }
    {
        let parking = e.parking + m.permeation;
        let run = minutes * m.run / 60;
        match self {
            Kind::Car => [
                parking,
                m.soak,
                e.soak + m.soak,
                e.hotsoak + m.soak,
                run,
                run + e.trip,
                run + e.hottrip,
            ],
            Kind::TwoWheeler => [
                parking, e.soak, e.hotsoak, e.hotsoak, e.trip, e.hottrip, e.hottrip,
            ],
        }
    }
}

impl SeasonRows<'_> {
    // The seven factors of a row. It takes the season by value, with the two arrays of its marks, as document 01 has it. Inlined, so that a row
    // copies these two arrays and no more.
    #[inline(always)]
    pub fn units(self, row: LoadedRow) -> Units
        requires { RowReady self.grid.now.cells.counts self.list.now self.at.now.season row.row }
        ensures { result.factors ≡ seven_units self.entry.at.now.season row.row self.entry.grid.now.cells.counts }
    {
        let kind = Kind::of(row.row.class);
        let escapes = self.escapes(kind, row);
        Units {
            factors: kind.factors(&escapes, &self.at.means, row.row.minutes),
        }
    }
}

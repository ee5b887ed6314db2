// What escapes on average from a row's tank in a season, with a canister and without, in units of 2^-28 g.
ghost use Rattle.std.specs.Prelude.{◌≡◌, ◌*◌, ◌^◌, ◌<◌, ◌≤◌};
ghost use Rattle.sheet.specs.Range.{RowInRange, halves};
ghost use Rattle.factors.specs.Units.{gain};
ghost use Rattle.parking.specs.SeasonList.{ListFits};
ghost use Rattle.breakthrough.specs.Lines.{CurvesOf};
ghost use Rattle.row_factors.specs.Season.{lines_in, RowReady};
ghost use Rattle.row_factors.specs.Seven.{parking_through, kind_of, RisesOf, VapourOf, RisesInRange, EscapesOf};

use crate::rows::SeasonRows;
use crate::season::Day;
use bounds::exp::{ZERO, exponential};
use bounds::fixed::mul_shift;
use breakthrough::curves::Curves;
use breakthrough::fitting::fit;
use breakthrough::loads::LoadedRow;
use breakthrough::losses::{through_list, through_raises};
use exact::{Canister, Row};
use parking::cells::Moment;
use starting_loads::loads::Line;

// The guidebook gives cars and two-wheelers different raises, and a car with canister loses no vapour on a trip.
#[derive(Clone, Copy)]
pub enum Kind {
    Car,
    TwoWheeler,
}

// In a parking, over the lesser raise of a soak and of a trip, and over the greater.
#[derive(Clone, Copy)]
pub struct Escapes {
    pub parking: u64,
    pub soak: u64,
    pub hotsoak: u64,
    pub trip: u64,
    pub hottrip: u64,
}

// E(0.0205 vp): what the exponent gains with each tenth of a kPa.
const VAPOUR_EXPONENT: u64 = 205000000000;

#[tactic(auto, unfolding(crate::specs::Seven::kind_of))]
impl Kind {
    // Of a class: 1 to 4 are cars.
    pub fn of(class: u64) -> Kind
        ensures { result ≡ kind_of class }
    {
        if class < 5 {
            Kind::Car
        } else {
            Kind::TwoWheeler
        }
    }
}

// Without canister, from the mean rises: vapour grows evenly with the rise, so that of the mean rise is the mean.
fn open_escapes(gain: u64, rises: Escapes) -> Escapes
    requires { (gain < 2 ^ 50) × RisesInRange rises }
    ensures { VapourOf gain rises result }
{
    Escapes {
        parking: mul_shift(gain, rises.parking),
        soak: mul_shift(gain, rises.soak),
        hotsoak: mul_shift(gain, rises.hotsoak),
        trip: mul_shift(gain, rises.trip),
        hottrip: mul_shift(gain, rises.hottrip),
    }
}

// a and 2 b s of a canister at the temperatures of the day; no row without one asks for them.
#[tactic(auto, unfolding(crate::specs::Season::lines_in))]
fn lines_of(day: &Day, canister: Option<Canister>) -> [Line; 25]
    ensures { result ≡ lines_in day.now canister }
{
    match canister {
        None | Some(Canister::Large) => day.large,
        Some(Canister::Medium) => day.medium,
        Some(Canister::Small) => day.small,
    }
}

impl SeasonRows<'_> {
    // Grams of vapour for a rise of 1 in E(0.0716 T).
    fn gain(&self, row: Row) -> u64
        requires { RowInRange self.now.at.now.season row }
        ensures { (result ≡ gain self.now.at.now.season row) × (result ≤ 36 * 2 ^ 40) }
    {
        let vapour = exponential(VAPOUR_EXPONENT * self.at.season.vp + ZERO);
        (100 - row.fill) * row.tank * vapour / 40000
    }

    // The mean rise in a parking, and those of its raises.
    fn rises(&self, kind: Kind) -> Escapes
        ensures { RisesOf self.now.at.now.season self.now.grid.now.cells.counts kind result }
    {
        let m = &self.at.means;
        match kind {
            Kind::Car => Escapes {
                parking: m.rise,
                soak: m.start45,
                hotsoak: m.start60,
                trip: m.end10,
                hottrip: m.end50,
            },
            Kind::TwoWheeler => Escapes {
                parking: m.rise,
                soak: m.start15,
                hotsoak: m.start35,
                trip: m.end10,
                hottrip: m.end25,
            },
        }
    }

    // The row's canister.
    fn fitted(&self, row: LoadedRow) -> Curves
        requires { RowReady self.now.grid.now.cells.counts self.now.list.now self.now.at.now.season row.row × (0 < halves row.row.canister) }
        ensures { CurvesOf self.now.at.now.season row.row result.by_distance }
    {
        let lines = lines_of(&self.at.day, row.row.canister);
        let vapour = self.gain(row.row);
        fit(&lines, row, vapour)
    }

    // What breaks through in a parking.
    fn parking_through(&self, c: &Curves) -> u64
        requires { ListFits (72 * 2 ^ 40) self.now.list.now }
        ensures { result ≡ parking_through self.now.list.now self.now.grid.now.sum c.now.by_distance }
    {
        through_list(self.list, c) / self.grid.sum
    }

    // With canister. From a car with one nothing escapes on a trip.
    fn canister_escapes(&self, kind: Kind, row: LoadedRow) -> Escapes
        requires { RowReady self.now.grid.now.cells.counts self.now.list.now self.now.at.now.season row.row × (0 < halves row.row.canister) }
        ensures { EscapesOf self.now.at.now.season row.row self.now.grid.now.cells.counts kind result }
    {
        let c = self.fitted(row);
        let raises = &self.at.day.raises;
        let parking = self.parking_through(&c);
        match kind {
            Kind::Car => Escapes {
                parking,
                soak: through_raises(self.grid, Moment::Start, &raises.raise45, &c),
                hotsoak: through_raises(self.grid, Moment::Start, &raises.raise60, &c),
                trip: 0,
                hottrip: 0,
            },
            Kind::TwoWheeler => Escapes {
                parking,
                soak: through_raises(self.grid, Moment::Start, &raises.raise15, &c),
                hotsoak: through_raises(self.grid, Moment::Start, &raises.raise35, &c),
                trip: through_raises(self.grid, Moment::End, &raises.raise10, &c),
                hottrip: through_raises(self.grid, Moment::End, &raises.raise25, &c),
            },
        }
    }

    // With or without canister.
    pub(crate) fn escapes(&self, kind: Kind, row: LoadedRow) -> Escapes
        requires { RowReady self.now.grid.now.cells.counts self.now.list.now self.now.at.now.season row.row }
        ensures { EscapesOf self.now.at.now.season row.row self.now.grid.now.cells.counts kind result }
    {
        match row.row.canister {
            None => {
                let vapour = self.gain(row.row);
                open_escapes(vapour, self.rises(kind))
            }
            Some(_) => self.canister_escapes(kind, row),
        }
    }
}

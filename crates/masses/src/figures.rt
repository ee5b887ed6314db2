// One vehicle's loss on one day, in units of 10^-12 g: shares in percent, trips in hundredths, factors in micrograms.
ghost use Rattle.std.specs.Prelude.{◌≡◌, ◌*◌, ◌^◌, ◌<◌, ◌≤◌};
ghost use Rattle.row_factors.specs.Units.{trip_limit};
ghost use Rattle.masses.specs.Figures.{blended};
ghost use Rattle.masses.specs.Use.{UseInRange};
ghost use Rattle.masses.specs.Day.{MicrogramsInRange, three_figures, six_figures};

use breakthrough::loads::LoadedRow;
use row_factors::units::Units;
use std::array;

// A row whose shares and trips are in range, as those of an accepted sheet are.
#[derive(Clone, Copy)]
pub struct UsedRow {
    pub loaded: LoadedRow,
    pub ghost in_range: { UseInRange loaded.row },
}

// A figure of each mechanism, for one vehicle on one day. The crate map_shares has a generic type of these names: one type for both would stand
// in a crate below both, and the only one, `numbers`, has no code.
#[derive(Clone, Copy)]
pub struct Mechanisms {
    pub diurnal: u64,
    pub soak: u64,
    pub running: u64,
}

// Units of 10^-12 g in a microgram.
const MICROGRAM: u64 = 1000000;

impl UsedRow {
    #[tactic(auto, unfolding(crate::specs::Figures::blended))]
    // A soak or a trip, for each trip of the day: carburettor vehicles hot and warm by their share, the others with injection.
    fn trip_figure(&self, hot: u64, warm: u64, injection: u64) -> u64
        requires { (hot ≤ trip_limit) × (warm ≤ trip_limit) × (injection ≤ trip_limit) }
        ensures { result ≡ self.now.loaded.row.trips * blended self.now.loaded.row hot warm injection }
    {
        let row = &self.loaded.row;
        let trips = row.trips;
        let carburettor = row.carburettor * (row.hot * hot + (100 - row.hot) * warm);
        trips * (carburettor + (100 - row.carburettor) * 100 * injection)
    }

    // From the seven factors.
    fn three_figures(&self, factors: [u64; 7]) -> Mechanisms
        requires { MicrogramsInRange factors }
        ensures { result ≡ three_figures self.now.loaded.row factors }
    {
        let [
            diurnal,
            soak,
            warm_soak,
            hot_soak,
            trip,
            warm_trip,
            hot_trip,
        ] = factors;
        Mechanisms {
            diurnal: MICROGRAM * diurnal,
            soak: self.trip_figure(hot_soak, warm_soak, soak),
            running: self.trip_figure(hot_trip, warm_trip, trip),
        }
    }

    // Each low then high, as the six words of a row stand in a report, to which they are added place by place.
    pub fn six_figures(&self, units: &Units) -> [u64; 6]
        ensures { result ≡ six_figures self.now.loaded.row units.now.factors }
    {
        let low = self.three_figures(array::from_fn(|k| units.low(k)));
        let high = self.three_figures(array::from_fn(|k| units.high(k)));
        [
            low.diurnal,
            high.diurnal,
            low.soak,
            high.soak,
            low.running,
            high.running,
        ]
    }
}

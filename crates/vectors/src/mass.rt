// The band of a row's mass in a report, and whether it is right: around the exact mass, and as narrow as it should be.
use crate::band::Band;
use crate::items::{Item, Rest};
use crate::tally::Verdict;
use std::fmt;

// The widths allowed: 2 mg, and a hundredth of a milligram for each time that a factor counts
const ENDS: u64 = 2;

const SHARE: u64 = 100;

// More milligrams than any mass has
const MOST: u64 = 1152921504606846976;

// The width of a band is given only where the factor counts so often that the whole milligrams of its ends weigh little
const MANY: u64 = 1000000;

const WIDE: u64 = 1099511627776;

// The masses of a row, in the order of their words
#[derive(Clone, Copy, Debug, PartialEq, Eq)]
pub enum Kind {
    Diurnal,
    Soak,
    Running,
}

// For one of a row's three masses: vehicles times days, 0 where the row has no vehicles; how many times a factor counts in the mass, cut
// to a whole number; and the whole milligrams below and above the exact mass
#[derive(Clone, Copy, Debug, PartialEq, Eq)]
pub struct Mass {
    pub days: u64,
    pub many: u64,
    pub exact: Band,
}

// A row that is expected: vehicles times days, vehicles times trips, and the whole milligrams below and above each mass
#[derive(Clone, Copy, Debug, PartialEq, Eq)]
pub struct Row {
    days: u64,
    trips: u64,
    diurnal: Band,
    soak: Band,
    running: Band,
}

impl<'a> Item<'a> for Row {
    fn read(input: &mut Rest<'a>) -> Option<Row> {
        let _category: u64 = input.item()?;
        Some(Row {
            days: input.item()?,
            trips: input.item()?,
            diurnal: input.item()?,
            soak: input.item()?,
            running: input.item()?,
        })
    }
}

// A mass is printed as its number among those of a row.
impl fmt::Display for Kind {
    fn fmt<W: fmt::Write>(&self, f: &mut fmt::Formatter<W>) -> fmt::Result {
        let number = match self {
            Kind::Diurnal => "0",
            Kind::Soak => "1",
            Kind::Running => "2",
        };
        write!(f, "mass {number}")
    }
}

impl Row {
    pub fn mass(self, kind: Kind) -> Mass {
        let days = self.days;
        let (many, exact) = match kind {
            Kind::Diurnal => (days, self.diurnal),
            Kind::Soak => (self.trips, self.soak),
            Kind::Running => (self.trips, self.running),
        };
        Mass { days, many, exact }
    }
}

// The band of a mass, among the six words of its row in a report
pub fn band_of(words: &[u64; 6], kind: Kind) -> Band {
    let (low, high) = match kind {
        Kind::Diurnal => (words[0], words[1]),
        Kind::Soak => (words[2], words[3]),
        Kind::Running => (words[4], words[5]),
    };
    Band { low, high }
}

// The width of a band in nanograms for each time that the factor counts in it, or 0 where that is seldom
fn width(apart: u64, many: u64) -> u64 {
    if many < MANY {
        return 0;
    }
    if WIDE < apart {
        return WIDE;
    }
    apart * 1000000 / many
}

// Of a row without vehicles the band is 0 and 0.
pub fn verdict_of(band: Band, mass: Mass) -> Verdict {
    let Band { low, high } = band;
    if mass.days == 0 {
        return Verdict::from((low == 0) & (high == 0));
    }
    if high < low {
        return Verdict::default();
    }
    let apart = high - low;
    let encloses = (high < MOST) & (low <= mass.exact.low) & (mass.exact.high <= high);
    Verdict {
        right: encloses & (apart <= mass.many / SHARE + ENDS),
        width: width(apart, mass.many),
        distance: 0,
    }
}

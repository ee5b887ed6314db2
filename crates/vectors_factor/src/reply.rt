// The reply to a factor call, and whether it is right: the refusal that is expected, or a narrow band around the exact factor.
use std::io;
use vectors::answer::{Answer, Refusal};
use vectors::band::Band;
use vectors::items::{Item, Rest};
use vectors::tally::Verdict;

// The widest band that is right, in micrograms
const WIDTH: u64 = 10;

// More micrograms than any factor has
const MOST: u64 = 4503599627370496;

// The factor's band where the call is accepted, and the place beside it, which is 0 in each reply that the call gives
#[derive(Clone, Copy, Debug, PartialEq, Eq)]
pub struct Factor {
    band: Band,
    place: u64,
}

// The factor, or where the call is refused
#[derive(Clone, Copy, Debug, PartialEq, Eq)]
pub struct Reply(pub Result<Factor, Refusal>);

// The reply that is expected; its band is that of the exact factor in nanograms.
impl<'a> Item<'a> for Reply {
    fn read(input: &mut Rest<'a>) -> Option<Reply> {
        let (number, place): (u64, u64) = (input.item()?, input.item()?);
        let factor = Factor {
            band: input.item()?,
            place,
        };
        Some(Reply(Answer::by_number(number, place).0.and(Ok(factor))))
    }
}

impl From<Result<inventory::Band, refusals::Refusal>> for Reply {
    fn from(found: Result<inventory::Band, refusals::Refusal>) -> Reply {
        let factor = found.map(|band| Factor {
            band: Band {
                low: band.low,
                high: band.high,
            },
            place: 0,
        });
        Reply(factor.map_err(Refusal::from))
    }
}

// Of a band in micrograms around a factor that lies between two whole numbers of nanograms: its width, and how far the factor is from
// its middle in nanograms
fn of_band(band: Band, exact: Band) -> Verdict {
    let Band { low, high } = band;
    if (high < low) || (MOST <= high) || (WIDTH < high - low) {
        return Verdict::default();
    }
    let middle = (low + high) * 500;
    Verdict {
        right: (low * 1000 <= exact.low) & (exact.high <= high * 1000),
        width: high - low,
        distance: middle.abs_diff(exact.low).max(middle.abs_diff(exact.high)),
    }
}

impl Reply {
    pub fn verdict(self, expected: Reply) -> Verdict {
        match (self.0, expected.0) {
            (Ok(factor), Ok(exact)) if factor.place == exact.place => {
                of_band(factor.band, exact.band)
            }
            (found, expected) => Verdict::from(found == expected),
        }
    }

    // Words and the reply, its band in a unit
    pub fn print(self, rt: &impl Print, words: &str, unit: &str) -> io::Result<()> {
        match self.0 {
            Ok(factor) => print!(rt; "{words}{}{unit}", factor.band),
            Err(refusal) => print!(rt; "{words}{refusal}"),
        }
    }
}

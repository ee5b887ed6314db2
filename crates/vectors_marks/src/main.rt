// Holds the marks of filed figures against the verdicts that tools/vectors/marks.py put into standard input: how many
// figures are to get each verdict, and how many of them get it and are off by as much.
#![tactic(auto)]

use marking::{Band, Filed, Unit, Verdict, mark};
use std::{fmt, io};
use vectors::input::hold_first;
use vectors::items::{Item, Rest, tally_of};
use vectors::tally::{Tally, compare};

// A verdict without how far the figure is off
#[derive(Clone, Copy, Debug, PartialEq, Eq)]
enum Kind {
    Agrees,
    Fits,
    Low,
    High,
    Unreadable,
}

// A verdict, and how many milligrams the figure is off, 0 where it has no such distance. No `marking::Verdict`: an input has both as numbers,
// and a verdict with a distance that it cannot have must differ from the one found.
#[derive(Clone, Copy, Debug, PartialEq, Eq)]
struct Mark {
    kind: Kind,
    off: u64,
}

// A figure, the band, and the mark that is expected; `None` where its verdict is above the last
#[derive(Clone, Copy)]
struct Vector {
    filed: Filed,
    band: Band,
    expected: Option<Mark>,
}

// A number of the input that stands for no verdict
#[derive(Clone, Copy, Debug, PartialEq, Eq)]
struct NoVerdict;

impl TryFrom<u64> for Kind {
    type Error = NoVerdict;

    fn try_from(verdict: u64) -> Result<Kind, NoVerdict> {
        match verdict {
            0 => Ok(Kind::Agrees),
            1 => Ok(Kind::Fits),
            2 => Ok(Kind::Low),
            3 => Ok(Kind::High),
            4 => Ok(Kind::Unreadable),
            _ => Err(NoVerdict),
        }
    }
}

impl fmt::Display for Kind {
    fn fmt<W: fmt::Write>(&self, f: &mut fmt::Formatter<W>) -> fmt::Result {
        f.write_str(match self {
            Kind::Agrees => "agrees",
            Kind::Fits => "fits",
            Kind::Low => "low",
            Kind::High => "high",
            Kind::Unreadable => "unreadable",
        })
    }
}

impl fmt::Display for Mark {
    fn fmt<W: fmt::Write>(&self, f: &mut fmt::Formatter<W>) -> fmt::Result {
        write!(f, "{} by {}", self.kind, self.off)
    }
}

impl From<Verdict> for Mark {
    fn from(verdict: Verdict) -> Mark {
        let (kind, off) = match verdict {
            Verdict::Agrees => (Kind::Agrees, 0),
            Verdict::Fits => (Kind::Fits, 0),
            Verdict::Low(off) => (Kind::Low, off),
            Verdict::High(off) => (Kind::High, off),
            Verdict::Unreadable => (Kind::Unreadable, 0),
        };
        Mark { kind, off }
    }
}

// The vectors have no units above the tonne. No `From`, since neither type is of this crate; what C hands in is read by the `TryFrom` of the crate
// boundary.
fn unit_of(unit: u64) -> Unit {
    match unit {
        0 => Unit::Milligram,
        1 => Unit::Gram,
        2 => Unit::Kilogram,
        _ => Unit::Tonne,
    }
}

// Seven numbers of eight bytes: the figure's digits, how many stand behind the point, its unit, the band's low and high, and the mark
impl<'a> Item<'a> for Vector {
    fn read(input: &mut Rest<'a>) -> Option<Vector> {
        let filed = Filed {
            digits: input.item()?,
            places: input.item()?,
            unit: unit_of(input.item()?),
        };
        let band = Band {
            low: input.item()?,
            high: input.item()?,
        };
        let (verdict, off): (u64, u64) = (input.item()?, input.item()?);
        let kind = Kind::try_from(verdict).ok();
        Some(Vector {
            filed,
            band,
            expected: kind.map(|kind| Mark { kind, off }),
        })
    }
}

// A figure, and a line where its mark is another than the one expected; figures are counted from 1, as
// tools/vectors/marks.py lists them.
fn with_figure(
    rt: &impl Print,
    position: u64,
    vector: Vector,
    expected: Mark,
) -> io::Result<Tally> {
    let found = Mark::from(mark(vector.filed, vector.band));
    compare(rt, "figure", position, expected, found)
}

// The figures of one verdict
fn tally_kind(rt: &impl Print, vectors: &[u8], kind: Kind) -> io::Result<Tally> {
    tally_of(vectors, |position, vector: Vector| match vector.expected {
        Some(expected) if expected.kind == kind => with_figure(rt, position, vector, expected),
        _ => Ok(Tally::default()),
    })
}

// A line for each verdict, and one for all of them; how many figures they count. A figure that is cut off, or whose verdict is above the last, is
// missing from the tallies; the count that the input gives shows it.
fn report(rt: &impl Print, vectors: &[u8]) -> io::Result<u64> {
    let kinds = [
        Kind::Agrees,
        Kind::Fits,
        Kind::Low,
        Kind::High,
        Kind::Unreadable,
    ];
    let all = kinds
        .iter()
        .try_fold(Tally::default(), |all, kind| -> io::Result<Tally> {
            let tally = tally_kind(rt, vectors, *kind)?;
            println!(rt; "{kind} {}", tally.counts("as given"))?;
            Ok(all + tally)
        })?;
    println!(rt; "figures {}", all.counts("as given"))?;
    Ok(all.tried)
}

fn main(rt: HostRuntime) -> io::Result<()> {
    hold_first(&rt, "", |vectors| report(&rt, vectors))
}

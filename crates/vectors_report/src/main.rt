// Holds the report against the exact masses that tools/vectors/reports.py put into standard input: how many of the rows' bands enclose their
// masses and are as narrow as they should be, how many sheets have subtotals and totals that are sums of their rows' words, and how
// many are refused as expected with every word of the buffer left as it was.
#![tactic(auto)]

ghost use Rattle.std.specs.Prelude.{◌≤◌};

use std::io;
use vectors::answer::Answer;
use vectors::input::{has_mileage, hold_first};
use vectors::items::{Item, Rest, tally_of};
use vectors::mass::{Kind, Row, band_of, verdict_of};
use vectors::tally::Tally;
use vectors::words::{OLD, ROW, WORDS, kept, sums_right};

// The most rows that a sheet can have
const ROWS: usize = 1000;

// The rows whose bands are looked at
#[derive(Clone, Copy, Debug, PartialEq, Eq)]
enum Rows {
    All,
    Driven,
}

// What is looked at in one pass: the bands of a mass, the sums of the accepted sheets, or the refusals
#[derive(Clone, Copy, Debug, PartialEq, Eq)]
enum Pass {
    Bands(Kind, Rows),
    Sums,
    Refusals,
}

// The words of a sheet's buffer, as far as there is room, and the answer that is expected
#[derive(Clone, Copy)]
struct Head {
    room: usize,
    expected: Answer,
    ghost fits: { room ≤ 6144 },
}

// A sheet, and the rows that are expected of its report
#[derive(Clone, Copy)]
struct Vector<'a> {
    head: Head,
    sheet: &'a [u8],
    rows: &'a [u8],
}

impl<'a> Item<'a> for Head {
    fn read(input: &mut Rest<'a>) -> Option<Head> {
        let room: u16 = input.item()?;
        let number: u16 = input.item()?;
        let place: u16 = input.item()?;
        Some(Head {
            room: WORDS.min(room.into()),
            expected: Answer::by_number(number.into(), place.into()),
        })
    }
}

impl<'a> Item<'a> for Vector<'a> {
    fn read(input: &mut Rest<'a>) -> Option<Vector<'a>> {
        let bytes: u16 = input.item()?;
        let rows: u16 = input.item()?;
        Some(Vector {
            head: input.item()?,
            sheet: input.part(bytes.into())?,
            rows: input.part(ROW * usize::from(rows))?,
        })
    }
}

impl Rows {
    // Whether a row of a sheet is among them, which none beyond as many as a sheet can have is
    fn have(self, sheet: &[u8], row: usize) -> bool {
        let among = match self {
            Rows::All => true,
            Rows::Driven => has_mileage(sheet, row),
        };
        among & (row < ROWS)
    }
}

// The bands of one mass of a sheet's rows. Sheets and rows are counted from 1.
fn with_bands(
    rt: &impl Print,
    sheet: u64,
    vector: Vector,
    words: &[u64; WORDS],
    kind: Kind,
    rows: Rows,
) -> io::Result<Tally> {
    let (of_rows, _) = words.as_chunks();
    tally_of(vector.rows, |position, row: Row| {
        let i = position.wrapping_sub(1) as usize;
        let Some(words) = of_rows.get(i) else {
            return Ok(Tally::default());
        };
        if !rows.have(vector.sheet, i) {
            return Ok(Tally::default());
        }
        let (mass, band) = (row.mass(kind), band_of(words, kind));
        Tally::of(
            verdict_of(band, mass),
            || println!(rt;
                "sheet {sheet} row {position} {kind}: expected {} mg, found {band} mg",
                mass.exact
            ),
        )
    })
}

// Whether the sums of a report are right
fn has_sums(words: &[u64; WORDS], rows: &[u8]) -> bool {
    let (rows, _) = rows.as_chunks();
    sums_right(words, &rows[..rows.len().min(ROWS)])
}

// What is looked at of a sheet: all its bands of one mass, its sums or its refusal
fn with_sheet(rt: &impl Print, sheet: u64, vector: Vector, pass: Pass) -> io::Result<Tally> {
    let mut words = [OLD; WORDS];
    let found = inventory::report(vector.sheet, &mut words[..vector.head.room]);
    let right = Answer::from(found) == vector.head.expected;
    let left = match pass {
        Pass::Bands(kind, rows) => {
            return with_bands(rt, sheet, vector, &words, kind, rows);
        }
        Pass::Sums => has_sums(&words, vector.rows),
        Pass::Refusals => kept(&words),
    };
    Tally::of(
        right & left,
        || println!(rt; "sheet {sheet} is answered otherwise"),
    )
}

// The sheets of one pass: those that are to be refused, or those that are not
fn tally_pass(rt: &impl Print, vectors: &[u8], pass: Pass) -> io::Result<Tally> {
    tally_of(vectors, |sheet, vector: Vector| {
        if vector.head.expected.0.is_err() == (pass == Pass::Refusals) {
            with_sheet(rt, sheet, vector, pass)
        } else {
            Ok(Tally::default())
        }
    })
}

// The line of one mass, of all rows and of those with a mileage. Each part is printed when its rows are tried, so that the lines of bands of driven
// rows that are not right stand within it.
fn print_bands(
    rt: &impl Print,
    vectors: &[u8],
    kind: Kind,
    name: &str,
    unit: &str,
) -> io::Result<()> {
    let all = tally_pass(rt, vectors, Pass::Bands(kind, Rows::All))?;
    print!(rt; "{name} bands {all} widest {} ng a {unit}", all.widest)?;
    let driven = tally_pass(rt, vectors, Pass::Bands(kind, Rows::Driven))?;
    println!(rt; ", with a mileage {driven} widest {} ng", driven.widest)
}

// A line for each pass, and how many sheets the last two looked at. The line of the sums ends after the pass of the refusals.
fn print_passes(rt: &impl Print, vectors: &[u8]) -> io::Result<u64> {
    print_bands(rt, vectors, Kind::Diurnal, "diurnal", "vehicle and day")?;
    print_bands(rt, vectors, Kind::Soak, "soak", "trip")?;
    print_bands(rt, vectors, Kind::Running, "running", "trip")?;
    let sums = tally_pass(rt, vectors, Pass::Sums)?;
    print!(rt; "sums of accepted sheets {sums}")?;
    let refusals = tally_pass(rt, vectors, Pass::Refusals)?;
    println!(rt; "\nrefused sheets {refusals}")?;
    Ok((sums + refusals).tried)
}

// A sheet that is cut off is missing from the tallies; the count that the input gives shows it.
fn main(rt: HostRuntime) -> io::Result<()> {
    hold_first(&rt, " sheets", |vectors| print_passes(&rt, vectors))
}

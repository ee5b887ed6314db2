// Holds the two calls for cells against the answers that tools/vectors/cells.py put into standard input, bit by bit: how many rows and sums of
// each number are tried, and how many of them get that number, its place and those cells.
#![tactic(auto)]

ghost use Rattle.std.specs.Prelude.{◌≡◌};
ghost use Rattle.std.specs.Float.{binary64};
ghost use Rattle.std.specs.Float.Ieee.{nan_bits};

use boundary::{EvpCell, EvpCellSum, EvpRowCells, EvpTravel};
use evaporation::map::{evp_add_cells, evp_cells_of_row};
use map_shares::{Mileages, Span, Speeds, Words};
use std::io;
use vectors::band::Band;
use vectors::input::{print_count, print_no_count, with_first_bytes};
use vectors::items::{Item, Rest, tally_of};
use vectors::tally::Tally;

// The bytes of a row. The input has how many rows and how many sums there are, then the rows, then the sums. Every number but these two has eight
// bytes.
const ROW: usize = 184;

// How many rows and how many sums there are
#[derive(Clone, Copy)]
struct Counts {
    rows: u64,
    sums: u64,
}

// A cell with its doubles as patterns. Kinds and numbers stand here, and in the answers below, as C gets them, since its calls are tried.
#[derive(Clone, Copy, Debug, PartialEq, Eq)]
struct Cell {
    kind: u64,
    low: u64,
    high: u64,
}

// What a call answers: a number, 0 where it is accepted, a place, and three cells or one
#[derive(Clone, Copy, Debug, PartialEq, Eq)]
struct RowAnswer {
    number: u64,
    place: u64,
    urban: Cell,
    rural: Cell,
    highway: Cell,
}

#[derive(Clone, Copy, Debug, PartialEq, Eq)]
struct SumAnswer {
    number: u64,
    place: u64,
    cell: Cell,
}

// A row: six words, six numbers of where its vehicles drive, and the answer that is expected
#[derive(Clone, Copy)]
struct Row {
    words: Words,
    travel: EvpTravel,
    expected: RowAnswer,
}

// A sum: two cells, and the answer
#[derive(Clone, Copy)]
struct Sum {
    first: Cell,
    second: Cell,
    expected: SumAnswer,
}

// The patterns of a NaN have 2047 in the bits between the sign and these, which are not all 0.
const FRACTION: u64 = 4503599627370496;

const SIGN: u64 = 9223372036854775808;

fn nan_pattern(bits: u64) -> bool
    ensures { result ≡ nan_bits binary64 bits }
{
    (bits % SIGN / FRACTION == 2047) & (bits % FRACTION != 0)
}

// The double of a pattern. A NaN is made by a division, since from_bits is undefined at its patterns.
fn double_of(bits: u64) -> f64 {
    if nan_pattern(bits) {
        0.0 / 0.0
    } else {
        f64::from_bits(bits)
    }
}

// The pattern of a double; for a NaN, which no answer should have, one that no vector expects
fn bits_of(x: f64) -> u64 {
    if x == x { f64::to_bits(x) } else { u64::MAX }
}

impl From<Cell> for EvpCell {
    fn from(cell: Cell) -> EvpCell {
        EvpCell {
            kind: cell.kind,
            low: double_of(cell.low),
            high: double_of(cell.high),
        }
    }
}

impl From<EvpCell> for Cell {
    fn from(cell: EvpCell) -> Cell {
        Cell {
            kind: cell.kind,
            low: bits_of(cell.low),
            high: bits_of(cell.high),
        }
    }
}

impl From<EvpRowCells> for RowAnswer {
    fn from(cells: EvpRowCells) -> RowAnswer {
        RowAnswer {
            number: cells.number,
            place: cells.place,
            urban: cells.urban.into(),
            rural: cells.rural.into(),
            highway: cells.highway.into(),
        }
    }
}

impl From<EvpCellSum> for SumAnswer {
    fn from(sum: EvpCellSum) -> SumAnswer {
        SumAnswer {
            number: sum.number,
            place: sum.place,
            cell: sum.cell.into(),
        }
    }
}

// No `From`, since neither type is of this crate
fn span_of(band: Band) -> Span {
    Span {
        low: band.low,
        high: band.high,
    }
}

impl<'a> Item<'a> for Counts {
    fn read(input: &mut Rest<'a>) -> Option<Counts> {
        let (rows, sums): (u32, u32) = (input.item()?, input.item()?);
        Some(Counts {
            rows: rows.into(),
            sums: sums.into(),
        })
    }
}

impl<'a> Item<'a> for Cell {
    fn read(input: &mut Rest<'a>) -> Option<Cell> {
        Some(Cell {
            kind: input.item()?,
            low: input.item()?,
            high: input.item()?,
        })
    }
}

impl<'a> Item<'a> for RowAnswer {
    fn read(input: &mut Rest<'a>) -> Option<RowAnswer> {
        Some(RowAnswer {
            number: input.item()?,
            place: input.item()?,
            urban: input.item()?,
            rural: input.item()?,
            highway: input.item()?,
        })
    }
}

impl<'a> Item<'a> for SumAnswer {
    fn read(input: &mut Rest<'a>) -> Option<SumAnswer> {
        Some(SumAnswer {
            number: input.item()?,
            place: input.item()?,
            cell: input.item()?,
        })
    }
}

impl<'a> Item<'a> for Row {
    fn read(input: &mut Rest<'a>) -> Option<Row> {
        let words = Words {
            diurnal: span_of(input.item()?),
            soak: span_of(input.item()?),
            running: span_of(input.item()?),
        };
        let town = input.item()?;
        let mileage = Mileages {
            urban: input.item()?,
            rural: input.item()?,
            highway: input.item()?,
        };
        let speed = Speeds {
            rural: input.item()?,
            highway: input.item()?,
        };
        Some(Row {
            words,
            travel: EvpTravel {
                town,
                mileage,
                speed,
            },
            expected: input.item()?,
        })
    }
}

impl<'a> Item<'a> for Sum {
    fn read(input: &mut Rest<'a>) -> Option<Sum> {
        Some(Sum {
            first: input.item()?,
            second: input.item()?,
            expected: input.item()?,
        })
    }
}

// A line for an answer that is another than the one expected; rows and sums are counted from 1, as tools/vectors/cells.py lists them.
// Not `compare` of vectors, which prints both answers: this prints their numbers alone.
fn print_other(
    rt: &impl Print,
    what: &str,
    position: u64,
    expected: u64,
    found: u64,
) -> io::Result<()> {
    println!(rt; "{what} {position}: expected number {expected}, found {found}, or other cells")
}

// The rows of one number
fn tally_rows(rt: &impl Print, rows: &[u8], number: u64) -> io::Result<Tally> {
    tally_of(rows, |position, row: Row| {
        if row.expected.number != number {
            return Ok(Tally::default());
        }
        let found = RowAnswer::from(evp_cells_of_row(row.words, row.travel));
        Tally::of(
            found == row.expected,
            || print_other(rt, "row", position, number, found.number),
        )
    })
}

// The sums of one number
fn tally_sums(rt: &impl Print, sums: &[u8], number: u64) -> io::Result<Tally> {
    tally_of(sums, |position, sum: Sum| {
        if sum.expected.number != number {
            return Ok(Tally::default());
        }
        let found = SumAnswer::from(evp_add_cells(sum.first.into(), sum.second.into()));
        Tally::of(
            found == sum.expected,
            || print_other(rt, "sum", position, number, found.number),
        )
    })
}

// A line for each tally, behind its words; how many rows or sums they count
fn print_tallies(rt: &impl Print, tallies: &[(&str, Tally)]) -> io::Result<u64> {
    let mut all = Tally::default();
    for (words, tally) in tallies {
        println!(rt; "{words} {}", tally.counts("agree"))?;
        all = all + *tally;
    }
    Ok(all.tried)
}

// All rows are tried before the first line of a tally.
fn report_rows(rt: &impl Print, rows: &[u8]) -> io::Result<u64> {
    let tallies = [
        ("rows with cells", tally_rows(rt, rows, 0)?),
        ("rows refused 27:", tally_rows(rt, rows, 27)?),
        ("rows refused 28:", tally_rows(rt, rows, 28)?),
    ];
    print_tallies(rt, &tallies)
}

// The same of the sums
fn report_sums(rt: &impl Print, sums: &[u8]) -> io::Result<u64> {
    let tallies = [
        ("sums with a cell", tally_sums(rt, sums, 0)?),
        ("sums refused 27:", tally_sums(rt, sums, 27)?),
    ];
    print_tallies(rt, &tallies)
}

// No row is tried where the end of the input cuts one. A sum that is cut, and a row or a sum whose number is none of these, is missing from the
// tallies; the counts that the input gives show it.
fn report(rt: &impl Print, input: &[u8]) -> io::Result<()> {
    let mut rest = Rest::of(input);
    let Some(Counts { rows, sums }) = rest.item() else {
        return print_no_count(rt);
    };
    let Some(vectors) = rest.vectors(rows, ROW) else {
        return print_count(rt, 0, rows, " rows");
    };
    print_count(rt, report_rows(rt, vectors)?, rows, " rows")?;
    print_count(rt, report_sums(rt, rest.left())?, sums, " sums")
}

fn main(rt: HostRuntime) -> io::Result<()> {
    with_first_bytes(&rt, |input| report(&rt, input))
}

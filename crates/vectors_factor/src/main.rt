// Holds the factor call against the exact factors that tools/vectors/factors.py put into standard input: for each of the seven, how many lie in
// their bands, how wide these are and how far off their middles the factors lie; the same for the rows with a mileage; and how many calls
// are refused as expected.
#![tactic(auto)]

use crate::reply::Reply;
use std::{fmt, io};
use vectors::input::{has_mileage, hold_first};
use vectors::items::{Item, Rest, tally_of};
use vectors::tally::Tally;

mod reply;

// The bytes of a call
const CALL: usize = 56;

const LAST_FACTOR: u64 = 7;

// The numbers before and behind those of the factors. Of the calls that are to be accepted, those for them count with the calls to be refused, and
// with those of rows with a mileage.
const BEFORE_FACTORS: u64 = 0;

const BEHIND_FACTORS: u64 = LAST_FACTOR + 1;

// The calls that are counted together: those to be refused, those for a factor, or those for any factor of a row with a mileage
#[derive(Clone, Copy, Debug, PartialEq, Eq)]
enum Kind {
    Refused,
    Factor(u64),
    Driven,
}

// A call's season, row and factor, and the reply that is expected
#[derive(Clone, Copy)]
struct Call {
    season: u64,
    row: u64,
    factor: u64,
    expected: Reply,
}

// A sheet, and the calls on it
#[derive(Clone, Copy)]
struct Vector<'a> {
    sheet: &'a [u8],
    calls: &'a [u8],
}

impl<'a> Item<'a> for Call {
    fn read(input: &mut Rest<'a>) -> Option<Call> {
        Some(Call {
            season: input.item()?,
            row: input.item()?,
            factor: input.item()?,
            expected: input.item()?,
        })
    }
}

impl<'a> Item<'a> for Vector<'a> {
    fn read(input: &mut Rest<'a>) -> Option<Vector<'a>> {
        let bytes: u16 = input.item()?;
        let calls: u16 = input.item()?;
        Some(Vector {
            sheet: input.part(bytes.into())?,
            calls: input.part(CALL * usize::from(calls))?,
        })
    }
}

impl Kind {
    // Whether a call on a sheet is of this kind
    fn has(self, sheet: &[u8], call: Call) -> bool {
        if call.expected.0.is_err() {
            return self == Kind::Refused;
        }
        match self {
            Kind::Refused => call.factor == BEFORE_FACTORS,
            Kind::Factor(factor) => call.factor == factor,
            Kind::Driven => {
                (call.factor == BEHIND_FACTORS) || has_mileage(sheet, call.row as usize)
            }
        }
    }
}

impl fmt::Display for Call {
    fn fmt<W: fmt::Write>(&self, f: &mut fmt::Formatter<W>) -> fmt::Result {
        write!(
            f,
            "season {} row {} factor {}",
            self.season, self.row, self.factor
        )
    }
}

// A line for a call whose answer is not right; sheets and the calls on each are counted from 1, as tools/vectors/factors.py lists them.
fn print_other(
    rt: &impl Print,
    sheet: u64,
    position: u64,
    call: Call,
    found: Reply,
) -> io::Result<()> {
    print!(rt; "sheet {sheet} call {position}: {call}")?;
    call.expected.print(rt, ": expected ", " ng")?;
    found.print(rt, ", found ", " ug")?;
    println!(rt; "")
}

// What came of a call, and a line where its answer is not right
fn with_call(
    rt: &impl Print,
    sheet: &[u8],
    position: u64,
    number: u64,
    call: Call,
) -> io::Result<Tally> {
    let found = Reply::from(inventory::factor(sheet, call.season, call.row, call.factor));
    Tally::of(
        found.verdict(call.expected),
        || print_other(rt, position, number, call, found),
    )
}

// The calls of one kind on one sheet
fn tally_sheet(rt: &impl Print, position: u64, vector: Vector, kind: Kind) -> io::Result<Tally> {
    tally_of(vector.calls, |number, call: Call| {
        if kind.has(vector.sheet, call) {
            with_call(rt, vector.sheet, position, number, call)
        } else {
            Ok(Tally::default())
        }
    })
}

// The calls of one kind
fn tally_kind(rt: &impl Print, vectors: &[u8], kind: Kind) -> io::Result<Tally> {
    tally_of(vectors, |position, vector: Vector| {
        tally_sheet(rt, position, vector, kind)
    })
}

// The factors that were tried
#[derive(Clone, Copy)]
struct Factors(Tally);

impl fmt::Display for Factors {
    fn fmt<W: fmt::Write>(&self, f: &mut fmt::Formatter<W>) -> fmt::Result {
        let tally = self.0;
        write!(
            f,
            "{} widest band {} ug",
            tally.counts("enclosed"),
            tally.widest
        )?;
        write!(f, " farthest from its middle {} ng", tally.farthest)
    }
}

// A line for each factor, and the tally of all of them
fn report_factors(rt: &impl Print, vectors: &[u8]) -> io::Result<Tally> {
    (1..=LAST_FACTOR).try_fold(Tally::default(), |all, factor| -> io::Result<Tally> {
        let tally = tally_kind(rt, vectors, Kind::Factor(factor))?;
        println!(rt; "factor {factor}: {}", Factors(tally))?;
        Ok(all + tally)
    })
}

// The lines of the factors, and that of the refusals; how many calls they count. A call that is cut off, or is to be accepted for a factor that is
// none of the seven, and not 0, is missing; the count that the input gives shows it. The line of the rows with a mileage ends after their pass.
fn print_all(rt: &impl Print, vectors: &[u8]) -> io::Result<u64> {
    let factors = report_factors(rt, vectors)?;
    println!(rt; "factors: {}", Factors(factors))?;
    print!(rt; "rows with a mileage")?;
    let driven = tally_kind(rt, vectors, Kind::Driven)?;
    println!(rt; ": {}", Factors(driven))?;
    let refused = tally_kind(rt, vectors, Kind::Refused)?;
    println!(rt; "refused calls {}", refused.counts("alike"))?;
    Ok((factors + refused).tried)
}

fn main(rt: HostRuntime) -> io::Result<()> {
    hold_first(&rt, " calls", |vectors| print_all(&rt, vectors))
}

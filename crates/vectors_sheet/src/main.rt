// Holds the check of a sheet and the explanation of its refusal against the findings that tools/vectors/sheets put into
// standard input: how many sheets are to be refused with each number, how many of them the check refuses with it and at
// its place, and how many the explanation gives the whole finding. Number 0 stands for the sheets to be accepted, whose
// findings are 0.
#![tactic(auto)]

ghost use Rattle.std.specs.Prelude.{◌+◌, ◌≤◌, length};

use crate::finding::Found;
use checks::check_sheet;
use explanation::explain;
use std::ops::Add;
use std::{fmt, io};
use vectors::answer::Answer;
use vectors::input::hold_first;
use vectors::items::{Item, Rest, tally_of};
use vectors::tally::{Tally, compare};

mod finding;

// One byte more than the longest sheet
const ROOM: usize = 25257;

const LAST_NUMBER: u64 = 26;

// A sheet, given by the bytes that differ from those that the sheets before it left there, at first zeros: from where on they stand, and how many
// bytes the sheet has; and the finding that is expected
#[derive(Clone, Copy)]
struct Vector<'a> {
    from: usize,
    count: usize,
    expected: Found,
    bytes: &'a [u8],
    ghost bytes_fit: { from + length bytes.now ≤ 25257 },
    ghost count_fits: { count ≤ 25257 },
}

impl<'a> Item<'a> for Vector<'a> {
    fn read(input: &mut Rest<'a>) -> Option<Vector<'a>> {
        let bytes: u16 = input.item()?;
        let from: u16 = input.item()?;
        let count: u16 = input.item()?;
        let expected = input.item()?;
        let bytes = input.part(bytes.into())?;
        let (from, count) = (usize::from(from), usize::from(count));
        if (ROOM < from + bytes.len()) || (ROOM < count) {
            return None;
        }
        Some(Vector {
            from,
            count,
            expected,
            bytes,
        })
    }
}

// How many sheets are checked as given, and how many explained
#[derive(Clone, Copy, Debug, Default, PartialEq, Eq)]
struct Tallies {
    checked: Tally,
    explained: Tally,
}

impl Add for Tallies {
    type Output = Tallies;

    fn add(self, other: Tallies) -> Tallies {
        Tallies {
            checked: self.checked + other.checked,
            explained: self.explained + other.explained,
        }
    }
}

// What the check and the explanation of a sheet say, each with a line where it is not what is expected; sheets are counted from 1, as
// tools/vectors/sheets lists them.
fn with_sheet(
    rt: &impl Print,
    sheet: &[u8],
    expected: Found,
    position: u64,
) -> io::Result<Tallies> {
    let checked = Answer::from(check_sheet(sheet));
    let explained = Found::from(explain(sheet));
    Ok(Tallies {
        checked: compare(rt, "check of sheet", position, expected.answer(), checked)?,
        explained: compare(rt, "explanation of sheet", position, expected, explained)?,
    })
}

// A sheet becomes the next one.
fn change(sheet: &mut [u8; 25257], vector: Vector) {
    let (from, bytes) = (vector.from, vector.bytes);
    sheet[from..from + bytes.len()].copy_from_slice(bytes);
}

impl fmt::Display for Tallies {
    fn fmt<W: fmt::Write>(&self, f: &mut fmt::Formatter<W>) -> fmt::Result {
        write!(f, "sheets {}", self.checked.counts("checked as given"))?;
        write!(f, " explained as given {}", self.explained.right)
    }
}

// The sheets with a number, 0 for those to be accepted, up to the first that is too long
fn tallies_of(rt: &impl Print, vectors: &[u8], number: u64) -> io::Result<Tallies> {
    let mut sheet = [0; 25257];
    tally_of(vectors, |position, vector: Vector| {
        change(&mut sheet, vector);
        if vector.expected.answer().number() == number {
            with_sheet(rt, &sheet[..vector.count], vector.expected, position)
        } else {
            Ok(Tallies::default())
        }
    })
}

// A line for each number, and one for all of them; how many sheets they count. A sheet that is cut off, or whose number is above the last, is
// missing from the tallies; the count that the input gives shows it.
fn report(rt: &impl Print, vectors: &[u8]) -> io::Result<u64> {
    let all = (0..=LAST_NUMBER).try_fold(
        Tallies::default(),
        |all, number| -> io::Result<Tallies> {
            let tallies = tallies_of(rt, vectors, number)?;
            println!(rt; "number {number} {tallies}")?;
            Ok(all + tallies)
        },
    )?;
    println!(rt; "{all}")?;
    Ok(all.checked.tried)
}

fn main(rt: HostRuntime) -> io::Result<()> {
    hold_first(&rt, "", |vectors| report(&rt, vectors))
}

// Holds the split of a total among the species against masses that tools/vectors/species.py put into standard input.
#![tactic(auto)]

use speciation::split;
use std::io;
use vectors::items::{Item, Rest, tally_of};
use vectors::tally::Tally;

// The bytes of a vector: every number of the input has eight. The first says how many vectors there are.
const VECTOR: usize = 240;

// The most vectors in an input
const MOST: u64 = 2000;

// A total, and the 29 masses that it is to be split into
#[derive(Clone, Copy)]
struct Vector<'a> {
    total: u64,
    masses: &'a [u8],
}

impl<'a> Item<'a> for Vector<'a> {
    fn read(input: &mut Rest<'a>) -> Option<Vector<'a>> {
        Some(Vector {
            total: input.item()?,
            masses: input.part(232)?,
        })
    }
}

// Whether all masses of a vector are those of its total
fn as_given(vector: Vector) -> bool {
    let mut masses = Rest::of(vector.masses);
    split(vector.total)
        .iter()
        .all(|mass| masses.item() == Some(*mass))
}

// The vectors, where they are not too many and the input is of the length that it says
fn vectors_of(input: &[u8]) -> Option<&[u8]> {
    let mut rest = Rest::of(input);
    let count = rest.item()?;
    if MOST < count {
        return None;
    }
    rest.last(count, VECTOR)
}

fn report(rt: &impl Print, input: &[u8]) -> io::Result<()> {
    let Some(vectors) = vectors_of(input) else {
        return println!(rt; "the input is not of the length that it says");
    };
    let tally = tally_of(vectors, |_, vector: Vector| {
        Ok(Tally::from(as_given(vector)))
    })?;
    println!(rt; "totals: {}", tally.counts("split as given"))
}

fn main(rt: HostRuntime) -> io::Result<()> {
    vectors::input::with_first_bytes(&rt, |input| report(&rt, input))
}

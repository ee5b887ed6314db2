// Holds pooling against the pairs of sheets that tools/vectors/pools.py put into standard input: how many are refused as expected, with the number,
// the place and the sheet, and every byte of the buffer left as it was; how many pooled sheets are those expected, with the bytes beyond
// them left as they were; and how many of their reports have both sheets' row words in their places and the sums of their sums.
#![tactic(auto)]

ghost use Rattle.std.specs.Prelude.{◌≤◌};

use pooling::PoolRefusal;
use std::io;
use vectors::answer::{Answer, Refusal};
use vectors::input::hold_first;
use vectors::items::{Item, Rest, tally_of};
use vectors::tally::Tally;

mod words;

// The bytes of the buffer, and what each holds before a call
const ROOM: usize = 25344;

const OLD: u8 = 165;

// What is looked at in one pass: the refusals, the pooled sheets, or the words of their reports
#[derive(Clone, Copy, Debug, PartialEq, Eq)]
enum Pass {
    Refusals,
    Sheets,
    Words,
}

// Which of three sheets is refused, 1 to 3, and where. A number and no enum, since an input may name none of the three.
#[derive(Clone, Copy, Debug, PartialEq, Eq)]
struct Refused {
    sheet: u64,
    refusal: Refusal,
}

// The bytes of a pair's buffer, as far as there are, and the answer that is expected
#[derive(Clone, Copy)]
struct Head {
    room: usize,
    expected: Result<(), Refused>,
    ghost fits: { room ≤ 25344 },
}

// A pair of sheets, and the pooled sheet that is expected, as much of it as the buffer has room for
#[derive(Clone, Copy)]
struct Pair<'a> {
    head: Head,
    first: &'a [u8],
    second: &'a [u8],
    pooled: &'a [u8],
}

impl<'a> Item<'a> for Head {
    fn read(input: &mut Rest<'a>) -> Option<Head> {
        let room: u16 = input.item()?;
        let number: u16 = input.item()?;
        let place: u16 = input.item()?;
        let sheet: u16 = input.item()?;
        let answer = Answer::by_number(number.into(), place.into());
        let expected = answer.0.map_err(|refusal| Refused {
            sheet: sheet.into(),
            refusal,
        });
        Some(Head {
            room: ROOM.min(room.into()),
            expected,
        })
    }
}

impl<'a> Item<'a> for Pair<'a> {
    fn read(input: &mut Rest<'a>) -> Option<Pair<'a>> {
        let first: u16 = input.item()?;
        let second: u16 = input.item()?;
        let pooled: u16 = input.item()?;
        let head = input.item()?;
        let (first, second) = (input.part(first.into())?, input.part(second.into())?);
        let pooled = input.part(pooled.into())?;
        Some(Pair {
            head,
            first,
            second,
            pooled: &pooled[..pooled.len().min(ROOM)],
        })
    }
}

impl From<PoolRefusal> for Refused {
    fn from(found: PoolRefusal) -> Refused {
        let (sheet, refusal) = match found {
            PoolRefusal::First(refusal) => (1, refusal),
            PoolRefusal::Second(refusal) => (2, refusal),
            PoolRefusal::Pooled(refusal) => (3, refusal),
        };
        Refused {
            sheet,
            refusal: refusal.into(),
        }
    }
}

// Whether the buffer starts with these bytes, and those beyond them are as they were
fn holds_only(out: &[u8], bytes: &[u8]) -> bool {
    out.strip_prefix(bytes)
        .is_some_and(|rest| rest.iter().all(|byte| *byte == OLD))
}

// Whether a pair is answered as expected: the refusal, or the pooled sheet, and nothing else in the buffer; or the words of its report
fn is_right(pair: Pair, pass: Pass) -> bool {
    let mut out = [OLD; ROOM];
    let found = pooling_calls::pool(pair.first, pair.second, &mut out[..pair.head.room]);
    let left = match pass {
        Pass::Refusals | Pass::Sheets => holds_only(&out, pair.pooled),
        Pass::Words => pair.has_words(),
    };
    (found.map_err(Refused::from) == pair.head.expected) & left
}

// The pairs of one pass, those that are to be refused or those that are not, and a line for each that is not right
fn tally_pass(rt: &impl Print, pairs: &[u8], pass: Pass) -> io::Result<Tally> {
    tally_of(pairs, |position, pair: Pair| {
        if pair.head.expected.is_err() != (pass == Pass::Refusals) {
            return Ok(Tally::default());
        }
        Tally::of(
            is_right(pair, pass),
            || println!(rt; "pair {position} is answered otherwise"),
        )
    })
}

// The line of each pass, and how many pairs they looked at. A pair that is cut off is missing; the count that the input gives shows it.
fn report(rt: &impl Print, pairs: &[u8]) -> io::Result<u64> {
    let refused = tally_pass(rt, pairs, Pass::Refusals)?.printed(rt, "refused pairs")?;
    let accepted = tally_pass(rt, pairs, Pass::Sheets)?.printed(rt, "pooled sheets")?;
    tally_pass(rt, pairs, Pass::Words)?.printed(rt, "pooled reports")?;
    Ok((refused + accepted).tried)
}

fn main(rt: HostRuntime) -> io::Result<()> {
    hold_first(&rt, " pairs", |pairs| report(&rt, pairs))
}

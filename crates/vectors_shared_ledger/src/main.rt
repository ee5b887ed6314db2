// Runs the lists of calls on shared ledgers that tools/vectors/shared.py put into standard input: how many openings
// and calls are answered as expected and, where they are refused, leave every byte of the sheet and every word of
// the buffer as it was; how many ledgers end with the words of a fresh report; and how many participants get the
// same, reply by reply, from two lists on two ledgers that agree for them.
#![tactic(auto)]

use std::io;
use std::ops::Add;
use vectors::answer::Answer;
use vectors::bytes::{LONGEST, copied};
use vectors::input::hold_first;
use vectors::items::{Item, Rest, tally_of};
use vectors::tally::Tally;
use vectors::words::{OLD, WORDS, kept};
use vectors_shared_runs::{Asked, CALL, Kept, Reply, Run};

// How many replies can be kept
const SLOTS: usize = 25;

// A sheet, as far as there are bytes and as much as the longest has, and behind it its owners; the answer that is expected when it is opened; the
// calls on it; and whether the replies are to be those of the ledger before
#[derive(Clone, Copy)]
struct Opened<'a> {
    sheet: &'a [u8],
    owners: &'a [u8],
    answer: Answer,
    calls: &'a [u8],
    like: bool,
}

impl<'a> Item<'a> for Opened<'a> {
    fn read(input: &mut Rest<'a>) -> Option<Opened<'a>> {
        let (both, calls, bytes): (u16, u16, u16) = (input.item()?, input.item()?, input.item()?);
        let (number, place, like): (u16, u16, u16) = (input.item()?, input.item()?, input.item()?);
        let part = input.part(both.into())?;
        let (sheet, owners) = part.split_at(part.len().min(LONGEST).min(bytes.into()));
        Some(Opened {
            sheet,
            owners,
            answer: (number.into(), place.into()).into(),
            calls: input.part(CALL * usize::from(calls))?,
            like: like != 0,
        })
    }
}

// What is tallied
#[derive(Clone, Copy, Debug, Default, PartialEq, Eq)]
struct Tallies {
    openings: Tally,
    calls: Tally,
    ends: Tally,
    pairs: Tally,
}

impl Add for Tallies {
    type Output = Tallies;

    fn add(self, other: Tallies) -> Tallies {
        Tallies {
            openings: self.openings + other.openings,
            calls: self.calls + other.calls,
            ends: self.ends + other.ends,
            pairs: self.pairs + other.pairs,
        }
    }
}

// What there is of the ledgers before one: the replies kept of the last, and how many calls there were on all
#[derive(Clone, Copy)]
struct Before {
    replies: [Kept; SLOTS],
    calls: u64,
}

// A reply is kept in its slot where it is to be compared.
fn keep(replies: &mut [Kept; SLOTS], slot: Option<usize>, reply: Reply) {
    if let Some(kept) = slot.and_then(|slot| replies.get_mut(slot)) {
        *kept = reply.into();
    }
}

// The calls on a ledger, one after another, and a line for each that is not right; calls are counted from 1 over all ledgers, so many of them
// before this one.
fn with_calls(
    rt: &impl Print,
    before: u64,
    calls: &[u8],
    run: &mut Run,
    replies: &mut [Kept; SLOTS],
) -> io::Result<Tally> {
    tally_of(calls, |position, asked: Asked| {
        let call = before.wrapping_add(position);
        let reply = run.reply(asked);
        keep(replies, asked.slot, reply);
        Tally::of(
            run.is_right(reply, asked),
            || println!(rt;
                "call {call} asked {} is answered {} or leaves something else",
                asked.kind,
                reply.answer.number()
            ),
        )
    })
}

// Whether the words of a ledger are those that a fresh report leaves in a buffer that held nothing. The crate vectors names nothing that is
// tried, so vectors_ledger has such a test of its own.
fn is_fresh(run: &Run) -> bool {
    let mut fresh = [OLD; WORDS];
    let _ = inventory::report(run.sheet, &mut fresh);
    run.words[..] == fresh[..]
}

// The calls on a ledger and its end, and, where it is to be like the one before, whether the replies kept are those of that one, whose place they
// take
fn with_run(
    rt: &impl Print,
    opened: Opened,
    run: &mut Run,
    before: &mut Before,
) -> io::Result<Tallies> {
    let mut replies = [Kept::default(); SLOTS];
    let calls = with_calls(rt, before.calls, opened.calls, run, &mut replies)?;
    let ends = if opened.answer.number() != 0 {
        kept(run.words)
    } else {
        is_fresh(run)
    };
    let pairs = if opened.like {
        Tally::from(before.replies == replies)
    } else {
        Tally::default()
    };
    *before = Before {
        replies,
        calls: before.calls.wrapping_add(calls.tried),
    };
    Ok(Tallies {
        openings: Tally::default(),
        calls,
        ends: ends.into(),
        pairs,
    })
}

// A ledger: its opening, and what follows on a copy of the sheet that the calls may change
fn with_ledger(rt: &impl Print, opened: Opened, before: &mut Before) -> io::Result<Tallies> {
    let (mut sheet, mut words) = ([0; LONGEST], [OLD; WORDS]);
    let sheet = copied(&mut sheet, opened.sheet);
    let found = shared_ledger_calls::open(sheet, opened.owners, &mut words);
    let answered = Answer::from(found) == opened.answer;
    let left = opened.answer.0.is_ok() | kept(&words);
    let mut run = Run {
        sheet,
        owners: opened.owners,
        words: &mut words,
    };
    let mut tallies = with_run(rt, opened, &mut run, before)?;
    tallies.openings = (answered & left).into();
    Ok(tallies)
}

// The lines of the tallies, and how many calls there are. A ledger that is cut off is missing; the count that the input gives shows it.
fn report(rt: &impl Print, ledgers: &[u8]) -> io::Result<u64> {
    let mut before = Before {
        replies: [Kept::default(); SLOTS],
        calls: 0,
    };
    let tallies: Tallies = tally_of(ledgers, |_, opened: Opened| {
        with_ledger(rt, opened, &mut before)
    })?;
    tallies.openings.printed(rt, "openings")?;
    tallies.calls.printed(rt, "calls")?;
    tallies.ends.printed(rt, "words at the end")?;
    tallies.pairs.printed(rt, "pairs told the same")?;
    Ok(tallies.calls.tried)
}

fn main(rt: HostRuntime) -> io::Result<()> {
    hold_first(&rt, " calls", |ledgers| report(&rt, ledgers))
}

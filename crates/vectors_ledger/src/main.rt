// Runs the lists of calls on ledgers that tools/vectors/ledgers.py put into standard input: how many ledgers open as expected, and how many calls are
// answered as the plain machine says, leave the bytes that it says, and leave the words of a fresh report of these bytes.
#![tactic(auto)]

use crate::runs::{Asked, Opened, Run};
use std::io;
use vectors::bytes::{LONGEST, copied};
use vectors::input::hold_first;
use vectors::items::tally_of;
use vectors::tally::Tally;
use vectors::words::{OLD, WORDS};

mod runs;

// What is looked at in one pass: the openings, the calls that are to pass, or those that are to be refused
#[derive(Clone, Copy, Debug, PartialEq, Eq)]
enum Pass {
    Openings,
    Passed,
    Refused,
}

impl Pass {
    // Whether a pass looks at a call
    fn looks_at(self, asked: Asked) -> bool {
        match self {
            Pass::Openings => false,
            Pass::Passed => asked.answer.0.is_ok(),
            Pass::Refused => asked.answer.0.is_err(),
        }
    }
}

// An opening, and a line where it is not right, which has 0 in the place of the number of a call; ledgers are counted from 1.
fn with_opening(rt: &impl Print, ledger: u64, opened: Opened) -> io::Result<Tally> {
    Tally::of(
        opened.is_right(),
        || println!(rt; "ledger {ledger} opening 0 is answered or left otherwise"),
    )
}

// The calls on a ledger, one after another, and a line for each that is not right; calls are counted from 1.
fn with_calls(
    rt: &impl Print,
    ledger: u64,
    calls: &[u8],
    run: &mut Run,
    pass: Pass,
) -> io::Result<Tally> {
    tally_of(calls, |call, asked: Asked| {
        let right = run.is_right(asked);
        if !pass.looks_at(asked) {
            return Ok(Tally::default());
        }
        Tally::of(
            right,
            || println!(rt; "ledger {ledger} call {call} is answered or left otherwise"),
        )
    })
}

// The calls on two copies of the sheet: the ledger's, and the one that is to have the counts that are expected
fn with_copies(rt: &impl Print, ledger: u64, opened: Opened, pass: Pass) -> io::Result<Tally> {
    let (mut sheet, mut expected) = ([0; LONGEST], [0; LONGEST]);
    let mut words = [OLD; WORDS];
    let _ = inventory::report(opened.sheet, &mut words[..opened.room]);
    let mut run = Run {
        sheet: copied(&mut sheet, opened.sheet),
        words: &mut words[..opened.room],
        expected: copied(&mut expected, opened.sheet),
    };
    with_calls(rt, ledger, opened.calls, &mut run, pass)
}

// The ledgers of one pass: whether they open as expected, or their calls
fn tally_pass(rt: &impl Print, ledgers: &[u8], pass: Pass) -> io::Result<Tally> {
    tally_of(ledgers, |ledger, opened: Opened| match pass {
        Pass::Openings => with_opening(rt, ledger, opened),
        Pass::Passed | Pass::Refused => with_copies(rt, ledger, opened, pass),
    })
}

// The line of each pass, and how many calls they looked at. A ledger that is cut off is missing; the count that the input gives shows it.
fn report(rt: &impl Print, ledgers: &[u8]) -> io::Result<u64> {
    tally_pass(rt, ledgers, Pass::Openings)?.printed(rt, "openings")?;
    let passed = tally_pass(rt, ledgers, Pass::Passed)?.printed(rt, "calls that pass")?;
    let refused = tally_pass(rt, ledgers, Pass::Refused)?.printed(rt, "calls that are refused")?;
    Ok((passed + refused).tried)
}

fn main(rt: HostRuntime) -> io::Result<()> {
    hold_first(&rt, " calls", |ledgers| report(&rt, ledgers))
}

// One call of a list that tools/vectors/shared.py wrote, made on a shared ledger and compared with what is expected, and its reply.
#![tactic(auto)]

use refusals::{Check, Refusal};
use shared_ledger::{Caller, RowRead};
use shared_ledger_calls::SharedLedger;
use vectors::answer::Answer;
use vectors::bytes::{LONGEST, copied};
use vectors::items::{Item, Rest};
use vectors::words::WORDS;

// The bytes of a call
pub const CALL: usize = 36;

// What is asked: a change of a row, a read of a row, or of the totals
#[derive(Clone, Copy, Debug, PartialEq, Eq)]
enum Call {
    Change(ledger::Call),
    Row(u64),
    Totals,
}

// The kind of a read of the totals
const TOTALS: u8 = 3;

// A call with its kind, and who makes it; the answer that is expected; the count that a read returns, and from which word on its words are in the
// buffer; and where the reply is kept to be compared, if it is
#[derive(Clone, Copy)]
pub struct Asked {
    who: Caller,
    pub kind: u8,
    call: Call,
    answer: Answer,
    count: u64,
    at: usize,
    pub slot: Option<usize>,
}

// The slots are counted from 1, and 0 stands for none.
impl<'a> Item<'a> for Asked {
    fn read(input: &mut Rest<'a>) -> Option<Asked> {
        let kind: u8 = input.item()?;
        let (who, row, vehicles): (u64, u64, u64) = (input.item()?, input.item()?, input.item()?);
        let number: u8 = input.item()?;
        let place: u16 = input.item()?;
        let count: u32 = input.item()?;
        let (at, slot): (u16, u16) = (input.item()?, input.item()?);
        Some(Asked {
            who: who.into(),
            kind,
            call: call_of(kind, row, vehicles),
            answer: (number.into(), place.into()).into(),
            count: count.into(),
            at: at.into(),
            slot: usize::from(slot).checked_sub(1),
        })
    }
}

// A kind that there is not is a read of the totals too.
fn call_of(kind: u8, row: u64, vehicles: u64) -> Call {
    match kind {
        0 => Call::Change(ledger::Call::Arrival(row, vehicles)),
        1 => Call::Change(ledger::Call::Departure(row, vehicles)),
        2 => Call::Row(row),
        _ => Call::Totals,
    }
}

// What a call returns besides its answer: a change nothing, a read of a row its count and six words, and a read of the totals 26 words
#[derive(Clone, Copy, Debug, PartialEq, Eq)]
enum Returned {
    Nothing,
    Row(u64, [u64; 6]),
    Totals([u64; 26]),
}

impl Returned {
    // What is returned as numbers, a row's count before its words, and zeros behind
    fn numbers(self) -> [u64; 26] {
        match self {
            Returned::Nothing => [0; 26],
            Returned::Row(count, words) => {
                let mut numbers = [0; 26];
                numbers[0] = count;
                numbers[1..7].copy_from_slice(&words);
                numbers
            }
            Returned::Totals(words) => words,
        }
    }
}

// What a call is answered and returns, and whether it is refused and has changed a byte or a word
#[derive(Clone, Copy, Debug, PartialEq, Eq)]
pub struct Reply {
    pub answer: Answer,
    returned: Returned,
    spoilt: bool,
}

// A reply as it is compared with that of another ledger: what it returns is numbers, so that a read of zeros is like a call that returns
// nothing, and like no call
#[derive(Clone, Copy, Debug, PartialEq, Eq)]
pub struct Kept {
    answer: Answer,
    numbers: [u64; 26],
    spoilt: bool,
}

impl From<Reply> for Kept {
    fn from(reply: Reply) -> Kept {
        Kept {
            answer: reply.answer,
            numbers: reply.returned.numbers(),
            spoilt: reply.spoilt,
        }
    }
}

// Of no call
impl Default for Kept {
    fn default() -> Kept {
        Reply::of(Ok(()), Returned::Nothing).into()
    }
}

impl Reply {
    fn of(found: Check, returned: Returned) -> Reply {
        Reply {
            answer: found.into(),
            returned,
            spoilt: false,
        }
    }
}

impl From<Result<RowRead, Refusal>> for Reply {
    fn from(found: Result<RowRead, Refusal>) -> Reply {
        match found {
            Ok(read) => Reply::of(Ok(()), Returned::Row(read.count, read.words)),
            Err(refusal) => Reply::of(Err(refusal), Returned::Nothing),
        }
    }
}

impl From<Result<[u64; 26], Refusal>> for Reply {
    fn from(found: Result<[u64; 26], Refusal>) -> Reply {
        match found {
            Ok(words) => Reply::of(Ok(()), Returned::Totals(words)),
            Err(refusal) => Reply::of(Err(refusal), Returned::Nothing),
        }
    }
}

// A shared ledger: the sheet, the owners of its rows, and the words of its report; a call changes the sheet and the words at once, which asks
// for a lifetime of each.
#[derive(Drop)]
pub struct Run<'s, 'o, 'w> {
    pub sheet: &'s mut [u8],
    pub owners: &'o [u8],
    pub words: &'w mut [u64],
}

impl Run<'_, '_, '_> {
    // Makes a call.
    pub fn reply(&mut self, asked: Asked) -> Reply {
        match asked.call {
            Call::Change(change) => self.change(asked.who, change),
            Call::Row(row) => self.row(asked.who, row),
            Call::Totals => self.totals(asked.who),
        }
    }

    // The ledger for a read
    fn ledger(&self) -> SharedLedger<'_> {
        SharedLedger {
            sheet: self.sheet,
            owners: self.owners,
            words: self.words,
        }
    }

    fn row(&self, who: Caller, row: u64) -> Reply {
        self.ledger().read_row(who, row).into()
    }

    fn totals(&self, who: Caller) -> Reply {
        self.ledger().read_totals(who).into()
    }

    // An arrival or a departure
    fn changed(&mut self, who: Caller, call: ledger::Call) -> Check {
        let Run {
            sheet,
            owners,
            words,
        } = self;
        shared_ledger_calls::change(sheet, owners, words, who, call)
    }

    // A change, and whether it is refused and has changed a byte or a word
    fn change(&mut self, who: Caller, call: ledger::Call) -> Reply {
        let (mut bytes, mut words) = ([0; LONGEST], [0; WORDS]);
        let (bytes, words) = (
            copied(&mut bytes, self.sheet),
            copied(&mut words, self.words),
        );
        let mut reply = Reply::of(self.changed(who, call), Returned::Nothing);
        reply.spoilt = reply.answer.0.is_err() & !self.is(bytes, words);
        reply
    }

    // Whether the sheet and the words are these
    fn is(&self, sheet: &[u8], words: &[u64]) -> bool {
        (self.sheet[..] == sheet[..]) & (self.words[..] == words[..])
    }

    // Whether these words are in the buffer from a place on
    fn has(&self, place: usize, words: &[u64]) -> bool {
        self.words
            .get(place..)
            .is_some_and(|rest| rest.starts_with(words))
    }

    // Whether a reply is the one that is expected: a read that is accepted returns the words of the buffer, and any other call nothing. Nothing is
    // also what a call of a kind that there is not is to return, so that the totals that it reads are to be zeros.
    pub fn is_right(&self, reply: Reply, asked: Asked) -> bool {
        let returned = match reply.returned {
            Returned::Nothing => true,
            Returned::Row(count, words) => (count == asked.count) & self.has(asked.at, &words),
            Returned::Totals(words) if asked.kind == TOTALS => self.has(asked.at, &words),
            Returned::Totals(words) => words == [0; 26],
        };
        (reply.answer == asked.answer) & !reply.spoilt & returned
    }
}

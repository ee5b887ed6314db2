// One call of a list that tools/vectors/ledgers.py wrote, made on a ledger and compared with what is expected; and one opening.
ghost use Rattle.std.specs.Prelude.{◌≤◌};

use ledger::Call;
use vectors::answer::Answer;
use vectors::bytes::LONGEST;
use vectors::items::{Item, Rest};
use vectors::words::{OLD, WORDS};

// The bytes of a call
pub const CALL: usize = 26;

// A count of vehicles, and its place in the sheet
#[derive(Clone, Copy)]
struct Count {
    at: u16,
    vehicles: u32,
}

// A call, the answer that is expected, and the count that it changes, if it changes one
#[derive(Clone, Copy)]
pub struct Asked {
    call: Call,
    pub answer: Answer,
    count: Option<Count>,
}

// A sheet, as much of it as the longest has, that is opened in so many words, the answer that is expected, and the calls on it
#[derive(Clone, Copy)]
pub struct Opened<'a> {
    pub room: usize,
    answer: Answer,
    pub sheet: &'a [u8],
    pub calls: &'a [u8],
    ghost fits: { room ≤ 6144 },
}

// A ledger, which is a sheet and the words of its report, and the sheet that is expected; a call changes the first two at once, which asks for
// a lifetime of each.
#[derive(Drop)]
pub struct Run<'s, 'w, 'e> {
    pub sheet: &'s mut [u8],
    pub words: &'w mut [u64],
    pub expected: &'e mut [u8],
}

impl<'a> Item<'a> for Asked {
    fn read(input: &mut Rest<'a>) -> Option<Asked> {
        let kind: u8 = input.item()?;
        let (row, vehicles): (u64, u64) = (input.item()?, input.item()?);
        let number: u8 = input.item()?;
        let (place, at): (u16, u16) = (input.item()?, input.item()?);
        let count = Count {
            at,
            vehicles: input.item()?,
        };
        Some(Asked {
            call: call_of(kind, row, vehicles),
            answer: Answer::by_number(number.into(), place.into()),
            count: (at != 0).then_some(count),
        })
    }
}

impl<'a> Item<'a> for Opened<'a> {
    fn read(input: &mut Rest<'a>) -> Option<Opened<'a>> {
        let (bytes, calls): (u16, u16) = (input.item()?, input.item()?);
        let (room, number, place): (u16, u16, u16) = (input.item()?, input.item()?, input.item()?);
        let sheet = input.part(bytes.into())?;
        Some(Opened {
            room: WORDS.min(room.into()),
            answer: Answer::by_number(number.into(), place.into()),
            sheet: &sheet[..sheet.len().min(LONGEST)],
            calls: input.part(CALL * usize::from(calls))?,
        })
    }
}

// An arrival, 0, or else a departure
fn call_of(kind: u8, row: u64, vehicles: u64) -> Call {
    match kind {
        0 => Call::Arrival(row, vehicles),
        _ => Call::Departure(row, vehicles),
    }
}

// Whether the words are those that a fresh report of the sheet leaves in a buffer like the one that the ledger was opened in. The crate vectors
// names nothing that is tried, so vectors_shared_ledger has such a test of its own.
fn is_fresh(s: &[u8], words: &[u64]) -> bool {
    let mut buffer = [OLD; WORDS];
    let Some(fresh) = buffer.get_mut(..words.len()) else {
        return false;
    };
    let _ = inventory::report(s, fresh);
    *words == *fresh
}

// The count that is expected is put into the sheet that is expected.
fn expect(sheet: &mut [u8], count: Option<Count>) {
    let Some(Count { at, vehicles }) = count else {
        return;
    };
    let at = usize::from(at);
    if let Some(bytes) = sheet.get_mut(at..at + 4) {
        bytes.copy_from_slice(&vehicles.to_le_bytes());
    }
}

impl Run<'_, '_, '_> {
    fn change(&mut self, call: Call) -> Answer {
        let Run { sheet, words, .. } = self;
        ledger_calls::change(sheet, words, call).into()
    }

    // Makes a call. Whether it is answered as expected and leaves the bytes that are expected, and the words of a fresh report
    pub fn is_right(&mut self, asked: Asked) -> bool {
        let answered = self.change(asked.call) == asked.answer;
        expect(self.expected, asked.count);
        answered & self.is_expected()
    }

    fn is_expected(&self) -> bool {
        (self.sheet[..] == self.expected[..]) & is_fresh(self.sheet, self.words)
    }
}

impl Opened<'_> {
    // Whether opening the sheet is answered as expected
    pub fn is_right(self) -> bool {
        let mut words = [OLD; WORDS];
        Answer::from(inventory::report(self.sheet, &mut words[..self.room])) == self.answer
    }
}

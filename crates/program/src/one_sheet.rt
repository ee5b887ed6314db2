// A program that answers one sheet: it reads the sheet, makes its text and writes it, or says on standard error why it cannot.
ghost use Rattle.std.specs.Prelude.{List, ◌≡◌, ℕ, ◌≤◌, ◌≢◌, length, take};
ghost use Rattle.std.specs.Io.KnownBytes.{Keeps};
ghost use Rattle.program.specs.Ends.{Ends, sheet_status};
ghost use Rattle.program.specs.Printed.{SheetPrinted, PrintsRead};
ghost use Rattle.program.specs.Status.{status_number};

use crate::input::{Input, NotRead};
use crate::sources::Sources;
use crate::{ROOM, Status, Streams, WORDS, write_answer};
use inventory::check::report_check;
use std::io::Write;

// What a program makes of a sheet.
pub trait SheetText {
    // The program's name, for its messages.
    const NAME: &'static str;

    // The text of a sheet, and how long it is at most.
    ghost text_of: { List ℕ → List ℕ };

    ghost most: { ℕ };

    // Puts the text of a sheet at the front of a buffer that it fits, and returns its length.
    fn put(&self, s: &[u8], words: &mut [u64], text: &mut [u8]) -> usize
        requires { (length words.old ≡ 6026) × (most ≤ length text.old) }
        ensures fits { result ≤ length text.new }
        ensures put { take result text.new ≡ text_of s.now };
}

// How a sheet is answered: it is accepted or refused.
#[tactic(auto, unfolding(crate::specs::Ends::sheet_status))]
fn status_of(s: &[u8]) -> Status
    ensures { status_number result ≡ sheet_status s.now }
{
    Status::from(report_check(s, WORDS))
}

// Writes what `requires` says and nothing else: the text of the sheet that was read.
fn write_sheet_text<T: SheetText, W: Write, E: Write>(
    input: &Input,
    text: &[u8],
    streams: &mut Streams<W, E>,
) -> Status
    requires { (input.now.source ≡ 1) × (text.now ≡ T.text_of input.now.bytes.now) }
    ensures ran { Ends T.text_of (status_number result) }
    ensures printed { SheetPrinted input.now.bytes.now (T.text_of input.now.bytes.now)
        (W.contents streams.old.out) (W.contents streams.new.out) (status_number result) }
    ensures silent { status_number result ≢ 2 → Keeps (E.contents streams.old.err) (E.contents streams.new.err) }
{
    write_answer(T::NAME, status_of(input.bytes), text, streams)
}

// Makes the text of the sheet that was read into a buffer and writes it, in one piece.
fn answer<T: SheetText, W: Write, E: Write>(
    made: &T,
    input: &Input,
    text: &mut [u8],
    streams: &mut Streams<W, E>,
) -> Status
    requires { (input.now.source ≡ 1) × (T.most ≤ length text.old) }
    ensures ran { Ends T.text_of (status_number result) }
    ensures printed { SheetPrinted input.now.bytes.now (T.text_of input.now.bytes.now)
        (W.contents streams.old.out) (W.contents streams.new.out) (status_number result) }
    ensures silent { status_number result ≢ 2 → Keeps (E.contents streams.old.err) (E.contents streams.new.err) }
{
    let mut words = [0u64; WORDS];
    let end = made.put(input.bytes, &mut words, text);
    write_sheet_text::<T, W, E>(input, &text[..end], streams)
}

// The whole program, with a buffer for its text; what it returns is the exit status.
pub fn print_sheet<T: SheetText, S: Sources, W: Write, E: Write>(
    made: &T,
    sheets: &S,
    text: &mut [u8],
    streams: &mut Streams<W, E>,
) -> Status
    requires { T.most ≤ length text.old }
    ensures ran { Ends T.text_of (status_number result) }
    ensures prints { PrintsRead T.text_of (S.bytes sheets.now 1)
        (W.contents streams.old.out) (W.contents streams.new.out) (status_number result) }
    ensures silent { status_number result ≢ 2 → Keeps (E.contents streams.old.err) (E.contents streams.new.err) }
{
    let mut bytes = [0u8; ROOM];
    match sheets.read(1, &mut bytes, &mut streams.err) {
        Ok(input) => answer(made, &input, text, streams),
        Err(NotRead) => Status::Neither,
    }
}

// What the program `pool` does: it reads the two sheets that its arguments name and writes the pooled sheet to standard
// output, or to standard error which sheet is refused, the first, the second or the pooled one, with the number and the
// place. Where a file cannot be read, or not all of the answer could be written, it says so on standard error. Its exit
// status is 0 for a pooled sheet, 1 for a refusal and 2 for neither.
#![tactic(auto)]

ghost use Rattle.std.specs.Prelude.{◌≡◌, ◌≤◌, length, take, Err};
ghost use Rattle.program.specs.Printed.{AnswerPrinted};
ghost use Rattle.program.specs.Status.{status_number};
ghost use Rattle.program.specs.Writes.{standard_error, AnswerWritten};
ghost use Rattle.text.specs.Ascii.{bytes};
ghost use Rattle.text.specs.Lines.{pair_line};
ghost use Rattle.refusals.specs.Rule.{number};
ghost use Rattle.pool_run.specs.Refusal.{refusal_text};
ghost use Rattle.pool_run.specs.Ran.{PoolRan, PoolPrinted, PoolPrints};

use pooling::PoolRefusal;
use pooling_calls::length::pool_length;
use program::input::Input;
use program::sources::Sources;
use program::{LONGEST, ROOM, STANDARD_ERROR, Status, Streams};
use refusals::Refusal;
use std::io::Write;
use text::writer::Writer;

// The bytes of the longest line of a refusal: 22 + 20 + 4 + 20 + 1.
const LINE: usize = 67;

// The line of a refusal: which sheet is refused, and behind it the number and the place. It is no `Display`: the writer is proved to put
// just the bytes of `pair_line`, and a `Display`, which can stand in the crate pooling alone, would have to prove them once more.
fn put_refusal(line: &mut [u8], named: &[u8], refusal: Refusal) -> usize
    requires { (67 ≤ length line.old) × (length named.now ≤ 22) }
    ensures { (take result line.new ≡ pair_line named.now (number refusal.rule) (bytes " at ") refusal.place) × (result ≤ 67) }
{
    let number = refusal.rule.number();
    let place = refusal.place;
    let mut writer = Writer::new(line);
    writer.pair(named, number, b" at ", place);
    writer.place()
}

// The line of a refusal at the front of a buffer.
#[tactic(auto, unfolding(crate::specs::Refusal::refusal_text))]
fn put_line(line: &mut [u8], refusal: PoolRefusal) -> &[u8]
    requires { 67 ≤ length line.old }
    ensures { result.now ≡ refusal_text (Err refusal) }
{
    let end = match refusal {
        PoolRefusal::First(refusal) => put_refusal(line, b"first sheet: refused ", refusal),
        PoolRefusal::Second(refusal) => put_refusal(line, b"second sheet: refused ", refusal),
        PoolRefusal::Pooled(refusal) => put_refusal(line, b"pooled sheet: refused ", refusal),
    };
    &line[..end]
}

// Writes the refusal of two sheets to standard error and returns its status.
fn write_refusal<E: Write>(refusal: PoolRefusal, err: &mut E) -> Status
    ensures written { AnswerWritten standard_error (refusal_text (Err refusal)) 1 (status_number result) }
    ensures printed { AnswerPrinted 1 (refusal_text (Err refusal)) (E.contents err.old) (E.contents err.new) (status_number result) }
{
    let mut line = [0u8; LINE];
    if program::write_text::<STANDARD_ERROR, E>(err, put_line(&mut line, refusal)) {
        return Status::Refused;
    }
    Status::Neither
}

// Pools the two sheets that were read and writes the pool, or the refusal.
fn answer<W: Write, E: Write>(first: &Input, second: &Input, streams: &mut Streams<W, E>) -> Status
    requires { (first.now.source ≡ 1) × (second.now.source ≡ 2) }
    ensures ran { PoolRan (status_number result) }
    ensures printed { PoolPrinted first.now.bytes.now second.now.bytes.now
        (W.contents streams.old.out) (W.contents streams.new.out)
        (E.contents streams.old.err) (E.contents streams.new.err) (status_number result) }
{
    let mut pooled = [0u8; LONGEST];
    let a = first.bytes;
    let b = second.bytes;
    match pooling_calls::pool(a, b, &mut pooled) {
        Ok(()) => {
            let end = pool_length(a, b);
            program::write_answer("pool", Status::Accepted, &pooled[..end], streams)
        }
        Err(refusal) => write_refusal(refusal, &mut streams.err),
    }
}

// The whole program; what it returns is the exit status.
pub fn evp_run<S: Sources, W: Write, E: Write>(sheets: &S, streams: &mut Streams<W, E>) -> Status
    ensures ran { PoolRan (status_number result) }
    ensures prints { PoolPrints (S.bytes sheets.now 1) (S.bytes sheets.now 2)
        (W.contents streams.old.out) (W.contents streams.new.out)
        (E.contents streams.old.err) (E.contents streams.new.err) (status_number result) }
{
    let mut bytes = [0u8; ROOM];
    let Ok(first) = sheets.read(1, &mut bytes, &mut streams.err) else {
        return Status::Neither;
    };
    let mut bytes = [0u8; ROOM];
    let Ok(second) = sheets.read(2, &mut bytes, &mut streams.err) else {
        return Status::Neither;
    };
    answer(&first, &second, streams)
}

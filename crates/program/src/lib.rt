// What the programs share: a sheet read from the file that an argument names, or from standard input, what they say on
// standard error where they cannot, the write of an answer, and the exit status. A program's name is handed in for its
// messages.
#![tactic(auto)]

ghost use Rattle.std.specs.Prelude.{◌≡◌, ◌≢◌, ◌≤◌, length, take, IfOk, OnOk, OnErr, IfSome};
ghost use Rattle.std.specs.Io.KnownBytes.{Keeps};
ghost use Rattle.std.specs.Process.{exit_status};
ghost use Rattle.program.specs.Ends.{check_status};
ghost use Rattle.program.specs.Printed.{Wrote, AnswerPrinted};
ghost use Rattle.program.specs.Status.{status_number};
ghost use Rattle.program.specs.Writes.{standard_output, Writes, AnswerWritten};

pub mod input;
pub mod one_sheet;
pub mod sources;

use refusals::Check;
use std::io::Write;
use std::process::ExitCode;

// The bytes of the longest sheet, of 12 seasons and 1,000 rows: 1,160 + 8 · 12 + 24 · 1,000.
pub const LONGEST: usize = 25256;

// Room for one byte more: a longer input is refused by its length, as it would be whole.
pub const ROOM: usize = 25257;

// The words of its report, 6 · 1,000 + 26.
pub const WORDS: usize = 6026;

// The two streams of a program by their numbers: its answer goes to the first, what it cannot do to the second.
pub const STANDARD_OUTPUT: usize = 1;

pub const STANDARD_ERROR: usize = 2;

// How a program ends: with an answer, with a refusal, or with neither, where a sheet could not be read, or not all of an
// answer could be written.
#[derive(Clone, Copy, PartialEq, Eq)]
pub enum Status {
    Accepted,
    Refused,
    Neither,
}

impl Status {
    // The exit status.
    pub fn number(self) -> u8
        ensures { result ≡ status_number self }
    {
        match self {
            Status::Accepted => 0,
            Status::Refused => 1,
            Status::Neither => 2,
        }
    }
}

impl From<Status> for ExitCode {
    ghost from_gives = { λ status code. exit_status code ≡ status_number status };

    fn from(status: Status) -> ExitCode {
        ExitCode::from(status.number())
    }
}

// What a check of a sheet answers, as a status.
impl From<Check> for Status {
    ghost from_gives = { λ check status. status_number status ≡ check_status check };

    #[tactic(auto, unfolding(crate::specs::Ends::check_status))]
    fn from(check: Check) -> Status {
        match check {
            Ok(()) => Status::Accepted,
            Err(_) => Status::Refused,
        }
    }
}

// Where a program writes: the writers that `main` hands over for standard output and for standard error.
#[derive(Drop)]
pub struct Streams<W, E> {
    pub out: W,
    pub err: E,
}

// Says what a program cannot do.
pub fn say<E: Write>(err: &mut E, name: &str, what: &str) {
    let _ = write!(err, "{name}{what}");
}

// Writes a text to the writer of a stream, up to the end or to the first write that takes nothing or fails, and says
// whether all of it was taken.
#[tactic(auto, using(crate::proofs::Taking::written))]
pub fn write_text<const STREAM: usize, W: Write>(out: &mut W, text: &[u8]) -> bool
    ensures writes { Writes STREAM text.now result }
    ensures wrote { Wrote (W.contents out.old) (W.contents out.new) text.now result }
{
    let mut done: usize = 0;
    // No count: each write takes as much as it will, and std's `write_all` says too little of a part that was taken.
    while done < text.len() {
        match out.write(&text[done..]) {
            Ok(0) => return false,
            Ok(n) => done += n,
            Err(_) => return false,
        }
    }
    out.flush().is_ok()
}

// Writes an answer to standard output, in one piece, and returns its status. Where not all of it is taken that is said on
// standard error, where else nothing is written.
pub fn write_answer<W: Write, E: Write>(
    name: &str,
    status: Status,
    text: &[u8],
    streams: &mut Streams<W, E>,
) -> Status
    ensures written { AnswerWritten standard_output text.now (status_number status) (status_number result) }
    ensures printed { AnswerPrinted (status_number status) text.now
        (W.contents streams.old.out) (W.contents streams.new.out) (status_number result) }
    ensures silent { status_number result ≢ 2 → Keeps (E.contents streams.old.err) (E.contents streams.new.err) }
{
    if write_text::<STANDARD_OUTPUT, W>(&mut streams.out, text) {
        return status;
    }
    say(&mut streams.err, name, ": cannot write standard output\n");
    Status::Neither
}

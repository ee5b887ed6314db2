// The sheets of a program: which they are, and how their bytes are read.
ghost use Rattle.std.specs.Prelude.{◌≡◌, ℕ, ◌≤◌, List, Option, length, take, None, IfOk, OnOk, OnErr, IfSome};
ghost use Rattle.std.specs.Io.KnownBytes.{Keeps};
ghost use Rattle.program.specs.Reads.{Unread};
ghost use Rattle.program.specs.Printed.{Takes};
ghost use Rattle.program.specs.Sources.{ReadsSource};

use crate::input::{Input, NotRead, Reading};
use crate::say;
use std::alloc::{AllocError, Allocator};
use std::env::{Env, FillError};
use std::fmt::Display;
use std::fs::{File, Files};
use std::io;
use std::io::{Read, Write};

// The longest name of a file, with one byte more.
const PATH: usize = 4096;

// Where a program has its sheets from. Source i is the file that argument i names; standard input, in place of argument 1,
// is source 1.
pub trait Sources {
    // The bytes of source i, where they are known.
    ghost bytes: { Self → ℕ → Option (List ℕ) } = { λ _ _. None };

    // Reads source i until the buffer is full or the input ends, or says on standard error why it cannot. An input longer
    // than the buffer counts as read: the buffer has one byte more than the longest sheet, so that what is in it is
    // refused by its length, as the input would be whole.
    fn read<'b, E: Write>(&self, i: usize, buffer: &'b mut [u8], err: &mut E) -> Reading<'b>
        ensures read { ReadsSource i result (E.contents err.old) (E.contents err.new) }
        ensures known { IfOk result (λ input. IfSome (bytes self.now i) (λ xs. Takes xs (length buffer.old) input.bytes.now)) };
}

// Reads source i until the buffer is full or the input ends.
fn read<'b, R: Read>(from: &mut R, i: usize, buffer: &'b mut [u8]) -> io::Result<Input<'b>>
    ensures source { IfOk result (λ input. input.source ≡ i) }
    ensures unread { OnErr result (Unread i) }
    ensures known { IfOk result (λ input. IfSome (R.remaining from.old) (λ xs. Takes xs (length buffer.old) input.bytes.now)) }
{
    let mut done: usize = 0;
    // No count: each read gives as much as there is, and std's reads to the end want a buffer that grows.
    while done < buffer.len() {
        let n = from.read(&mut buffer[done..])?;
        if n == 0 {
            break;
        }
        done += n;
    }
    Ok(Input {
        source: i,
        bytes: &buffer[..done],
    })
}

// The system's reason for an error, without the number that std puts behind it.
fn reason<A: Allocator>(alloc: A, error: &io::Error) -> Result<String<A>, AllocError> {
    let mut text = format!(in alloc; "{error}")?;
    if let Some(n) = text.as_str().find(" (os error ") {
        text.truncate(n);
    }
    Ok(text)
}

// Says on standard error why source i is not read. That it is not, its callers know, each of its own place.
fn fail<D: Display + Drop, E: Write>(i: usize, why: D, err: &mut E) -> NotRead
    requires { Unread i }
    ensures { Unread i }
{
    let _ = write!(err, "{why}");
    NotRead
}

// A program: its runtime, and its name for what it says on standard error.
#[derive(Drop)]
pub struct Program<'a, R> {
    pub rt: &'a R,
    pub name: &'a str,
}

impl<R: Env> Program<'_, R> {
    // Argument i, at the front of a buffer; argument 0 is the program's own name.
    fn argument<'b>(&self, i: usize, text: &'b mut [u8]) -> Result<&'b [u8], FillError> {
        let n = self.rt.arg(i, text)?;
        Ok(&text[..n])
    }

    // Whether there is an argument i.
    fn has_argument(&self, i: usize) -> bool {
        let mut text = [0u8; PATH];
        !matches!(self.argument(i, &mut text), Err(FillError::NotPresent))
    }

    // Whether argument i starts with -: there are no options, so that --help and the like are answered with the usage,
    // and such a file is named with its folder, as ./-x.
    fn is_option(&self, i: usize) -> bool {
        let mut text = [0u8; PATH];
        matches!(self.argument(i, &mut text), Ok([b'-', ..]))
    }

    // Source i is not read where the arguments are not two, as `pool` wants them: the usage is said.
    pub fn two_named<E: Write>(&self, i: usize, err: &mut E) -> Result<(), NotRead>
        ensures unread { OnErr result (Unread i) }
        ensures silent { OnOk result (Keeps (E.contents err.old) (E.contents err.new)) }
    {
        if self.has_argument(2) & !self.has_argument(3) {
            return Ok(());
        }
        let name = self.name;
        let usage = format_args!("usage: {name} FIRST SECOND\n");
        Err(fail(i, usage, err))
    }
}

impl<R: Alloc> Program<'_, R> {
    // Says what cannot be done with the file of source i, and the system's reason.
    fn cannot<E: Write>(
        &self,
        i: usize,
        what: &str,
        path: &str,
        error: &io::Error,
        err: &mut E,
    ) -> NotRead
        requires { Unread i }
        ensures { Unread i }
    {
        let name = self.name;
        match reason(self.rt.alloc(), error) {
            Ok(reason) => fail(
                i,
                format_args!("{name}: cannot {what} {path}: {reason}\n"),
                err,
            ),
            Err(_) => fail(i, format_args!("{name}: cannot {what} {path}\n"), err),
        }
    }
}

impl<R: Files + Alloc> Program<'_, R> {
    // The sheet of a file, which argument i names.
    fn read_file<'b, E: Write>(
        &self,
        i: usize,
        path: &str,
        buffer: &'b mut [u8],
        err: &mut E,
    ) -> Reading<'b>
        ensures { ReadsSource i result (E.contents err.old) (E.contents err.new) }
    {
        let mut file = match File::open(self.rt, path) {
            Ok(file) => file,
            Err(e) => return Err(self.cannot(i, "open", path, &e, err)),
        };
        match read(&mut file, i, buffer) {
            Ok(input) => Ok(input),
            Err(e) => Err(self.cannot(i, "read", path, &e, err)),
        }
    }
}

impl<R: Env + Files + Alloc> Program<'_, R> {
    // The sheet of the file that argument i names.
    pub fn read_argument<'b, E: Write>(
        &self,
        i: usize,
        buffer: &'b mut [u8],
        err: &mut E,
    ) -> Reading<'b>
        ensures { ReadsSource i result (E.contents err.old) (E.contents err.new) }
    {
        let name = self.name;
        let mut text = [0u8; PATH];
        let Ok(argument) = self.argument(i, &mut text) else {
            let why = format_args!("{name}: argument: File name too long\n");
            return Err(fail(i, why, err));
        };
        let Ok(path) = std::str::from_utf8(argument) else {
            let why = format_args!("{name}: argument: not UTF-8\n");
            return Err(fail(i, why, err));
        };
        self.read_file(i, path, buffer, err)
    }
}

impl<R: Env + Files + io::Input + Alloc> Program<'_, R> {
    // The one sheet of a program: of the file that its argument names, or of standard input where it has none.
    pub fn read_sheet<'b, E: Write>(&self, buffer: &'b mut [u8], err: &mut E) -> Reading<'b>
        ensures { ReadsSource 1 result (E.contents err.old) (E.contents err.new) }
    {
        let name = self.name;
        if !self.has_argument(1) {
            return match read(&mut self.rt.reader(), 1, buffer) {
                Ok(input) => Ok(input),
                Err(_) => Err(fail(1, format_args!("{name}: cannot read standard input\n"), err)),
            };
        }
        if self.has_argument(2) | self.is_option(1) {
            let usage = format_args!(
                "usage: {name} [FILE]   without FILE the sheet is read from standard input\n"
            );
            return Err(fail(1, usage, err));
        }
        self.read_argument(1, buffer, err)
    }
}

// The one sheet of a program: of the file that its argument names, or of standard input where it has none. It and `TwoSheets` are apart:
// one reads standard input too, the other needs no leave to, and a flag for it in one struct would be no plainer.
#[derive(Drop)]
pub struct OneSheet<'a, R>(Program<'a, R>);

impl<'a, R> OneSheet<'a, R> {
    pub fn new(rt: &'a R, name: &'a str) -> Self {
        OneSheet(Program { rt, name })
    }
}

impl<R: Env + Files + io::Input + Alloc> Sources for OneSheet<'_, R> {
    fn read<'b, E: Write>(&self, i: usize, buffer: &'b mut [u8], err: &mut E) -> Reading<'b> {
        if i == 1 {
            return self.0.read_sheet(buffer, err);
        }
        self.0.read_argument(i, buffer, err)
    }
}

// The two sheets of a program, of the files that its two arguments name.
#[derive(Drop)]
pub struct TwoSheets<'a, R>(Program<'a, R>);

impl<'a, R> TwoSheets<'a, R> {
    pub fn new(rt: &'a R, name: &'a str) -> Self {
        TwoSheets(Program { rt, name })
    }
}

impl<R: Env + Files + Alloc> Sources for TwoSheets<'_, R> {
    fn read<'b, E: Write>(&self, i: usize, buffer: &'b mut [u8], err: &mut E) -> Reading<'b> {
        self.0.two_named(i, err)?;
        self.0.read_argument(i, buffer, err)
    }
}

// The input of a program, what it counts, and whether a row of a sheet in it has a mileage.
use crate::items::item_at;
use std::io;
use std::io::Read;

// The most bytes that the programs read of an input, which may be longer or have no end
const MOST: u64 = 524288;

// Hands on the bytes of standard input, all of them.
pub fn with_bytes<R: Input + Alloc, F: FnOnce(&[u8]) -> io::Result<()>>(
    rt: &R,
    hold: F,
) -> io::Result<()>
    requires { F.IsAlwaysCallable hold }
{
    let mut bytes = Vec::new(rt.alloc());
    rt.reader().read_to_end(&mut bytes)?;
    hold(&bytes)
}

// The same, as far as the programs read them.
pub fn with_first_bytes<R: Input + Alloc, F: FnOnce(&[u8]) -> io::Result<()>>(
    rt: &R,
    hold: F,
) -> io::Result<()>
    requires { F.IsAlwaysCallable hold }
{
    let mut bytes = Vec::new(rt.alloc());
    rt.reader().take(MOST).read_to_end(&mut bytes)?;
    hold(&bytes)
}

// The line of an input that is cut before its first vector
pub fn print_no_count(rt: &impl Print) -> io::Result<()> {
    println!(rt; "the input has no count")
}

// A line where the input says that it has another number of vectors than were tried; `what` says of which kind they are.
pub fn print_count(rt: &impl Print, tried: u64, said: u64, what: &str) -> io::Result<()> {
    if tried != said {
        println!(rt; "the input says that there are {said}{what}")?;
    }
    Ok(())
}

// Tries the vectors of an input, which begins with their number.
fn hold_counted<R: Print, F: FnOnce(&[u8]) -> io::Result<u64>>(
    rt: &R,
    input: &[u8],
    what: &str,
    tried: F,
) -> io::Result<()>
    requires { F.IsAlwaysCallable tried }
{
    let Some((count, vectors)) = input.split_first_chunk() else {
        return print_no_count(rt);
    };
    print_count(rt, tried(vectors)?, u32::from_le_bytes(*count).into(), what)
}

// The same of standard input, all of it
pub fn hold<R: Input + Print + Alloc, F: FnOnce(&[u8]) -> io::Result<u64>>(
    rt: &R,
    what: &str,
    tried: F,
) -> io::Result<()>
    requires { F.IsAlwaysCallable tried }
{
    with_bytes(rt, |input| hold_counted(rt, input, what, tried))
}

// The same, as far as the programs read it
pub fn hold_first<R: Input + Print + Alloc, F: FnOnce(&[u8]) -> io::Result<u64>>(
    rt: &R,
    what: &str,
    tried: F,
) -> io::Result<()>
    requires { F.IsAlwaysCallable tried }
{
    with_first_bytes(rt, |input| hold_counted(rt, input, what, tried))
}

// Where the seasons of a sheet of version 3 or 4 start, the bytes of a season and of a row, and where a row has its mileage
const SEASONS: usize = 1160;

const SEASON: usize = 8;

const ROW: usize = 24;

const MILEAGE: usize = 20;

// The most rows that a sheet can have; bytes behind them are none of a row.
const ROWS: usize = 1000;

// The mileage of a row of a sheet, counted from 0, where the sheet has that row
fn mileage(sheet: &[u8], row: usize) -> Option<u32> {
    if ROWS <= row {
        return None;
    }
    let seasons: u8 = item_at(sheet, 5)?;
    let (rows, _) = sheet
        .get(SEASONS + SEASON * usize::from(seasons)..)?
        .as_chunks::<ROW>();
    item_at(rows.get(row)?, MILEAGE)
}

// Whether a row of a sheet has a mileage, which sheets before version 3 have not
pub fn has_mileage(sheet: &[u8], row: usize) -> bool {
    let version = item_at::<u16>(sheet, 3).unwrap_or(0);
    (version >= 3) & (mileage(sheet, row).unwrap_or(0) != 0)
}

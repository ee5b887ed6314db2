// The functions that hand on an input, given one that is longer than the programs read.
use crate::input::{hold, hold_first, with_bytes, with_first_bytes};
use std::alloc::Allocator;
use std::fmt::Display;
use std::io;
use std::io::{BufRead, Lines};
use std::test::Fail;

// A runtime whose input has these bytes; it prints as the host does.
#[derive(Drop)]
struct Given<'a> {
    rt: HostRuntime,
    bytes: &'a [u8],
}

impl<'a> Input for Given<'a> {
    type Reader = &'a [u8];

    fn read_line<A: Allocator + Clone>(&self, buf: &mut String<A>) -> io::Result<usize> {
        let mut reader = self.bytes;
        reader.read_line(buf)
    }

    fn lines<A: Allocator>(&self, alloc: A) -> Lines<&'a [u8], A> {
        self.bytes.lines(alloc)
    }

    fn reader(&self) -> &'a [u8] {
        self.bytes
    }
}

impl Print for Given<'_> {
    fn print<D: Display + Drop>(&self, value: D) -> io::Result<()> {
        self.rt.print(value)
    }

    fn println<D: Display + Drop>(&self, value: D) -> io::Result<()> {
        self.rt.println(value)
    }

    fn write_all(&self, bytes: &[u8]) -> io::Result<()> {
        self.rt.write_all(bytes)
    }
}

// An input with a count of 0, longer than the programs read: all of it is handed on, or as much as they read.
#[test]
fn an_input_is_whole_or_cut(rt: HostRuntime) -> Result<(), Fail> {
    let bytes = vec![in rt.alloc(); 0u8; 600000]?;
    let given = Given { rt, bytes: &bytes };
    let runtime = (&given, rt.alloc());
    with_bytes(&runtime, |input| {
        assert_eq!(rt; input.len(), 600000);
        Ok(())
    })?;
    with_first_bytes(&runtime, |input| {
        assert_eq!(rt; input.len(), 524288);
        Ok(())
    })?;
    hold(&runtime, " bytes", |behind| {
        assert_eq!(rt; behind.len(), 600000 - 4);
        Ok(0)
    })?;
    hold_first(&runtime, " bytes", |behind| {
        assert_eq!(rt; behind.len(), 524288 - 4);
        Ok(0)
    })?;
    Ok(())
}

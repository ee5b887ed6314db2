// The items of an input, one behind the other: numbers, each with its lowest byte first, and records made of them.
ghost use Rattle.std.specs.Prelude.{◌≡◌, ◌+◌, ◌<◌, ◌≤◌, length, IsSome};

use std::io;
use std::ops::Add;

// What is left of an input
#[derive(Drop)]
pub struct Rest<'a> {
    bytes: &'a [u8],
}

// What an input can begin with
pub trait Item<'a>: Sized {
    // The item that the input begins with is taken off it; `None` where its end cuts the item.
    fn read(input: &mut Rest<'a>) -> Option<Self>
        ensures { IsSome result → length input.new.bytes.now < length input.old.bytes.now };
}

impl<'a> Rest<'a> {
    pub fn of(bytes: &'a [u8]) -> Self {
        Rest { bytes }
    }

    // The item that the input begins with
    pub fn item<T: Item<'a>>(&mut self) -> Option<T>
        ensures { IsSome result → length self.new.bytes.now < length self.old.bytes.now }
    {
        T::read(self)
    }

    // So many bytes
    pub fn part(&mut self, count: usize) -> Option<&'a [u8]>
        ensures { IsSome result → length self.new.bytes.now ≤ length self.old.bytes.now }
    {
        let (part, rest) = self.bytes.split_at_checked(count)?;
        self.bytes = rest;
        Some(part)
    }

    // So many vectors of so many bytes
    pub fn vectors(&mut self, count: u64, bytes: usize) -> Option<&'a [u8]>
        ensures { IsSome result → length self.new.bytes.now ≤ length self.old.bytes.now }
    {
        let count = usize::try_from(count).ok()?;
        self.part(count.checked_mul(bytes)?)
    }

    // The same, where nothing stands behind them
    pub fn last(&mut self, count: u64, bytes: usize) -> Option<&'a [u8]>
        ensures { IsSome result → length self.new.bytes.now ≤ length self.old.bytes.now }
    {
        let vectors = self.vectors(count, bytes)?;
        self.bytes.is_empty().then_some(vectors)
    }

    // All bytes that are left
    pub fn left(self) -> &'a [u8] {
        self.bytes
    }

    // As many bytes as an array has
    fn chunk<const N: usize>(&mut self) -> Option<[u8; N]>
        ensures { IsSome result → length self.new.bytes.now + N ≡ length self.old.bytes.now }
    {
        let (chunk, rest) = self.bytes.split_first_chunk()?;
        self.bytes = rest;
        Some(*chunk)
    }
}

// Of numbers there is an `impl` for each width: one for all would want a trait of numbers with `from_le_bytes`, which std has not.

impl<'a> Item<'a> for u8 {
    fn read(input: &mut Rest<'a>) -> Option<u8> {
        Some(u8::from_le_bytes(input.chunk()?))
    }
}

impl<'a> Item<'a> for u16 {
    fn read(input: &mut Rest<'a>) -> Option<u16> {
        Some(u16::from_le_bytes(input.chunk()?))
    }
}

impl<'a> Item<'a> for u32 {
    fn read(input: &mut Rest<'a>) -> Option<u32> {
        Some(u32::from_le_bytes(input.chunk()?))
    }
}

impl<'a> Item<'a> for u64 {
    fn read(input: &mut Rest<'a>) -> Option<u64> {
        Some(u64::from_le_bytes(input.chunk()?))
    }
}

// The item that stands from a place on
pub fn item_at<'a, T: Item<'a>>(bytes: &'a [u8], at: usize) -> Option<T> {
    let mut rest = Rest::of(bytes);
    rest.part(at)?;
    rest.item()
}

// What the records of an input come to, added up, up to the first record that the end of the input cuts. The records are counted from 1.
pub fn tally_of<
    'a,
    R: Item<'a>,
    T: Copy + Default + Add<Output = T>,
    F: FnMut(u64, R) -> io::Result<T>,
>(bytes: &'a [u8], mut judge: F) -> io::Result<T>
    requires may_judge { F.IsAlwaysCallable judge }
    requires may_add { (a b : T) → T.can_add a b }
{
    let mut rest = Rest::of(bytes);
    let mut all = T::default();
    let mut position: u64 = 0;
    // The records are counted as they are read. An iterator over them would be a type for this loop alone, and its `next` would be `item`.
    while let Some(record) = rest.item() {
        position = position.wrapping_add(1);
        all = all + judge(position, record)?;
    }
    Ok(all)
}

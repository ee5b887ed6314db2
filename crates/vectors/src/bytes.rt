// Room for what calls may change: the bytes of a sheet, or words.

// The bytes of the longest sheet
pub const LONGEST: usize = 25256;

// What is given, put at the front of the room, as much of it as there is room for
pub fn copied<'r, T: Copy, const N: usize>(room: &'r mut [T; N], given: &[T]) -> &'r mut [T] {
    let n = given.len().min(N);
    room[..n].copy_from_slice(&given[..n]);
    &mut room[..n]
}

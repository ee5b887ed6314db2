// The table of the fields: the bytes of each, counted from where its head, its season or its row starts.
use std::ops::Range;

// The head: the letters, the version, the numbers of seasons and of rows, and the byte behind a number of rows that has one.
pub const LETTER_E: Range<u16> = 0..1;

pub const LETTER_V: Range<u16> = 1..2;

pub const LETTER_P: Range<u16> = 2..3;

pub const VERSION: Range<u16> = 3..5;

pub const SEASONS: Range<u16> = 5..6;

pub const ROWS: Range<u16> = 6..7;

pub const MANY_ROWS: Range<u16> = 6..8;

pub const HEAD_ZERO: Range<u16> = 7..8;

// No byte: the length of the sheet itself.
pub const WHOLE: Range<u16> = 0..0;

// The counts of the parking: two lists, or a grid.
pub const DURATIONS: Range<u16> = 8..56;

pub const HOURS: Range<u16> = 56..104;

pub const GRID: Range<u16> = 8..1160;

// A season.
pub const DAYS: Range<u16> = 0..2;

pub const LOWEST: Range<u16> = 2..4;

pub const HIGHEST: Range<u16> = 4..6;

pub const VAPOUR_PRESSURE: Range<u16> = 6..8;

// A row.
pub const CLASS: Range<u16> = 0..1;

pub const TECHNOLOGY: Range<u16> = 1..2;

pub const CANISTER_CODE: Range<u16> = 2..3;

pub const CARBURETTOR: Range<u16> = 3..4;

pub const HOT: Range<u16> = 4..5;

pub const FILL: Range<u16> = 5..6;

pub const TANK: Range<u16> = 6..8;

pub const VEHICLES: Range<u16> = 8..12;

pub const TRIPS: Range<u16> = 12..14;

pub const MINUTES: Range<u16> = 14..16;

pub const LOAD: Range<u16> = 16..18;

pub const SATURATION: Range<u16> = 18..20;

pub const MILEAGE: Range<u16> = 20..24;

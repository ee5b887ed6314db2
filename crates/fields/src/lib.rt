// The fields of a sheet where documents 01 and 02 place them. Integers are little-endian.
// Each function asks for the bytes that it reads and no more, since the checks read a sheet before it is accepted. A type for the head, for
// the lists and for the grid would be made from these same bounds at each call, and be no plainer. Of a sheet that passed, Accepted of the
// crate checks has the seasons and rows without such bounds.
#![tactic(auto)]

ghost use Rattle.std.specs.Prelude.{◌≡◌, ◌+◌, ◌*◌, ◌^◌, ◌<◌, ◌≤◌, leb, length};
ghost use Rattle.sheet.specs.Integers.{u8_at, u16_at, u32_at};
ghost use Rattle.sheet.specs.Versions.{version_of, has_grid, has_mileage, has_many_rows, rows_most, seasons_start};
ghost use Rattle.sheet.specs.Bytes.{seasons_of, rows_of, counts_at, duration_counts, hour_counts, grid_counts};
ghost use Rattle.sheet.specs.Bytes.{season_place, row_place, season_from, season_at, row_at};
ghost use Rattle.sheet.specs.Range.{warmth};
ghost use Rattle.exact.specs.Factors.{total};
ghost use Rattle.fields.specs.Version.{first_version};

use crate::limits::{COLD_LIMIT, MANY_ROWS_LIMIT, ROWS_LIMIT};
use crate::row_bytes::RowBytes;
use exact::{Row, Season};

pub mod classes;
pub mod limits;
pub mod range;
pub mod row_bytes;

// How many counts a list of the parking part has, and where the two lists start.
pub const COUNTS: usize = 24;

pub const DURATIONS_START: usize = 8;

pub const HOURS_START: usize = 56;

// How many counts a grid has, and where it starts.
pub const CELLS: usize = 576;

pub const GRID_START: usize = 8;

// Where the parking ends and the seasons start: after two lists, and after a grid.
const AFTER_LISTS: usize = 104;

const AFTER_GRID: usize = 1160;

// The bytes of a season and of a row. The rows follow the seasons.
pub const SEASON_BYTES: usize = 8;

pub const ROW_BYTES: usize = 24;

// How many numbers 16 bits have. In two's complement one below 0 is written with this added.
pub const BITS_16: u64 = 65536;

// The byte at i, and the numbers of two and of four bytes that start there.
pub fn u8_at(s: &[u8], i: usize) -> u64
    requires { i < length s.now }
    ensures { (result ≡ u8_at s.now i) × (result < 256) }
{
    u64::from(s[i])
}

pub fn u16_at(s: &[u8], i: usize) -> u64
    requires { i + 2 ≤ length s.now }
    ensures { (result ≡ u16_at s.now i) × (result < 65536) }
{
    u64::from(u16::from_le_bytes([s[i], s[i + 1]]))
}

fn u32_at(s: &[u8], i: usize) -> u64
    requires { i + 4 ≤ length s.now }
    ensures { (result ≡ u32_at s.now i) × (result < 2 ^ 32) }
{
    u64::from(u32::from_le_bytes([s[i], s[i + 1], s[i + 2], s[i + 3]]))
}

// The versions after the first, by what each brought: a grid in place of the two lists, a mileage, and two bytes for the count of rows.
#[derive(Clone, Copy)]
enum Version {
    Grid = 2,
    Mileage = 3,
    ManyRows = 4,
}

impl Version {
    // The sheet has this version or a later one.
    fn is_reached(self, s: &[u8]) -> bool
        requires { 8 ≤ length s.now }
        ensures { result ≡ leb (first_version self) (version_of s.now) }
    {
        self as u64 <= version_of(s)
    }
}

// The version that the head gives.
pub fn version_of(s: &[u8]) -> u64
    requires { 8 ≤ length s.now }
    ensures { result ≡ version_of s.now }
{
    u16_at(s, 3)
}

// Whether the parking is a grid.
pub fn has_grid(s: &[u8]) -> bool
    requires { 8 ≤ length s.now }
    ensures { result ≡ has_grid s.now }
{
    Version::Grid.is_reached(s)
}

// Whether the rows have a mileage.
pub fn has_mileage(s: &[u8]) -> bool
    requires { 8 ≤ length s.now }
    ensures { result ≡ has_mileage s.now }
{
    Version::Mileage.is_reached(s)
}

// Whether the count of rows has two bytes.
pub fn has_many_rows(s: &[u8]) -> bool
    requires { 8 ≤ length s.now }
    ensures { result ≡ has_many_rows s.now }
{
    Version::ManyRows.is_reached(s)
}

// How many rows there may be.
#[tactic(auto, unfolding(sheet::specs::Versions::rows_most))]
pub fn rows_most(s: &[u8]) -> u64
    requires { 8 ≤ length s.now }
    ensures { result ≡ rows_most s.now }
{
    if has_many_rows(s) {
        MANY_ROWS_LIMIT
    } else {
        ROWS_LIMIT
    }
}

// Where the seasons start.
#[tactic(auto, unfolding(sheet::specs::Versions::seasons_start))]
pub fn seasons_start(s: &[u8]) -> usize
    requires { 8 ≤ length s.now }
    ensures { (result ≡ seasons_start s.now) × (result ≤ 1160) }
{
    if has_grid(s) { AFTER_GRID } else { AFTER_LISTS }
}

// How many seasons the head gives.
pub fn seasons_of(s: &[u8]) -> usize
    requires { 8 ≤ length s.now }
    ensures { (result ≡ seasons_of s.now) × (result < 256) }
{
    usize::from(s[5])
}

// How many rows the head gives.
#[tactic(auto, unfolding(sheet::specs::Bytes::rows_of))]
pub fn rows_of(s: &[u8]) -> usize
    requires { 8 ≤ length s.now }
    ensures { (result ≡ rows_of s.now) × (result < 65536) }
{
    if has_many_rows(s) {
        u16_at(s, 6) as usize
    } else {
        u8_at(s, 6) as usize
    }
}

// The sum of the n counts that start at p.
pub fn counts_total(s: &[u8], p: usize, n: usize) -> u64
    requires { (p + 2 * n ≤ length s.now) × (n ≤ 576) }
    ensures { result ≡ total (counts_at s.now p n) }
{
    let mut sum: u64 = 0;
    for i in 0..n {
        sum += u16_at(s, p + 2 * i);
    }
    sum
}

// The N counts that start at p.
fn counts_at<const N: usize>(s: &[u8], p: usize) -> [u64; N]
    requires { p + 2 * N ≤ length s.now }
    ensures { result ≡ counts_at s.now p N }
{
    let mut counts = [0u64; N];
    for (i, x) in counts.iter_mut().enumerate() {
        *x = u16_at(s, p + 2 * i);
    }
    counts
}

// The counts for durations 0.5, 1, .. 12 h.
#[tactic(auto, unfolding(sheet::specs::Bytes::duration_counts))]
pub fn duration_counts(s: &[u8]) -> [u64; 24]
    requires { 104 ≤ length s.now }
    ensures { result ≡ duration_counts s.now }
{
    counts_at(s, DURATIONS_START)
}

// The counts for end hours 1 to 24.
#[tactic(auto, unfolding(sheet::specs::Bytes::hour_counts))]
pub fn hour_counts(s: &[u8]) -> [u64; 24]
    requires { 104 ≤ length s.now }
    ensures { result ≡ hour_counts s.now }
{
    counts_at(s, HOURS_START)
}

// The counts of the grid, end hour 1 first, its 24 durations in a row.
#[tactic(auto, unfolding(sheet::specs::Bytes::grid_counts))]
pub fn grid_counts(s: &[u8]) -> [u64; 576]
    requires { 1160 ≤ length s.now }
    ensures { result ≡ grid_counts s.now }
{
    counts_at(s, GRID_START)
}

// The season that starts at p.
#[tactic(auto, unfolding(sheet::specs::Bytes::season_from))]
fn season_from(s: &[u8], p: usize) -> Season
    requires { p + 8 ≤ length s.now }
    ensures { (result ≡ season_from s.now p) × (result.days < 65536) × (result.lowest < 65536) × (result.highest < 65536) }
{
    Season {
        days: u16_at(s, p),
        lowest: u16_at(s, p + 2),
        highest: u16_at(s, p + 4),
        vp: u16_at(s, p + 6),
    }
}

// Where season i starts, counted from 0.
pub fn season_place(s: &[u8], i: usize) -> usize
    requires { season_place s.now i + 8 ≤ length s.now }
    ensures { result ≡ season_place s.now i }
{
    seasons_start(s) + SEASON_BYTES * i
}

// Season i, counted from 0. A season and a row take a line or two each to read: one function for both, over a trait, would be no plainer.
#[tactic(auto, unfolding(sheet::specs::Bytes::season_at))]
pub fn season_at(s: &[u8], i: usize) -> Season
    requires { season_place s.now i + 8 ≤ length s.now }
    ensures { (result ≡ season_at s.now i) × (result.days < 65536) × (result.lowest < 65536) × (result.highest < 65536) }
{
    season_from(s, season_place(s, i))
}

// A temperature's tenths of °C above −30 °C, at most 800 for one that a sheet may have. In two's complement the sum wraps at 16 bits.
pub fn warmth(tenths: u64) -> u64
    requires { tenths < 65536 }
    ensures { result ≡ warmth tenths }
{
    u64::from((tenths as u16).wrapping_add(COLD_LIMIT as u16))
}

// Where row i starts, counted from 0.
pub fn row_place(s: &[u8], i: usize) -> usize
    requires { row_place s.now i + 24 ≤ length s.now }
    ensures { result ≡ row_place s.now i }
{
    seasons_start(s) + SEASON_BYTES * seasons_of(s) + ROW_BYTES * i
}

// Row i, counted from 0.
#[tactic(auto, unfolding(sheet::specs::Bytes::row_at))]
pub fn row_at(s: &[u8], i: usize) -> Row
    requires { row_place s.now i + 24 ≤ length s.now }
    ensures { (result ≡ row_at s.now i) × (result.saturation < 65536) × (result.vehicles < 2 ^ 32) }
{
    RowBytes {
        sheet: s,
        start: row_place(s, i),
    }
    .row()
}

// The vehicles of row i.
#[tactic(auto, unfolding(sheet::specs::Bytes::row_at, sheet::specs::Bytes::row_from))]
pub fn vehicles_of(s: &[u8], i: usize) -> u64
    requires { row_place s.now i + 24 ≤ length s.now }
    ensures { (result ≡ (row_at s.now i).vehicles) × (result < 2 ^ 32) }
{
    u32_at(s, row_place(s, i) + 8)
}

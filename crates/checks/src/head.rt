// Head and length: numbers 1 to 7. What reads the head after number 1 requires its 8 bytes. The functions of the crate fields take the sheet
// as a slice and require the same, so a type for a sheet with a head would be taken apart at each call of them.
ghost use Rattle.std.specs.Prelude.{◌≡◌, ◌≤◌, length};
ghost use Rattle.sheet.specs.Sheet.{letters_missing, mark_check, numbers_check, head_check, length_check};

use fields::limits::{SEASONS_LIMIT, VERSION_LIMIT};
use fields::range::outside;
use fields::{
    ROW_BYTES, SEASON_BYTES, has_many_rows, rows_most, rows_of, seasons_of, seasons_start, u8_at,
    version_of,
};
use refusals::{Check, Rule, refuse};

// The length of the head.
const HEAD: usize = 8;

// The sheet does not start with the letters EVP.
fn letters_missing(s: &[u8]) -> bool
    requires { 8 ≤ length s.now }
    ensures { result ≡ letters_missing s.now }
{
    !s.starts_with(b"EVP")
}

// Numbers 1 and 2. The letters are compared before any field is read.
#[tactic(auto, using(refusals::proofs::Chain::chained, crate::proofs::Reading::shown), unfolding(sheet::specs::Sheet::mark_check))]
pub fn mark_check(s: &[u8]) -> Check
    ensures { result ≡ mark_check s.now }
{
    refuse(s.len() < HEAD, Rule::HeadShort, 0)?;
    refuse(letters_missing(s), Rule::Mark, 0)
}

// Numbers 3 to 6: the version, the numbers of seasons and of rows, and the zero byte of the versions with one byte for the rows.
#[tactic(auto, using(refusals::proofs::Chain::chained), unfolding(sheet::specs::Sheet::numbers_check))]
fn numbers_check(s: &[u8]) -> Check
    requires { 8 ≤ length s.now }
    ensures { result ≡ numbers_check s.now }
{
    let zero_wrong = !has_many_rows(s) & (u8_at(s, 7) != 0);
    refuse(outside(1, VERSION_LIMIT, version_of(s)), Rule::Version, 3)?;
    refuse(outside(1, SEASONS_LIMIT, u8_at(s, 5)), Rule::Seasons, 5)?;
    refuse(outside(1, rows_most(s), rows_of(s) as u64), Rule::Rows, 6)?;
    refuse(zero_wrong, Rule::HeadZero, 7)
}

// Numbers 1 to 6.
#[tactic(auto, using(refusals::proofs::Chain::chained, crate::proofs::Reading::shown), unfolding(sheet::specs::Sheet::head_check))]
pub fn head_check(s: &[u8]) -> Check
    ensures { result ≡ head_check s.now }
{
    mark_check(s)?;
    numbers_check(s)
}

// The length is the one that the head's version and its numbers of seasons and rows give.
#[tactic(auto, using(refusals::proofs::Chain::chained), unfolding(sheet::specs::Sheet::length_check))]
pub fn length_check(s: &[u8]) -> Check
    requires { 8 ≤ length s.now }
    ensures { result ≡ length_check s.now }
{
    let wanted = seasons_start(s) + SEASON_BYTES * seasons_of(s) + ROW_BYTES * rows_of(s);
    refuse(s.len() != wanted, Rule::Length, 0)
}

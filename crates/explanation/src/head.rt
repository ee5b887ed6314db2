// Head and length: numbers 1 to 7. What reads the head asks for its eight bytes itself, as the functions of fields do: the table reads
// sheets that are not accepted, and a type for the head would be made of this bound again.
ghost use Rattle.std.specs.Prelude.{◌≡◌, ◌-◌, ◌<◌, ◌≤◌, length};
ghost use Rattle.sheet.specs.Integers.{u8_at};
ghost use Rattle.findings.specs.Lines.{site, field, limits, always, line};
ghost use Rattle.findings.specs.Table.{count_bytes, letters_finding, mark_finding, numbers_finding, length_finding};

use fields::limits::{LONGEST, SEASONS_LIMIT, VERSION_LIMIT};
use fields::{
    ROW_BYTES, SEASON_BYTES, has_many_rows, rows_most, rows_of, seasons_of, seasons_start, u8_at,
    version_of,
};
use finding_lines::{judge_head, judge_sheet};
use findings::reasons::Reason;
use findings::spans::{
    HEAD_ZERO, LETTER_E, LETTER_P, LETTER_V, MANY_ROWS, ROWS, SEASONS, VERSION, WHOLE,
};
use findings::{Judged, Limits};
use std::ops::Range;

// The length of the head.
const HEAD: u64 = 8;

// A letter of the mark.
fn letter_finding(s: &[u8], reason: Reason, bytes: Range<u16>, letter: u8) -> Judged
    requires { bytes.start < length s.now }
    ensures { let value = u8_at s.now bytes.start in
        result ≡ line always (site 0 0 0) reason (field bytes.start (bytes.end - bytes.start) value) (limits letter letter) }
{
    let value = u8_at(s, usize::from(bytes.start));
    judge_sheet(reason, bytes, value, Limits::only(u64::from(letter)))
}

// Number 2: which letter of the mark.
#[tactic(auto, using(findings::proofs::Steps::in_order), unfolding(findings::specs::Table::letters_finding))]
fn letters_finding(s: &[u8]) -> Judged
    requires { 8 ≤ length s.now }
    ensures { result ≡ letters_finding s.now }
{
    letter_finding(s, Reason::LetterE, LETTER_E, b'E')?;
    letter_finding(s, Reason::LetterV, LETTER_V, b'V')?;
    letter_finding(s, Reason::LetterP, LETTER_P, b'P')
}

// Number 1, and then number 2. The letters are read where the head is there.
#[tactic(auto, using(findings::proofs::Steps::in_order), unfolding(findings::specs::Table::mark_finding))]
pub fn mark_finding(s: &[u8]) -> Judged
    ensures { result ≡ mark_finding s.now }
{
    let n = s.len() as u64;
    if n < HEAD {
        let whole = Limits::between(HEAD, LONGEST);
        return judge_sheet(Reason::HeadShort, WHOLE, n, whole);
    }
    letters_finding(s)
}

// The bytes of the number of rows.
#[tactic(auto, unfolding(findings::specs::Table::count_bytes, findings::specs::Canisters::picked))]
fn rows_bytes(s: &[u8]) -> Range<u16>
    requires { 8 ≤ length s.now }
    ensures { (result.start ≡ 6) × (result.end - result.start ≡ count_bytes s.now) }
{
    if has_many_rows(s) { MANY_ROWS } else { ROWS }
}

// Numbers 3 to 6: the version, the numbers of seasons and of rows, and the zero byte.
#[tactic(auto, using(findings::proofs::Steps::in_order), unfolding(findings::specs::Table::numbers_finding))]
pub fn numbers_finding(s: &[u8]) -> Judged
    requires { 8 ≤ length s.now }
    ensures { result ≡ numbers_finding s.now }
{
    let version = Limits::between(1, VERSION_LIMIT);
    let seasons = Limits::between(1, SEASONS_LIMIT);
    let rows = Limits::between(1, rows_most(s));
    judge_head(Reason::Version, VERSION, version_of(s), version)?;
    judge_head(Reason::Seasons, SEASONS, seasons_of(s) as u64, seasons)?;
    judge_head(Reason::Rows, rows_bytes(s), rows_of(s) as u64, rows)?;
    if has_many_rows(s) {
        return Ok(());
    }
    let zero = u8_at(s, usize::from(HEAD_ZERO.start));
    judge_head(Reason::HeadZero, HEAD_ZERO, zero, Limits::only(0))
}

// Number 7: the length is the one that the head gives.
#[tactic(auto, unfolding(findings::specs::Table::length_finding))]
pub fn length_finding(s: &[u8]) -> Judged
    requires { 8 ≤ length s.now }
    ensures { result ≡ length_finding s.now }
{
    let wanted = seasons_start(s) + SEASON_BYTES * seasons_of(s) + ROW_BYTES * rows_of(s);
    let wanted = Limits::only(wanted as u64);
    judge_sheet(Reason::Length, WHOLE, s.len() as u64, wanted)
}

// The parts of a change of a ledger whose sheet has passed its checks: whether the change is wrong, and making it. The calls on a ledger and on a
// shared one are made of them. Their contracts hand the version and the counts of the sheet to the plain machine, which knows no sheet.
ghost use Rattle.std.specs.Prelude.{false, ◌≡◌, ◌+◌, ◌≤◌, length};
ghost use Rattle.exact.specs.Factors.{total};
ghost use Rattle.refusals.specs.Check.{Pass};
ghost use Rattle.sheet.specs.Versions.{has_many_rows};
ghost use Rattle.sheet.specs.Bytes.{row_place};
ghost use Rattle.sheet.specs.Counts.{counts_of, with_count};
ghost use Rattle.ledger.specs.Machine.{past, wrong, new_count};
ghost use Rattle.inventory.specs.ReportAnswers.{report_check};
ghost use Rattle.ledger.specs.Ledger.{sheet_after, words_after};

use checks::accepted::Accepted;
use fields::limits::{FLEET_LIMIT, VEHICLES_LIMIT};
use fields::row_place;
use ledger::Call;
use report_sums::renewal::renew_row;

// A departure larger than the count v of its row, or an arrival with which a row or, where there may be many, all rows together have too many.
#[tactic(auto, using(crate::proofs::Outcome::counted), unfolding(ledger::specs::Machine::past))]
fn is_past(sheet: Accepted, v: u64, call: Call) -> bool
    ensures { let s = sheet.entry.bytes.now in result ≡ past (has_many_rows s) (total (counts_of s)) v call }
{
    match call {
        Call::Arrival(_, count) => {
            let fleet = sheet.fleet().saturating_add(count);
            let exceeded = sheet.has_many_rows() & (FLEET_LIMIT < fleet);
            (VEHICLES_LIMIT < v.saturating_add(count)) | exceeded
        }
        Call::Departure(_, count) => v < count,
    }
}

// Condition 29: no such row, or past what the row has or may have.
pub fn call_wrong(sheet: Accepted, call: Call) -> bool
    ensures { let s = sheet.entry.bytes.now in result ≡ wrong (has_many_rows s) (counts_of s) call }
{
    let row = call.row();
    if sheet.rows() as u64 <= row {
        return true;
    }
    is_past(sheet, sheet.vehicles(row as usize), call)
}

// The count of the named row after a call that is allowed.
fn count_after(sheet: Accepted, call: Call) -> u64
    requires { let s = sheet.bytes.now in wrong (has_many_rows s) (counts_of s) call ≡ false }
    ensures { result ≡ new_count (counts_of sheet.entry.bytes.now) call }
{
    let v = sheet.vehicles(call.row() as usize);
    match call {
        Call::Arrival(_, count) => v + count,
        Call::Departure(_, count) => v - count,
    }
}

// Row i gets v vehicles: the four bytes of its count, the lowest first. That the row is there is required of plain bytes, since those of an
// `Accepted` are behind a shared reference, through which nothing is written.
fn set_vehicles(s: &mut [u8], i: usize, v: u32)
    requires { row_place s.old i + 24 ≤ length s.old }
    ensures { s.new ≡ with_count s.old i v }
{
    let place = row_place(s, i) + 8;
    s[place..place + 4].copy_from_slice(&v.to_le_bytes());
}

// An allowed call: its row gets the new count, and the words of the row and all sums are computed again. That the call is allowed is required and is
// in no type: such a type would have to borrow the sheet that is changed here.
pub fn apply(s: &mut [u8], words: &mut [u64], call: Call)
    requires { (report_check s.old (length words.old) ≡ Pass) × (wrong (has_many_rows s.old) (counts_of s.old) call ≡ false) }
    ensures { (s.new ≡ sheet_after Pass s.old call)
        × (words.new ≡ words_after Pass s.new call words.old) }
{
    let new = count_after(Accepted { bytes: &*s }, call);
    let i = call.row() as usize;
    set_vehicles(s, i, new as u32);
    renew_row(Accepted { bytes: &*s }, words, i);
}

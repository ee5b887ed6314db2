// The calls on a ledger that eight participants and a marker share: who may touch which row. The caller has the sheet, its owners, one byte a
// row, and the words.
#![tactic(auto)]

ghost use Rattle.std.specs.Prelude.{not, ◌≡◌, ◌+◌, ◌≤◌, eqb, MatchResult, length};
ghost use Rattle.std.specs.Int.NonZero.{non_zero_u64_get};
ghost use Rattle.refusals.specs.Check.{Pass, refuse, ◌then◌};
ghost use Rattle.sheet.specs.Versions.{has_many_rows};
ghost use Rattle.sheet.specs.Bytes.{rows_of};
ghost use Rattle.sheet.specs.Counts.{counts_of};
ghost use Rattle.ledger.specs.Machine.{row_of, wrong};
ghost use Rattle.shared_ledger.specs.Caller.{who_of};
ghost use Rattle.shared_ledger.specs.Opening.{vehicles_held, OpenCall};
ghost use Rattle.shared_ledger.specs.Calls.{owner_of, may_total, past_share, shared_change_check, shared_row_check, shared_totals_check};
ghost use Rattle.shared_ledger.specs.Calls.{words_from, SharedChangeCall, SharedRowCall, SharedTotalsCall};

use crate::opening::{OwnedSheet, VEHICLES_EACH};
use inventory::writing::write_report;
use ledger::Call;
use ledger_calls::steps::{apply, call_wrong};
use refusals::{Check, Refusal, Rule, refuse};
use shared_ledger::{Caller, RowRead};
use std::num::NonZeroU64;

mod opening;

// A shared ledger as a call finds it.
#[derive(Clone, Copy)]
pub struct SharedLedger<'a> {
    pub sheet: &'a [u8],
    pub owners: &'a [u8],
    pub words: &'a [u64],
}

// The ledger is opened: the report is written, or all words stay. Here and in `change` the three are arguments: a `SharedLedger` only reads.
pub fn open(sheet: &[u8], owners: &[u8], words: &mut [u64]) -> Check
    ensures { OpenCall sheet.now owners.now words.old words.new result }
{
    let owned = OwnedSheet::of(sheet, owners, words.len())?;
    write_report(owned.sheet, words);
    Ok(())
}

// Vehicles arrive at a row or depart from it, where its owner calls. A refused call changes neither buffer.
pub fn change(sheet: &mut [u8], owners: &[u8], words: &mut [u64], who: Caller, call: Call) -> Check
    ensures { SharedChangeCall sheet.old owners.now words.old (who_of who) call sheet.new words.new result }
{
    let ledger = SharedLedger {
        sheet: &*sheet,
        owners,
        words: &*words,
    };
    ledger.change_check(who, call)?;
    apply(sheet, words, call);
    Ok(())
}

// An arrival with which a participant has too many vehicles.
#[tactic(auto, unfolding(shared_ledger::specs::Calls::past_share))]
fn past_share(held: u64, call: Call) -> bool
    ensures { result ≡ past_share held call }
{
    match call {
        Call::Arrival(_, count) => VEHICLES_EACH < held.saturating_add(count),
        Call::Departure(_, _) => false,
    }
}

// The marker alone reads the totals.
#[tactic(auto, unfolding(shared_ledger::specs::Calls::may_total, shared_ledger::specs::Caller::who_of))]
fn may_total(who: Caller) -> bool
    ensures { result ≡ may_total (who_of who) }
{
    matches!(who, Caller::Marker)
}

// N words of a buffer from a place on.
fn words_at<const N: usize>(words: &[u64], place: usize) -> [u64; N]
    requires { place + N ≤ length words.now }
    ensures { result ≡ words_from words.now place N }
{
    let mut out = [0u64; N];
    out.copy_from_slice(&words[place..place + N]);
    out
}

impl OwnedSheet<'_> {
    // A participant's change: 30, 29 and 31.
    #[tactic(auto, using(refusals::proofs::Chain::chained))]
    fn participant_check(&self, number: NonZeroU64, call: Call) -> Check
        ensures { let s = self.now.sheet.bytes.now in let owners = self.now.owners.now in let who = non_zero_u64_get number in
            result ≡ (
            refuse (not (eqb (owner_of s owners (row_of call)) who)) Rule.Right 0 then
            refuse (wrong (has_many_rows s) (counts_of s) call) Rule.Count 0 then
            refuse (past_share (vehicles_held s owners who (rows_of s)) call) Rule.Share 0) }
    {
        refuse(!self.owns(number, call.row()), Rule::Right, 0)?;
        refuse(call_wrong(self.sheet, call), Rule::Count, 0)?;
        refuse(past_share(self.vehicles_held(number), call), Rule::Share, 0)
    }
}

impl<'a> SharedLedger<'a> {
    // A change: what opening would refuse, then 30 of the marker, and what refuses a participant's.
    #[tactic(auto, using(refusals::proofs::Chain::chained), unfolding(shared_ledger::specs::Calls::shared_change_check))]
    fn change_check(&self, who: Caller, call: Call) -> Check
        ensures { result ≡ shared_change_check self.now.sheet.now self.now.owners.now (length self.now.words.now) (who_of who) call }
    {
        let owned = OwnedSheet::of(self.sheet, self.owners, self.words.len())?;
        match who {
            Caller::Marker => refuse(true, Rule::Right, 0),
            Caller::Participant(number) => owned.participant_check(number, call),
        }
    }

    // The sheet, where a read of a row is allowed: what opening would refuse, then 30 and 29.
    #[tactic(auto, using(refusals::proofs::Chain::chained), unfolding(shared_ledger::specs::Calls::shared_row_check))]
    fn row_check(&self, who: Caller, row: u64) -> Result<OwnedSheet<'a>, Refusal>
        ensures { let checks = shared_row_check self.now.sheet.now self.now.owners.now (length self.now.words.now) (who_of who) row in
            MatchResult result (λ owned. (owned.sheet.bytes.now ≡ self.now.sheet.now) × (checks ≡ Pass)) (λ refusal. checks ≡ Err refusal) }
    {
        let owned = OwnedSheet::of(self.sheet, self.owners, self.words.len())?;
        refuse(!owned.may_read(who, row), Rule::Right, 0)?;
        refuse(owned.sheet.rows() as u64 <= row, Rule::Count, 0)?;
        Ok(owned)
    }

    // The sheet, where a read of the totals is allowed: what opening would refuse, then 30.
    #[tactic(auto, using(refusals::proofs::Chain::chained), unfolding(shared_ledger::specs::Calls::shared_totals_check))]
    fn totals_check(&self, who: Caller) -> Result<OwnedSheet<'a>, Refusal>
        ensures { let checks = shared_totals_check self.now.sheet.now self.now.owners.now (length self.now.words.now) (who_of who) in
            MatchResult result (λ owned. (owned.sheet.bytes.now ≡ self.now.sheet.now) × (checks ≡ Pass)) (λ refusal. checks ≡ Err refusal) }
    {
        let owned = OwnedSheet::of(self.sheet, self.owners, self.words.len())?;
        refuse(!may_total(who), Rule::Right, 0)?;
        Ok(owned)
    }

    // The count and the six words of a row.
    pub fn read_row(&self, who: Caller, row: u64) -> Result<RowRead, Refusal>
        ensures { SharedRowCall self.now.sheet.now self.now.owners.now self.now.words.now (who_of who) row result }
    {
        let owned = self.row_check(who, row)?;
        let i = row as usize;
        Ok(RowRead {
            count: owned.sheet.vehicles(i),
            words: words_at::<6>(self.words, 6 * i),
        })
    }

    // The 26 words after the rows.
    pub fn read_totals(&self, who: Caller) -> Result<[u64; 26], Refusal>
        ensures { SharedTotalsCall self.now.sheet.now self.now.owners.now self.now.words.now (who_of who) result }
    {
        let owned = self.totals_check(who)?;
        Ok(words_at::<26>(self.words, 6 * owned.sheet.rows()))
    }
}

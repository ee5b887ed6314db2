// The checks of an opening of a shared ledger: those of the report, then row by row the owners and what each of them has.
ghost use Rattle.std.specs.Prelude.{◌≡◌, ◌+◌, ◌^◌, ◌≤◌, ◌<◌, true, false, ◌||◌, eqb, ltb, MatchOption, MatchResult};
ghost use Rattle.numbers.specs.Lists.{at};
ghost use Rattle.refusals.specs.Check.{Pass, each};
ghost use Rattle.sheet.specs.Bytes.{rows_of};
ghost use Rattle.sheet.specs.Sheet.{outside};
ghost use Rattle.std.specs.Int.NonZero.{non_zero_u64_get};
ghost use Rattle.shared_ledger.specs.Opening.{participants, rows_each, vehicles_each, vehicles_held, share_check, shared_check};
ghost use Rattle.shared_ledger.specs.Caller.{who_of};
ghost use Rattle.shared_ledger.specs.Calls.{owner_of, may_read};

use checks::accepted::Accepted;
use fields::range::outside;
use fields::row_place;
use inventory::check::{report_length, sheet_with_room};
use refusals::{Check, Refusal, Rule, refuse};
use shared_ledger::Caller;
use std::num::NonZeroU64;

// The participants are 1 to this one.
const PARTICIPANTS: u64 = 8;

// What each of them has at most.
const ROWS_EACH: u64 = 100;

pub const VEHICLES_EACH: u64 = 10000000;

// The owner's byte of row i; none where the list has ended.
fn owner_at(owners: &[u8], i: usize) -> Option<u8>
    ensures { MatchOption result (at owners.now i ≡ 0) (λ owner. owner ≡ at owners.now i) }
{
    owners.get(i).copied()
}

// Whether an owner is this participant.
fn is_theirs(owner: Option<u8>, who: NonZeroU64) -> bool
    ensures { MatchOption owner (result ≡ false) (λ number. result ≡ eqb number (non_zero_u64_get who)) }
{
    owner.is_some_and(|number| u64::from(number) == who.get())
}

// The participant who owns row i; none where no one does.
fn participant_at(owners: &[u8], i: usize) -> Option<usize>
    ensures { MatchOption result (outside 1 participants (at owners.now i) ≡ true)
        (λ who. (who ≡ at owners.now i) × (outside 1 participants who ≡ false)) }
{
    let owner = owner_at(owners, i)?;
    if outside(1, PARTICIPANTS, u64::from(owner)) {
        return None;
    }
    Some(usize::from(owner))
}

// What an owner has: so many rows, and the vehicles of these.
#[derive(Clone, Copy, Default)]
struct Holding {
    rows: u64,
    vehicles: u64,
}

impl Holding {
    // With one row more, of so many vehicles.
    fn with_row(self, vehicles: u64) -> Holding
        requires { (self.rows + 1 < 2 ^ 64) × (self.vehicles + vehicles < 2 ^ 64) }
        ensures { (result.rows ≡ self.rows + 1) × (result.vehicles ≡ self.vehicles + vehicles) }
    {
        Holding {
            rows: self.rows + 1,
            vehicles: self.vehicles + vehicles,
        }
    }

    // More than a participant may have.
    fn is_past(self) -> bool
        ensures { result ≡ (ltb rows_each self.rows || ltb vehicles_each self.vehicles) }
    {
        (ROWS_EACH < self.rows) | (VEHICLES_EACH < self.vehicles)
    }
}

// An accepted sheet with the owners of its rows.
#[derive(Clone, Copy)]
pub struct OwnedSheet<'a> {
    pub sheet: Accepted<'a>,
    pub owners: &'a [u8],
}

impl<'a> OwnedSheet<'a> {
    // Every check of an opening, with room for so many words: the sheet with its owners, or why the ledger is refused.
    #[tactic(auto, using(refusals::proofs::Chain::chained), unfolding(shared_ledger::specs::Opening::shared_check, inventory::specs::ReportAnswers::report_check))]
    pub fn of(sheet: &'a [u8], owners: &'a [u8], room: usize) -> Result<Self, Refusal>
        ensures { let checks = shared_check sheet.now owners.now room in
            MatchResult result (λ owned. (owned.sheet.bytes.now ≡ sheet.now) × (owned.owners.now ≡ owners.now) × (checks ≡ Pass))
            (λ refusal. checks ≡ Err refusal) }
    {
        let sheet = sheet_with_room(sheet, room, report_length)?;
        let owned = OwnedSheet { sheet, owners };
        owned.shares_check()?;
        Ok(owned)
    }

    // Who owns a row. No one owns a row that is not there.
    fn owner_of(&self, row: u64) -> Option<u8>
        ensures { MatchOption result (owner_of self.now.sheet.bytes.now self.now.owners.now row ≡ 0)
            (λ owner. owner ≡ owner_of self.now.sheet.bytes.now self.now.owners.now row) }
    {
        if self.sheet.rows() as u64 <= row {
            return None;
        }
        owner_at(self.owners, row as usize)
    }

    // Whether a participant owns a row.
    pub fn owns(&self, who: NonZeroU64, row: u64) -> bool
        ensures { result ≡ eqb (owner_of self.now.sheet.bytes.now self.now.owners.now row) (non_zero_u64_get who) }
    {
        is_theirs(self.owner_of(row), who)
    }

    // A participant reads the rows of their own, and the marker all.
    pub fn may_read(&self, who: Caller, row: u64) -> bool
        ensures { result ≡ may_read self.now.sheet.bytes.now self.now.owners.now (who_of who) row }
    {
        match who {
            Caller::Marker => true,
            Caller::Participant(number) => self.owns(number, row),
        }
    }

    // The vehicles of all rows that are theirs.
    pub fn vehicles_held(&self, who: NonZeroU64) -> u64
        ensures { let s = self.now.sheet.bytes.now in result ≡ vehicles_held s self.now.owners.now (non_zero_u64_get who) (rows_of s) }
    {
        let mut sum: u64 = 0;
        for i in 0..self.sheet.rows() {
            if is_theirs(owner_at(self.owners, i), who) {
                sum += self.sheet.vehicles(i);
            }
        }
        sum
    }

    // The owners of the rows one after another: what each of them has up to a row is carried along.
    fn shares_check(&self) -> Check
        ensures { let s = self.now.sheet.bytes.now in result ≡ each (share_check s self.now.owners.now) (rows_of s) }
    {
        // Entry 0 is no one's.
        let mut holdings = [Holding::default(); 9];
        for i in 0..self.sheet.rows() {
            let place = row_place(self.sheet.bytes, i) as u64;
            let who = participant_at(self.owners, i).ok_or(Refusal {
                rule: Rule::Share,
                place,
            })?;
            let holding = holdings[who].with_row(self.sheet.vehicles(i));
            refuse(holding.is_past(), Rule::Share, place)?;
            holdings[who] = holding;
        }
        Ok(())
    }
}

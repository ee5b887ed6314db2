// The calls on a shared ledger for a program in another language. C has a name for an arrival and one for a departure, so each is a function
// here, and it hands over beside each other what a struct holds elsewhere, as sheet, owners and words.
ghost use Rattle.ledger.specs.declared.Call.TheVariants.{Arrival, Departure};
ghost use Rattle.boundary.specs.Shared.{OpenNumbers, SharedNumbers, RowNumbers, TotalsNumbers};

use boundary::{EvpCheck, EvpRow, EvpTotals};
use ledger::Call;
use shared_ledger::Caller;
use shared_ledger_calls::SharedLedger;

// The ledger is opened with its owners, one byte a row.
#[unsafe(no_mangle)]
pub extern "C" fn evp_shared_open(sheet: &[u8], owners: &[u8], words: &mut [u64]) -> EvpCheck
    ensures { OpenNumbers sheet.now owners.now words.old words.new result }
{
    EvpCheck::from(shared_ledger_calls::open(sheet, owners, words))
}

// Vehicles arrive at a row, counted from 0, where its owner calls.
#[unsafe(no_mangle)]
pub extern "C" fn evp_shared_arrive(
    sheet: &mut [u8],
    owners: &[u8],
    words: &mut [u64],
    who: u64,
    row: u64,
    vehicles: u64,
) -> EvpCheck
    ensures { SharedNumbers sheet.old owners.now words.old who (Arrival row vehicles)
        sheet.new words.new result }
{
    let arrival = Call::Arrival(row, vehicles);
    EvpCheck::from(shared_ledger_calls::change(sheet, owners, words, Caller::from(who), arrival))
}

// Vehicles depart from it.
#[unsafe(no_mangle)]
pub extern "C" fn evp_shared_depart(
    sheet: &mut [u8],
    owners: &[u8],
    words: &mut [u64],
    who: u64,
    row: u64,
    vehicles: u64,
) -> EvpCheck
    ensures { SharedNumbers sheet.old owners.now words.old who (Departure row vehicles)
        sheet.new words.new result }
{
    let departure = Call::Departure(row, vehicles);
    EvpCheck::from(shared_ledger_calls::change(sheet, owners, words, Caller::from(who), departure))
}

// A row's count and six words.
#[unsafe(no_mangle)]
pub extern "C" fn evp_shared_row(
    sheet: &[u8],
    owners: &[u8],
    words: &[u64],
    who: u64,
    row: u64,
) -> EvpRow
    ensures { RowNumbers sheet.now owners.now words.now who row result }
{
    let ledger = SharedLedger {
        sheet,
        owners,
        words,
    };
    EvpRow::from(ledger.read_row(Caller::from(who), row))
}

// The 26 words after the rows.
#[unsafe(no_mangle)]
pub extern "C" fn evp_shared_totals(
    sheet: &[u8],
    owners: &[u8],
    words: &[u64],
    who: u64,
) -> EvpTotals
    ensures { TotalsNumbers sheet.now owners.now words.now who result }
{
    let ledger = SharedLedger {
        sheet,
        owners,
        words,
    };
    EvpTotals::from(ledger.read_totals(Caller::from(who)))
}

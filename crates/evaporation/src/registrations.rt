// The ledger's calls for a program in another language. Opening a ledger is the report call. C has a name for an arrival and one for a
// departure, so each is a function here, and it hands over sheet and words, and row and vehicles, beside each other.
ghost use Rattle.ledger.specs.declared.Call.TheVariants.{Arrival, Departure};
ghost use Rattle.boundary.specs.Change.{ChangeNumbers};

use boundary::EvpCheck;
use ledger::Call;

// Vehicles arrive at a row, counted from 0.
#[unsafe(no_mangle)]
pub extern "C" fn evp_arrive(
    sheet: &mut [u8],
    words: &mut [u64],
    row: u64,
    vehicles: u64,
) -> EvpCheck
    ensures { ChangeNumbers sheet.old words.old (Arrival row vehicles) sheet.new words.new result }
{
    EvpCheck::from(ledger_calls::change(sheet, words, Call::Arrival(row, vehicles)))
}

// Vehicles depart from it.
#[unsafe(no_mangle)]
pub extern "C" fn evp_depart(
    sheet: &mut [u8],
    words: &mut [u64],
    row: u64,
    vehicles: u64,
) -> EvpCheck
    ensures { ChangeNumbers sheet.old words.old (Departure row vehicles) sheet.new words.new result }
{
    EvpCheck::from(ledger_calls::change(sheet, words, Call::Departure(row, vehicles)))
}

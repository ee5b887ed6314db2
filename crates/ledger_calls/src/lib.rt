// The ledger's calls: vehicles arrive at a row or depart from it, and the report is kept in step. The sheet and the words are the caller's.
#![tactic(auto)]

ghost use Rattle.std.specs.Prelude.{◌≡◌};
ghost use Rattle.ledger.specs.Ledger.{ChangeCall, change_check};

use crate::steps::{apply, call_wrong};
use inventory::check::{report_length, sheet_with_room};
use ledger::Call;
use refusals::{Check, Rule, refuse};

pub mod steps;

// What opening would refuse, then 29.
#[tactic(auto, using(refusals::proofs::Chain::chained), unfolding(ledger::specs::Ledger::change_check, inventory::specs::ReportAnswers::report_check))]
fn change_check(s: &[u8], room: usize, call: Call) -> Check
    ensures { result ≡ change_check s.now room call }
{
    let sheet = sheet_with_room(s, room, report_length)?;
    refuse(call_wrong(sheet, call), Rule::Count, 0)
}

// A call on a ledger. Whatever the buffers hold is checked first, as opening them would; a refused call changes neither.
pub fn change(s: &mut [u8], words: &mut [u64], call: Call) -> Check
    ensures { ChangeCall s.old words.old call s.new words.new result }
{
    change_check(s, words.len(), call)?;
    apply(s, words, call);
    Ok(())
}

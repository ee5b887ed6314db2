// The checks of the report call: those of the sheet first, then condition 22.
ghost use Rattle.std.specs.Prelude.{List, ◌≡◌, ℕ, ◌≤◌, MatchResult};
ghost use Rattle.refusals.specs.Check.{Pass};
ghost use Rattle.report_words.specs.Categories.{report_length};
ghost use Rattle.inventory.specs.ReportAnswers.{report_check, room_check};

use checks::accepted::Accepted;
use refusals::{Check, Refusal, Rule, refuse};

// How many words a report has: six for each row, 24 of subtotals and two of totals.
#[tactic(auto, unfolding(report_words::specs::Categories::report_length))]
pub fn report_length(sheet: Accepted) -> usize
    ensures { (result ≡ report_length sheet.entry.bytes.now) × (result ≤ 6026) }
{
    6 * sheet.rows() + 26
}

// The sheet, where every check of it passes and there is room for so many words of it; else why the call that stores them is refused.
// `report`, `factors` of factor_table and `report_seasons` of season_report share this. Each counts its words and writes them by functions of
// its own, and takes sheet and words as two arguments, as C's calls do.
#[tactic(auto, using(refusals::proofs::Chain::chained))]
pub fn sheet_with_room<'a, F: FnOnce(Accepted<'a>) -> usize>(
    s: &'a [u8],
    room: usize,
    length: F,
) -> Result<Accepted<'a>, Refusal>
    requires { F.IsAlwaysCallable length }
    ensures { (needed : List ℕ → ℕ) → ((sheet : _) (n : ℕ) → F.post length sheet n → n ≡ needed sheet.bytes.now)
        → MatchResult result (λ sheet. (sheet.bytes.now ≡ s.now) × (room_check needed s.now room ≡ Pass))
        (λ refusal. room_check needed s.now room ≡ Err refusal) }
{
    let sheet = Accepted::of(s)?;
    refuse(room < length(sheet), Rule::Room, 0)?;
    Ok(sheet)
}

// Why a report is refused, where it is.
#[tactic(auto, unfolding(crate::specs::ReportAnswers::report_check))]
pub fn report_check(s: &[u8], room: usize) -> Check
    ensures { result ≡ report_check s.now room }
{
    sheet_with_room(s, room, report_length)?;
    Ok(())
}

// Why a sheet is refused: the first finding of the table, as a function of the bytes.
#![tactic(auto)]

ghost use Rattle.std.specs.Prelude.{◌≡◌};
ghost use Rattle.findings.specs.Table.{table, finding_of};
ghost use Rattle.findings.specs.Meaning.{Explains};

use crate::head::{length_finding, mark_finding, numbers_finding};
use crate::parking::parking_finding;
use findings::{Finding, Judged};
use row_findings::rows_finding;
use season_findings::seasons_finding;

mod head;
mod parking;

// The stages one after another. Each reads only what the stages before it showed to be there.
#[tactic(auto, using(findings::proofs::Steps::in_order), unfolding(findings::specs::Table::table))]
fn stages(s: &[u8]) -> Judged
    ensures { result ≡ table s.now }
{
    mark_finding(s)?;
    numbers_finding(s)?;
    length_finding(s)?;
    parking_finding(s)?;
    let seasons = seasons_finding(s)?;
    rows_finding(seasons)
}

// What is wrong on a sheet, where to look and what may stand there; all zeros where it is accepted.
pub fn explain(s: &[u8]) -> Finding
    ensures { (result ≡ finding_of s.now) × Explains s.now result }
{
    match stages(s) {
        Ok(()) => Finding::default(),
        Err(found) => Finding::from(found),
    }
}

// Parking: numbers 8 and 9 of two lists of counts, 24 of a grid.
ghost use Rattle.std.specs.Prelude.{◌≡◌, ◌≤◌, length};
ghost use Rattle.sheet.specs.Versions.{seasons_start};
ghost use Rattle.findings.specs.Table.{parking_finding};

use fields::limits::{COUNTS_LIMIT, GRID_LIMIT};
use fields::{CELLS, COUNTS, DURATIONS_START, GRID_START, HOURS_START, counts_total, has_grid};
use finding_lines::judge_head;
use findings::reasons::Reason;
use findings::spans::{DURATIONS, GRID, HOURS};
use findings::{Judged, Limits};

// The sum of the grid, or those of the lists of a sheet that has none. The check of the parking makes the same choice; one function for both
// would take each branch as a closure, and is no plainer.
#[tactic(auto, using(findings::proofs::Steps::in_order, findings::proofs::Steps::by_choice), unfolding(findings::specs::Table::parking_finding, findings::specs::Table::grid_finding, findings::specs::Table::lists_finding, sheet::specs::Bytes::grid_counts, sheet::specs::Bytes::duration_counts, sheet::specs::Bytes::hour_counts))]
pub fn parking_finding(s: &[u8]) -> Judged
    requires { seasons_start s.now ≤ length s.now }
    ensures { result ≡ parking_finding s.now }
{
    if has_grid(s) {
        let cells = counts_total(s, GRID_START, CELLS);
        return judge_head(Reason::Grid, GRID, cells, Limits::between(1, GRID_LIMIT));
    }
    let range = Limits::between(1, COUNTS_LIMIT);
    let durations = counts_total(s, DURATIONS_START, COUNTS);
    let hours = counts_total(s, HOURS_START, COUNTS);
    judge_head(Reason::Durations, DURATIONS, durations, range)?;
    judge_head(Reason::Hours, HOURS, hours, range)
}

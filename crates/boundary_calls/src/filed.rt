// The verdict on a filed figure that is handed in.
ghost use Rattle.std.specs.Prelude.{◌≡◌};
ghost use Rattle.boundary.specs.MarkExport.{unit_handed, handed_verdict};

use boundary::EvpFiled;
use marking::{Band, Filed, Verdict, mark};

// A figure without a unit is not read.
pub fn mark_in(filed: EvpFiled, band: Band) -> Verdict
    ensures { result ≡ handed_verdict filed.digits filed.places (unit_handed filed.unit) band.low band.high }
{
    match Filed::try_from(filed) {
        Ok(figure) => mark(figure, band),
        Err(_) => Verdict::Unreadable,
    }
}

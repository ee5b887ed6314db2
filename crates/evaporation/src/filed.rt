// The mark of a filed mass for a program in another language: numbers alone, as C hands them over, no enum and no band.
ghost use Rattle.boundary.specs.MarkExport.{MarkNumbers};

use boundary::{EvpFiled, EvpVerdict};
use boundary_calls::filed::mark_in;
use marking::Band;

// The mark of a filed figure against a band from low to high milligrams.
#[unsafe(no_mangle)]
pub extern "C" fn evp_mark(filed: EvpFiled, low: u64, high: u64) -> EvpVerdict
    ensures { MarkNumbers filed low high result }
{
    EvpVerdict::from(mark_in(filed, Band { low, high }))
}

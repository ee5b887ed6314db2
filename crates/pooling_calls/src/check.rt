// Where pooling stops: the first sheet, the second, and the two together.
ghost use Rattle.std.specs.Prelude.{◌≡◌};
ghost use Rattle.pooling.specs.Pool.{region_check};
ghost use Rattle.pooling.specs.PoolCall.{pool_answer};

use crate::pair::Pair;
use checks::check_sheet;
use checks::head::mark_check;
use fields::version_of;
use pooling::PoolRefusal;
use refusals::{Check, Rule, refuse};

// The version that is pooled.
const REGION_VERSION: u64 = 4;

// One sheet: its letters, its version, and then every check from the first on.
#[tactic(auto, using(refusals::proofs::Chain::chained), unfolding(pooling::specs::Pool::region_check))]
fn region_check(s: &[u8]) -> Check
    ensures { result ≡ region_check s.now }
{
    mark_check(s)?;
    refuse(version_of(s) != REGION_VERSION, Rule::Version, 3)?;
    check_sheet(s)
}

// The first of the three that refuses. Both sheets are slices here, as C hands them in, and a `Pair` where each has passed.
pub fn pool_answer(a: &[u8], b: &[u8], room: usize) -> Result<(), PoolRefusal>
    ensures { result ≡ pool_answer a.now b.now room }
{
    region_check(a).map_err(PoolRefusal::First)?;
    region_check(b).map_err(PoolRefusal::Second)?;
    Pair::of(a, b).check(room).map_err(PoolRefusal::Pooled)
}

// The shares of each road kind, added as doubles, and the cells between their sums.
ghost use Rattle.std.specs.Prelude.{◌≡◌};
ghost use Rattle.map_shares.specs.Range.{SharesIn, RowIn};
ghost use Rattle.map_rows.specs.Rows.{over, shared_out};
ghost use Rattle.map_rows.specs.Limits.{Fits, LimitsOf, cells_within};

use crate::{RoadLimits, RowCells};
use map_cells::Cell;
use map_cells::doubles::{MASS_LIMIT, add_three};
use map_cells::kinds::Limits;
use map_shares::{RoadShares, RowShares};
use refusals::{Refusal, Rule, refuse};

// The highs of a road kind pass 2^53. Asked of whole numbers: the double of 2^53 + 1 would not show it.
#[tactic(auto, unfolding(crate::specs::Rows::over))]
fn over(s: RoadShares) -> bool
    requires { SharesIn s }
    ensures { result ≡ over s }
{
    MASS_LIMIT < s.high.diurnal + s.high.soak + s.high.running
}

// The low and the high of a road kind, each the sum of its shares.
fn limits(s: RoadShares) -> Limits
    requires { Fits s }
    ensures { LimitsOf s result }
{
    Limits {
        low: add_three(s.low.diurnal, s.low.soak, s.low.running),
        high: add_three(s.high.diurnal, s.high.soak, s.high.running),
    }
}

// The three cells, from the lows and highs of the three road kinds.
#[tactic(auto, unfolding(crate::specs::Limits::cells_within))]
fn cells_of(k: RoadLimits) -> RowCells
    ensures { result ≡ cells_within k }
{
    RowCells {
        urban: Cell::from(k.urban),
        rural: Cell::from(k.rural),
        highway: Cell::from(k.highway),
    }
}

// The cells of a row's shares, or a refusal where one of them would pass 2^53.
pub fn share_out(s: RowShares) -> Result<RowCells, Refusal>
    requires { RowIn s }
    ensures { result ≡ shared_out s }
{
    let u = s.urban;
    let r = s.rural;
    let h = s.highway;
    refuse(over(u) | over(r) | over(h), Rule::Cell, 0)?;
    let k = RoadLimits {
        urban: limits(u),
        rural: limits(r),
        highway: limits(h),
    };
    Ok(cells_of(k))
}

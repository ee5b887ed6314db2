// A row's canister at each temperature of a day. A day has 25 temperatures, by a mark's distance from 14:00.
ghost use Rattle.std.specs.Prelude.{ℕ, ◌<◌};
ghost use Rattle.breakthrough.specs.Through.{curve_at, CurveReady};

use crate::curve::Curve;

#[derive(Clone, Copy)]
pub struct Curves {
    pub by_distance: [Curve; 25],
    ghost ready: { (d : ℕ) → d < 25 → CurveReady (curve_at by_distance d) },
}

// A row's shares in whole milligrams, computed in 64 bits.
ghost use Rattle.std.specs.Prelude.{◌≡◌};
ghost use Rattle.map_shares.specs.Demands.{SpanIn};
ghost use Rattle.map_shares.specs.Range.{PartIn, RoadIn, SharesIn, RowIn};
ghost use Rattle.map_shares.specs.Shares.{share_down, share_up, road_shares, row_shares};

use crate::checks::{CheckedTravel, CheckedWords};
use crate::roads::{highway_road, rural_road, urban_road};
use crate::split::{Rounding, share};
use map_cells::doubles::WholeMass;
use map_shares::{Part, Road, RoadShares, RowShares, Shares, Span};

// A mechanism's share: of its low, cut down, and of its high, cut up. That the part is in range is asked for here and in split.rt, and is
// no fact of the type: roads.rt would then show it of nine parts one by one, where `RoadIn` has it of the three of a road at once.
fn span_share(s: Span, p: Part) -> Span
    requires { SpanIn s × PartIn p }
    ensures { result ≡ record { low = share_down s.low p; high = share_up s.high p } }
{
    Span {
        low: share(WholeMass { milligrams: s.low }, p, Rounding::Down),
        high: share(WholeMass { milligrams: s.high }, p, Rounding::Up),
    }
}

fn road_shares(w: CheckedWords, k: Road) -> RoadShares
    requires { RoadIn k }
    ensures { (result ≡ road_shares w.words k) × SharesIn result }
{
    let diurnal = span_share(w.words.diurnal, k.diurnal);
    let soak = span_share(w.words.soak, k.soak);
    let running = span_share(w.words.running, k.running);
    RoadShares {
        low: Shares {
            diurnal: diurnal.low,
            soak: soak.low,
            running: running.low,
        },
        high: Shares {
            diurnal: diurnal.high,
            soak: soak.high,
            running: running.high,
        },
    }
}

// The shares of a row whose words and travel are as they must be.
pub fn row_shares(w: CheckedWords, t: CheckedTravel) -> RowShares
    ensures { (result ≡ row_shares w.words t.travel) × RowIn result }
{
    RowShares {
        urban: road_shares(w, urban_road(t)),
        rural: road_shares(w, rural_road(t)),
        highway: road_shares(w, highway_road(t)),
    }
}

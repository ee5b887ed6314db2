// What part of a row's masses falls on each road kind.
ghost use Rattle.std.specs.Prelude.{cond, ◌≡◌, ◌*◌, ◌^◌, ◌≤◌};
ghost use Rattle.map_shares.specs.Demands.{travel_limit};
ghost use Rattle.map_shares.specs.Roads.{rural_time, highway_time, rest_parts, all_mileage, urban_road, rural_road, highway_road};

use crate::checks::CheckedTravel;
use map_shares::{Part, Road};

// A mileage times a speed.
fn crossed(mileage: u64, speed: u64) -> u64
    requires { (mileage ≤ travel_limit) × (speed ≤ travel_limit) }
    ensures { (result ≡ mileage * speed) × (result ≤ 10 ^ 12) }
{
    mileage * speed
}

// The time on rural roads, times both speeds. This and the next are two functions: one with the road as a
// parameter would choose both factors by it, and be no plainer.
fn rural_time(t: CheckedTravel) -> u64
    ensures { (result ≡ rural_time t.travel) × (result ≤ 10 ^ 12) }
{
    crossed(t.travel.mileage.rural, t.travel.speed.highway)
}

// The time on highways, times both speeds.
fn highway_time(t: CheckedTravel) -> u64
    ensures { (result ≡ highway_time t.travel) × (result ≤ 10 ^ 12) }
{
    crossed(t.travel.mileage.highway, t.travel.speed.rural)
}

// So much time of that outside towns: the rest of a town row's diurnal mass is a twelfth.
fn rest_part(t: CheckedTravel, time: u64) -> Part
    ensures { result ≡ record { part = time; all = rest_parts t.travel } }
{
    let both = rural_time(t) + highway_time(t);
    let all = if t.travel.town { 12 * both } else { both };
    Part { part: time, all }
}

// So much of the whole mileage.
fn mileage_part(t: CheckedTravel, mileage: u64) -> Part
    ensures { result ≡ record { part = mileage; all = all_mileage t.travel } }
{
    Part {
        part: mileage,
        all: t.travel.mileage.urban + t.travel.mileage.rural + t.travel.mileage.highway,
    }
}

pub fn urban_road(t: CheckedTravel) -> Road
    ensures { result ≡ urban_road t.travel }
{
    let diurnal = if t.travel.town { 11 } else { 0 };
    let soak = if t.travel.town { 1 } else { 0 };
    Road {
        diurnal: Part {
            part: diurnal,
            all: 12,
        },
        soak: Part { part: soak, all: 1 },
        running: mileage_part(t, t.travel.mileage.urban),
    }
}

pub fn rural_road(t: CheckedTravel) -> Road
    ensures { result ≡ rural_road t.travel }
{
    let soak = if t.travel.town { 0 } else { 1 };
    Road {
        diurnal: rest_part(t, rural_time(t)),
        soak: Part { part: soak, all: 1 },
        running: mileage_part(t, t.travel.mileage.rural),
    }
}

#[tactic(auto, unfolding(map_shares::specs::Roads::highway_road))]
pub fn highway_road(t: CheckedTravel) -> Road
    ensures { result ≡ highway_road t.travel }
{
    Road {
        diurnal: rest_part(t, highway_time(t)),
        soak: Part { part: 0, all: 1 },
        running: mileage_part(t, t.travel.mileage.highway),
    }
}

// The class and technology table of document 01, what a row leaves to its class, and the sizes of canisters.
ghost use Rattle.std.specs.Prelude.{Option, Some, None, ◌≡◌, ◌≤◌, [], ◌∷◌, slice_get, MatchOption};
ghost use Rattle.exact.specs.Classes.{absent, fitted_with, equipment};
ghost use Rattle.sheet.specs.Bytes.{fitted_canister, fitted_tank, canister_of, tank_of};
ghost use Rattle.sheet.specs.Range.{halves};
ghost use Rattle.sheet.specs.Sheet.{no_canister};

use exact::{Canister, Fitted};

// The largest code that names a canister, and the code that leaves it to the class.
pub const LAST_CODE: u64 = 3;

pub const BY_CLASS: u64 = 255;

// Document 01 asks for "match on class and technology numbers with ranges", which is why these are numbers and no enums.

// Classes 1 to 4: no canister, the one from technology 1 on, the other from 3 on; and none of these beyond the table.
fn one_then_other(one: Canister, other: Canister, technology: u64) -> Option<Option<Canister>>
    ensures { result ≡ slice_get (None ∷ Some one ∷ Some one ∷ Some other ∷ Some other ∷ Some other ∷ []) technology }
{
    match technology {
        0 => Some(None),
        1..=2 => Some(Some(one)),
        3..=5 => Some(Some(other)),
        _ => None,
    }
}

// Classes 5 to 8.
fn without(technology: u64) -> Option<Option<Canister>>
    ensures { result ≡ slice_get (None ∷ None ∷ None ∷ None ∷ []) technology }
{
    match technology {
        0..=3 => Some(None),
        _ => None,
    }
}

// Class 9.
fn always_small(technology: u64) -> Option<Option<Canister>>
    ensures { result ≡ slice_get (Some Canister.Small ∷ Some Canister.Small ∷ Some Canister.Small ∷ []) technology }
{
    match technology {
        0..=2 => Some(Some(Canister::Small)),
        _ => None,
    }
}

// A canister with a tank in tenths of a litre.
fn with_tank(tank: u64, canister: Option<Option<Canister>>) -> Option<Fitted>
    ensures { MatchOption canister (result ≡ absent) (λ c. result ≡ fitted_with c tank) }
{
    canister.map(|canister| Fitted { canister, tank })
}

// The canister and the tank of a class and a technology, or the absent pair.
pub fn equipment_of(class: u64, technology: u64) -> Option<Fitted>
    ensures { result ≡ equipment class technology }
{
    match class {
        1 => with_tank(
            500,
            one_then_other(Canister::Small, Canister::Medium, technology),
        ),
        2 => with_tank(
            600,
            one_then_other(Canister::Small, Canister::Medium, technology),
        ),
        3 => with_tank(
            750,
            one_then_other(Canister::Medium, Canister::Large, technology),
        ),
        4 => with_tank(
            600,
            one_then_other(Canister::Small, Canister::Medium, technology),
        ),
        5 => with_tank(50, without(technology)),
        6 => with_tank(80, without(technology)),
        7 => with_tank(100, without(technology)),
        8 => with_tank(180, without(technology)),
        9 => with_tank(200, always_small(technology)),
        _ => None,
    }
}

// The canister that a class and technology are fitted with.
#[tactic(auto, unfolding(sheet::specs::Bytes::fitted_canister))]
fn fitted_canister(equipment: Option<Fitted>) -> Option<Canister>
    ensures { result ≡ fitted_canister equipment }
{
    equipment.and_then(|fitted| fitted.canister)
}

// The tank that they are fitted with, in tenths of a litre.
#[tactic(auto, unfolding(sheet::specs::Bytes::fitted_tank))]
fn fitted_tank(equipment: Option<Fitted>) -> u64
    ensures { result ≡ fitted_tank equipment }
{
    equipment.map_or(0, |fitted| fitted.tank)
}

// What a row's canister code stands for; 255 leaves it to the class. An enum of the codes would be no plainer: it would live for this
// one match, and a row that is not yet checked may have a code that is none of them.
#[tactic(auto, unfolding(sheet::specs::Bytes::canister_of, sheet::specs::Bytes::written_canister))]
pub fn canister_of(code: u64, equipment: Option<Fitted>) -> Option<Canister>
    ensures { result ≡ canister_of code equipment }
{
    match code {
        1 => Some(Canister::Small),
        2 => Some(Canister::Medium),
        3 => Some(Canister::Large),
        255 => fitted_canister(equipment),
        _ => None,
    }
}

// A row's tank in tenths of a litre; 0 leaves it to the class.
#[tactic(auto, unfolding(sheet::specs::Bytes::tank_of))]
pub fn tank_of(tenths: u64, equipment: Option<Fitted>) -> u64
    ensures { result ≡ tank_of tenths equipment }
{
    match tenths {
        0 => fitted_tank(equipment),
        _ => tenths,
    }
}

// The size s of a canister in halves: 2, 1 and 1/2 for small, medium and large, and 0 without one.
#[tactic(auto, unfolding(sheet::specs::Range::halves))]
pub fn halves(canister: Option<Canister>) -> u64
    ensures { (result ≡ halves canister) × (result ≤ 4) }
{
    match canister {
        None => 0,
        Some(Canister::Small) => 4,
        Some(Canister::Medium) => 2,
        Some(Canister::Large) => 1,
    }
}

// No canister counts for the row.
#[tactic(auto, unfolding(sheet::specs::Sheet::no_canister))]
pub fn no_canister(canister: Option<Canister>) -> bool
    ensures { result ≡ no_canister canister }
{
    canister.is_none()
}

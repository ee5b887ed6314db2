// The load of a canister at parking start, and how far what is lost there can be above the computed one.
ghost use Rattle.std.specs.Prelude.{◌≡◌, ◌≤◌};
ghost use Rattle.sheet.specs.Limits.{mileage_limit};
ghost use Rattle.factors.specs.Escape.{tenth_grams, driven_error};
ghost use Rattle.factors.specs.Units.{row_start, loss_error};
ghost use Rattle.breakthrough.specs.Loads.{KeptOf, LoadReady};

use bounds::exp::ONE;
use exact::Row;
use fields::classes::halves;
use starting_loads::loads::{Balance, Line, start};
use starting_loads::mileage::net;
use thresholds::Mileage;

// From this mileage on a canister is not empty.
const FIRST_KILOMETRES: u64 = 17;

// How far a loss can be above the computed one, in units of 2^-40 g: at a written load, and at one that is found.
const WRITTEN_ERROR: u64 = 93010;

const DRIVEN_ERROR: u64 = 192570;

// A row, and what its canister keeps of its load: the mileage alone says it, no season changes it. It is a number and no Option, and is 0 where
// nothing is kept: a `SheetRows` has it for 1,000 rows, for which Options would take 8,000 bytes of stack more, and of what c/stack.c allows a
// call fewer than 4,000 are left.
#[derive(Clone, Copy)]
pub struct LoadedRow {
    pub row: Row,
    pub kept: u64,
    ghost kept_of: { KeptOf row kept },
}

// Tenths of a gram in units of 2^-40 g, cut.
#[tactic(auto, unfolding(factors::specs::Escape::tenth_grams))]
pub fn tenth_grams(m: u64) -> u64
    requires { m ≤ 3685 }
    ensures { result ≡ tenth_grams m }
{
    m * ONE / 10
}

// How far the loss at parking start can be above the computed one.
pub fn loss_error(row: Row) -> u64
    ensures { (result ≡ loss_error row) × (result ≤ driven_error) }
{
    if FIRST_KILOMETRES <= row.mileage {
        DRIVEN_ERROR
    } else {
        WRITTEN_ERROR
    }
}

// What a row's canister keeps of its load; of no account up to 16 km and without canister.
pub fn kept_of(row: Row) -> u64
    requires { row.mileage ≤ mileage_limit }
    ensures { KeptOf row result }
{
    let canister = row.canister;
    let halves = halves(canister);
    if halves == 0 {
        return 0;
    }
    if row.mileage < FIRST_KILOMETRES {
        return 0;
    }
    let mileage = Mileage {
        kilometres: row.mileage,
    };
    net(mileage, halves)
}

// The load where a and 2 b s are these: found from the mileage, or written. (Up to 16 km both are 0.)
pub fn start_load(loaded: LoadedRow, line: Line) -> u64
    requires { LoadReady loaded.row line.base line.growth }
    ensures { result ≡ row_start loaded.row line.base line.growth }
{
    let row = loaded.row;
    if row.mileage < FIRST_KILOMETRES {
        return tenth_grams(row.load);
    }
    let saturation = tenth_grams(row.saturation);
    start(Balance { line, saturation }, loaded.kept)
}

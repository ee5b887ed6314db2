// Why a call is refused: the number of the first condition that applies, and the place that documents 01 and 02 return with it.
#![tactic(auto)]

ghost use Rattle.std.specs.Prelude.{◌≡◌};
ghost use Rattle.refusals.specs.Rule.{number};
ghost use Rattle.refusals.specs.Check.{refuse};

// The conditions of documents 01 and 02, each with its number there.
#[derive(Clone, Copy, Debug, PartialEq, Eq)]
pub enum Rule {
    // The input has fewer than 8 bytes.
    HeadShort = 1,
    // The input does not start with the letters EVP.
    Mark = 2,
    // The version.
    Version = 3,
    // The number of seasons.
    Seasons = 4,
    // The number of rows.
    Rows = 5,
    // The last byte of the head is not zero.
    HeadZero = 6,
    // The length of the input.
    Length = 7,
    // The sum of the counts of durations.
    Durations = 8,
    // The sum of the counts of end hours.
    Hours = 9,
    // The days of a season, or of the seasons up to it.
    Days = 10,
    // The temperatures of a season.
    Temperatures = 11,
    // The vapour pressure of a season.
    VapourPressure = 12,
    // The class and the technology of a row.
    Class = 13,
    // The canister code of a row.
    CanisterCode = 14,
    // A share or the fill level of a row.
    Percent = 15,
    // The vehicles of a row.
    Vehicles = 16,
    // The tank of a row.
    Tank = 17,
    // The trips of a row, or their minutes.
    Trips = 18,
    // The load of a row.
    Load = 19,
    // The exponent of a row's saturating load.
    Exponent = 20,
    // The last bytes of a row are not zero.
    RowZeros = 21,
    // There is too little room for what is asked.
    Room = 22,
    // There is no such season, row or factor.
    Absent = 23,
    // The sum of the counts of the grid.
    Grid = 24,
    // The mileage of a row.
    Mileage = 25,
    // The vehicles of all rows up to this one.
    Fleet = 26,
    // A cell, a mass of it or a sum.
    Cell = 27,
    // Where a row's vehicles drive.
    Travel = 28,
    // The row of a call on a ledger, or its count.
    Count = 29,
    // The right to a call on a shared ledger.
    Right = 30,
    // The owner of a row, or what an owner has.
    Share = 31,
    // The parking or the seasons of two sheets.
    Differ = 32,
}

impl Rule {
    // The number that documents 01 and 02 have for it.
    pub fn number(self) -> u64
        ensures { result ≡ number self }
    {
        self as u64
    }
}

// A refusal: the first condition that applies, and the place of what it is about.
#[derive(Clone, Copy, Debug, PartialEq, Eq)]
pub struct Refusal {
    pub rule: Rule,
    pub place: u64,
}

// A check passes, or says why what is checked is refused.
pub type Check = Result<(), Refusal>;

// A rule applies where its condition holds. The condition is an argument, so that a table of rules is a line for each, with `?`: an `if`
// for each would be no plainer.
#[tactic(auto, unfolding(crate::specs::Check::refuse))]
pub fn refuse(applies: bool, rule: Rule, place: u64) -> Check
    ensures { result ≡ refuse applies rule place }
{
    if applies {
        return Err(Refusal { rule, place });
    }
    Ok(())
}

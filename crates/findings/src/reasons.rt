// The reasons for which a line of the table is found: each belongs to a rule of documents 01 and 02, and is one of the reasons of its number.
ghost use Rattle.std.specs.Prelude.{◌≡◌};
ghost use Rattle.findings.specs.Reasons.{rule_of, nth_of};

use refusals::Rule;

#[derive(Clone, Copy, PartialEq, Eq, Debug)]
pub enum Reason {
    // Head and length.
    HeadShort,
    LetterE,
    LetterV,
    LetterP,
    Version,
    Seasons,
    Rows,
    HeadZero,
    Length,
    // Parking: the sum of the durations, of the hours and of the grid.
    Durations,
    Hours,
    Grid,
    // A season: its days, and the days of all seasons up to it.
    Days,
    DaysSoFar,
    Lowest,
    Highest,
    LowestAboveHighest,
    VapourPressure,
    // A row: its vehicles, and the vehicles of all rows up to it.
    Class,
    Technology,
    CanisterCode,
    Carburettor,
    Hot,
    Fill,
    Vehicles,
    Fleet,
    Tank,
    Trips,
    Minutes,
    // Load and saturating load.
    LoadAboveSaturation,
    LoadWithoutCanister,
    SaturationWithoutCanister,
    Exponent,
    // The last bytes of a row: zeros, or the mileage.
    RowZeros,
    Mileage,
    MileageWithoutCanister,
    LoadBesideMileage,
    ExponentBesideMileage,
}

#[tactic(auto, unfolding(crate::specs::Reasons::numbers_of))]
impl Reason {
    // The rule, whose number is the finding's.
    pub fn rule(self) -> Rule
        ensures { result ≡ rule_of self }
    {
        match self {
            Reason::HeadShort => Rule::HeadShort,
            Reason::LetterE | Reason::LetterV | Reason::LetterP => Rule::Mark,
            Reason::Version => Rule::Version,
            Reason::Seasons => Rule::Seasons,
            Reason::Rows => Rule::Rows,
            Reason::HeadZero => Rule::HeadZero,
            Reason::Length => Rule::Length,
            Reason::Durations => Rule::Durations,
            Reason::Hours => Rule::Hours,
            Reason::Grid => Rule::Grid,
            Reason::Days | Reason::DaysSoFar => Rule::Days,
            Reason::Lowest | Reason::Highest | Reason::LowestAboveHighest => Rule::Temperatures,
            Reason::VapourPressure => Rule::VapourPressure,
            Reason::Class | Reason::Technology => Rule::Class,
            Reason::CanisterCode => Rule::CanisterCode,
            Reason::Carburettor | Reason::Hot | Reason::Fill => Rule::Percent,
            Reason::Vehicles => Rule::Vehicles,
            Reason::Fleet => Rule::Fleet,
            Reason::Tank => Rule::Tank,
            Reason::Trips | Reason::Minutes => Rule::Trips,
            Reason::LoadAboveSaturation
            | Reason::LoadWithoutCanister
            | Reason::SaturationWithoutCanister => Rule::Load,
            Reason::Exponent => Rule::Exponent,
            Reason::RowZeros => Rule::RowZeros,
            Reason::Mileage
            | Reason::MileageWithoutCanister
            | Reason::LoadBesideMileage
            | Reason::ExponentBesideMileage => Rule::Mileage,
        }
    }

    // Which of the reasons of its rule it is, from 1.
    pub fn nth(self) -> u64
        ensures { result ≡ nth_of self }
    {
        match self {
            Reason::LetterV
            | Reason::DaysSoFar
            | Reason::Highest
            | Reason::Technology
            | Reason::Hot
            | Reason::Minutes
            | Reason::LoadWithoutCanister
            | Reason::MileageWithoutCanister => 2,
            Reason::LetterP
            | Reason::LowestAboveHighest
            | Reason::Fill
            | Reason::SaturationWithoutCanister
            | Reason::LoadBesideMileage => 3,
            Reason::ExponentBesideMileage => 4,
            _ => 1,
        }
    }
}

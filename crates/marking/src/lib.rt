// A filed mass marked against a band that is proved to hold the exact mass.
#![tactic(auto)]

ghost use Rattle.std.specs.Prelude.{◌≡◌, ◌*◌, ◌-◌, ◌^◌, ◌≤◌};
ghost use Rattle.marking.specs.Figure.{exponent};
ghost use Rattle.marking.specs.Verdicts.{compared, verdict};
ghost use Rattle.marking.specs.Meaning.{Marked};

// The unit that a mass is filed in.
#[derive(Clone, Copy, Debug, PartialEq, Eq)]
pub enum Unit {
    Milligram,
    Gram,
    Kilogram,
    Tonne,
}

// A filed figure: "2.834 t" has digits 2834, 3 places and the unit t.
#[derive(Clone, Copy)]
pub struct Filed {
    pub digits: u64,
    pub places: u64,
    pub unit: Unit,
}

// A band: the masses from low to high milligrams.
#[derive(Clone, Copy, Debug, PartialEq, Eq)]
pub struct Band {
    pub low: u64,
    pub high: u64,
}

// What a band says of a filed figure.
#[derive(Clone, Copy, Debug, PartialEq, Eq)]
pub enum Verdict {
    // Every mass of the band rounds to the figure, both ends of the rounding included.
    Agrees,
    // Some mass of the band rounds to the figure, and not all do: the band does not settle it.
    Fits,
    // The figure is too low: every mass of the band is above all that it stands for, by at least so many milligrams.
    Low(u64),
    // The figure is too high, by at least so many milligrams.
    High(u64),
    // A last place below 10^-6 mg, more than 18 digits, or 10^18 mg or more: not compared.
    Unreadable,
}

// How many places behind the milligram a figure may have, and the power of ten of milligrams that it stays below.
const PLACES_LIMIT: u64 = 6;

const POWER_LIMIT: u64 = 18;

// A unit as a power of ten of milligrams.
#[tactic(auto, unfolding(crate::specs::Figure::exponent))]
fn exponent_of(unit: Unit) -> u64
    ensures { (result ≡ exponent unit) × (result ≤ 9) }
{
    match unit {
        Unit::Milligram => 0,
        Unit::Gram => 3,
        Unit::Kilogram => 6,
        Unit::Tonne => 9,
    }
}

// A power of ten.
fn power_of_ten(k: u64) -> u64
    requires { k ≤ 18 }
    ensures { (result ≡ 10 ^ k) × (result ≤ 10 ^ 18) }
{
    10u64.pow(k as u32)
}

// The verdict on a figure from (middle - half) / scale to (middle + half) / scale milligrams.
fn compare(middle: u64, half: u64, scale: u64, band: Band) -> Verdict
    requires { (middle ≤ 2 * 10 ^ 18) × (half ≤ 10 ^ 18) × (1 ≤ scale) × (scale ≤ 2 * 10 ^ 18) }
    ensures { result ≡ compared middle half scale band.low band.high }
{
    let Band { low, high } = band;
    let least = middle.saturating_sub(half);
    let most = middle + half;
    let from = least.div_ceil(scale);
    let to = most / scale;
    if (from <= low) & (high <= to) {
        return Verdict::Agrees;
    }
    if to < low {
        return Verdict::Low(low.saturating_sub(most.div_ceil(scale)));
    }
    if high < from {
        return Verdict::High((least / scale).saturating_sub(high));
    }
    Verdict::Fits
}

// The mark of a filed figure against a band.
pub fn mark(filed: Filed, band: Band) -> Verdict
    ensures { (result ≡ verdict filed band.low band.high) × Marked filed band.low band.high result }
{
    let digits = filed.digits;
    let places = filed.places;
    let unit = filed.unit;
    let power = exponent_of(unit);
    if power + PLACES_LIMIT < places {
        return Verdict::Unreadable;
    }
    let above = power.saturating_sub(places);
    let below = places.saturating_sub(power);
    if power_of_ten(POWER_LIMIT - above) <= digits {
        return Verdict::Unreadable;
    }
    let spread = power_of_ten(above);
    compare(2 * (digits * spread), spread, 2 * power_of_ten(below), band)
}

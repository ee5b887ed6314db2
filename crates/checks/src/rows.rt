// Each row: numbers 13 to 21, 25 and 26.
ghost use Rattle.std.specs.Prelude.{not, ◌||◌, ◌&&◌, ◌≡◌, ◌+◌, ◌^◌, ◌<◌, ◌≤◌, ltb, eqb, length};
ghost use Rattle.sheet.specs.Limits.{vehicles_limit, fleet_limit, tank_limit, trips_limit, minutes_limit};
ghost use Rattle.sheet.specs.Integers.{u8_at, u16_at};
ghost use Rattle.sheet.specs.Versions.{has_mileage, has_many_rows};
ghost use Rattle.sheet.specs.Bytes.{seasons_of, rows_of, row_place, equipment_at};
ghost use Rattle.refusals.specs.Check.{refuse, ◌then◌, each};
ghost use Rattle.sheet.specs.Sheet.{is_absent, code_wrong, percent_wrong, load_wrong};
ghost use Rattle.sheet.specs.Sheet.{saturation_above, some_season, mileage_wrong, row_check};
ghost use Rattle.sheet.specs.RunningSums.{vehicles_before};

use crate::checked_row::CheckedRow;
use crate::exponent::Demand;
use crate::passed_seasons::PassedSeasons;
use exact::{Canister, Row};
use fields::classes::{BY_CLASS, LAST_CODE, no_canister};
use fields::limits::{
    FLEET_LIMIT, MILEAGE_LIMIT, MINUTES_LIMIT, PERCENT_LIMIT, TANK_LIMIT, TRIPS_LIMIT,
    VEHICLES_LIMIT,
};
use fields::{has_many_rows, has_mileage, row_at, row_place, rows_of, vehicles_of};
use refusals::{Check, Rule};

// A canister code that means nothing.
#[tactic(auto, unfolding(sheet::specs::Sheet::code_wrong))]
fn code_wrong(code: u64) -> bool
    ensures { result ≡ code_wrong code }
{
    !matches!(code, 0..=LAST_CODE | BY_CLASS)
}

// A share or fill level above 100 percent.
#[tactic(auto, unfolding(sheet::specs::Sheet::percent_wrong))]
fn percent_wrong(row: Row) -> bool
    ensures { result ≡ percent_wrong row }
{
    (PERCENT_LIMIT < row.carburettor) | (PERCENT_LIMIT < row.hot) | (PERCENT_LIMIT < row.fill)
}

// A load above the saturating load, or either of them with no canister. A load equal to it passes.
#[tactic(auto, unfolding(sheet::specs::Sheet::load_wrong))]
fn load_wrong(canister: Option<Canister>, load: u64, saturation: u64) -> bool
    ensures { result ≡ load_wrong canister load saturation }
{
    match canister {
        None => (0 < load) | (0 < saturation),
        Some(_) => saturation < load,
    }
}

#[tactic(auto, using(refusals::proofs::Chain::chained))]
impl CheckedRow<'_> {
    // A mileage above the limit, or one with no canister, beside a load, or where a + b·s·m_sat is above 0 in some season.
    #[tactic(auto, unfolding(sheet::specs::Sheet::mileage_wrong))]
    fn mileage_wrong(self) -> bool
        ensures { result ≡ mileage_wrong self.entry.seasons.sheet.now self.entry.row }
    {
        let row = self.row;
        let none = no_canister(row.canister);
        let above = Demand::beside_mileage(row.canister).is_above_in_some(
            row.saturation,
            self.seasons,
        );
        (MILEAGE_LIMIT < row.mileage) | ((1 <= row.mileage) & (none | (row.load != 0) | above))
    }

    // Numbers 13 to 15.
    fn class_check(self) -> Check
        ensures { let s = self.entry.seasons.sheet.now in let row = self.entry.row in let p = self.entry.start in
            result ≡ (
            refuse (is_absent (equipment_at s p)) Rule.Class p then
            refuse (code_wrong (u8_at s (p + 2))) Rule.CanisterCode p then
            refuse (percent_wrong row) Rule.Percent p) }
    {
        self.refuse(self.is_absent(), Rule::Class)?;
        self.refuse(code_wrong(self.bytes().code()), Rule::CanisterCode)?;
        self.refuse(percent_wrong(self.row), Rule::Percent)
    }

    // Numbers 16 and 26, after so many vehicles in the rows before.
    fn fleet_check(self, before: u64) -> Check
        ensures { let s = self.entry.seasons.sheet.now in let row = self.entry.row in let p = self.entry.start in
            result ≡ (
            refuse (ltb vehicles_limit row.vehicles) Rule.Vehicles p then
            refuse (has_many_rows s && ltb fleet_limit (before + row.vehicles)) Rule.Fleet p) }
    {
        let fleet = before.saturating_add(self.row.vehicles);
        let exceeded = has_many_rows(self.seasons.sheet) & (FLEET_LIMIT < fleet);
        self.refuse(VEHICLES_LIMIT < self.row.vehicles, Rule::Vehicles)?;
        self.refuse(exceeded, Rule::Fleet)
    }

    // Numbers 17 and 18.
    fn use_check(self) -> Check
        ensures { let s = self.entry.seasons.sheet.now in let row = self.entry.row in let p = self.entry.start in
            result ≡ (
            refuse (ltb tank_limit (u16_at s (p + 6))) Rule.Tank p then
            refuse (ltb trips_limit row.trips || ltb minutes_limit row.minutes) Rule.Trips p) }
    {
        let driving = (TRIPS_LIMIT < self.row.trips) | (MINUTES_LIMIT < self.row.minutes);
        self.refuse(TANK_LIMIT < self.bytes().written_tank(), Rule::Tank)?;
        self.refuse(driving, Rule::Trips)
    }

    // Numbers 19 and 20.
    fn load_check(self) -> Check
        ensures { let s = self.entry.seasons.sheet.now in let row = self.entry.row in let p = self.entry.start in
            result ≡ (
            refuse (load_wrong row.canister row.load row.saturation) Rule.Load p then
            refuse (some_season (saturation_above 3 row.canister row.saturation) s (seasons_of s)) Rule.Exponent p) }
    {
        let row = self.row;
        self.refuse(
            load_wrong(row.canister, row.load, row.saturation),
            Rule::Load,
        )?;
        self.refuse(
            Demand::beside_load(row.canister).is_above_in_some(row.saturation, self.seasons),
            Rule::Exponent,
        )
    }

    // Number 21, or 25 in its place.
    fn mileage_check(self) -> Check
        ensures { let s = self.entry.seasons.sheet.now in let row = self.entry.row in let p = self.entry.start in
            result ≡ (
            refuse (not (has_mileage s) && not (eqb row.mileage 0)) Rule.RowZeros p then
            refuse (has_mileage s && mileage_wrong s row) Rule.Mileage p) }
    {
        if has_mileage(self.seasons.sheet) {
            return self.refuse(self.mileage_wrong(), Rule::Mileage);
        }
        self.refuse(self.row.mileage != 0, Rule::RowZeros)
    }
}

// Row i, after so many vehicles in the rows before. Its bytes are asked for, since a type that has them would be made from these same bounds
// for one call: that all rows are there is known, but the sheet is not accepted yet.
#[tactic(auto, using(refusals::proofs::Chain::chained, sheet::proofs::Stages::row_stages))]
fn row_check(seasons: PassedSeasons, i: usize, before: u64) -> Check
    requires { (row_place seasons.sheet.now i + 24 ≤ length seasons.sheet.now) × (before ≡ vehicles_before seasons.sheet.now i) }
    ensures { result ≡ row_check seasons.entry.sheet.now i }
{
    let row = CheckedRow {
        seasons,
        start: row_place(seasons.sheet, i),
        row: row_at(seasons.sheet, i),
    };
    row.class_check()?;
    row.fleet_check(before)?;
    row.use_check()?;
    row.load_check()?;
    row.mileage_check()
}

// The rows one after another, with the vehicles before each. An iterator with that sum would be written for this loop alone.
#[tactic(auto, using(refusals::proofs::Chain::chained, crate::proofs::OneMore::rows_on, sheet::proofs::Versions::start_between))]
pub fn rows_check(seasons: PassedSeasons) -> Check
    requires { row_place seasons.sheet.now (rows_of seasons.sheet.now) ≤ length seasons.sheet.now }
    ensures { result ≡ each (row_check seasons.entry.sheet.now) (rows_of seasons.entry.sheet.now) }
{
    let mut before: u64 = 0;
    for i in 0..rows_of(seasons.sheet) {
        row_check(seasons, i, before)?;
        before += vehicles_of(seasons.sheet, i);
    }
    Ok(())
}

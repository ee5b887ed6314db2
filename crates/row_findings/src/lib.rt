// Each row: numbers 13 to 21, 25 and 26.
#![tactic(auto)]

ghost use Rattle.std.specs.Prelude.{◌≡◌, ◌+◌, ◌^◌, ◌<◌, ◌≤◌, length};
ghost use Rattle.sheet.specs.Integers.{u8_at, u16_at};
ghost use Rattle.sheet.specs.Bytes.{rows_of, row_place, row_at};
ghost use Rattle.sheet.specs.Sheet.{no_canister};
ghost use Rattle.sheet.specs.RunningSums.{vehicles_before};
ghost use Rattle.findings.specs.Lines.{site, field, limits, always, line, each_finding};
ghost use Rattle.findings.specs.Table.{last_technology, class_finding, percent_finding, fleet_finding, use_finding, load_finding};
ghost use Rattle.findings.specs.Table.{saturated_site, largest, saturation_finding, driven_finding, mileage_finding, row_finding};

use checks::exponent::Demand;
use checks::passed_seasons::PassedSeasons;
use exact::Row;
use fields::classes::{BY_CLASS, LAST_CODE, no_canister};
use fields::limits::{
    FLEET_LIMIT, MILEAGE_LIMIT, MINUTES_LIMIT, PERCENT_LIMIT, TANK_LIMIT, TRIPS_LIMIT,
    VEHICLES_LIMIT,
};
use fields::{has_many_rows, has_mileage, row_at, row_place, rows_of, u8_at, u16_at, vehicles_of};
use finding_lines::{Record, judge};
use findings::reasons::Reason;
use findings::spans::{
    CANISTER_CODE, CARBURETTOR, CLASS, FILL, HOT, LOAD, MILEAGE, MINUTES, SATURATION, TANK,
    TECHNOLOGY, TRIPS, VEHICLES,
};
use findings::{Judged, Limits};
use largest_loads::excess_of;
use std::ops::Range;

// The classes of the table.
const CLASSES: u64 = 9;

// The last technology of a class. The class is any byte here, since the line of the class stands beside it.
#[tactic(auto, unfolding(findings::specs::Table::last_technology, findings::specs::Canisters::picked))]
fn last_technology(class: u64) -> u64
    ensures { result ≡ last_technology class }
{
    match class {
        0..=4 => 5,
        5..=8 => 3,
        _ => 2,
    }
}

// A row in its sheet: where it starts, which it is, what it says, and the vehicles of the rows before.
#[derive(Clone, Copy)]
struct RowAt<'a> {
    seasons: PassedSeasons<'a>,
    at: Record,
    row: Row,
    before: u64,
    ghost inside: { at.place + 24 ≤ length seasons.sheet.now },
    ghost placed: { at.place ≡ row_place seasons.sheet.now at.index },
    ghost says: { row ≡ row_at seasons.sheet.now at.index },
    ghost saturation_fits: { row.saturation < 65536 },
    ghost vehicles_fit: { row.vehicles < 2 ^ 32 },
    ghost counted: { before ≡ vehicles_before seasons.sheet.now at.index },
    ghost before_fits: { before < 2 ^ 62 },
}

impl<'a> RowAt<'a> {
    // Row i. The row's bytes are asked for, since the sheet is not accepted yet.
    fn of(seasons: PassedSeasons<'a>, i: usize, before: u64) -> RowAt<'a>
        requires there { row_place seasons.sheet.now i + 24 ≤ length seasons.sheet.now }
        requires counted { before ≡ vehicles_before seasons.sheet.now i }
        requires before_fits { before < 2 ^ 62 }
        ensures sheet { result.seasons.sheet.now ≡ seasons.entry.sheet.now }
        ensures index { result.at.index ≡ i }
    {
        let s = seasons.sheet;
        RowAt {
            seasons,
            at: Record {
                place: row_place(s, i) as u64,
                index: i as u64,
            },
            row: row_at(s, i),
            before,
        }
    }

    // The number in one of its bytes, and in two: one function for each width, as fields has them. `RowBytes` of that crate can't stand
    // for both, since it gives no class and no technology as they are written.
    fn u8_at(self, bytes: Range<u16>) -> u64
        requires { bytes.start < 24 }
        ensures { result ≡ u8_at self.entry.seasons.sheet.now (self.entry.at.place + bytes.start) }
    {
        u8_at(
            self.seasons.sheet,
            self.at.place as usize + usize::from(bytes.start),
        )
    }

    fn u16_at(self, bytes: Range<u16>) -> u64
        requires { bytes.start < 23 }
        ensures { result ≡ u16_at self.entry.seasons.sheet.now (self.entry.at.place + bytes.start) }
    {
        u16_at(
            self.seasons.sheet,
            self.at.place as usize + usize::from(bytes.start),
        )
    }

    // Numbers 13 and 14.
    #[tactic(auto, using(findings::proofs::Steps::in_order), unfolding(findings::specs::Table::class_finding))]
    fn class_finding(self) -> Judged
        ensures { result ≡ class_finding self.entry.seasons.sheet.now self.entry.at.index self.entry.at.place self.entry.row }
    {
        let (at, class, technology) = (self.at, self.u8_at(CLASS), self.u8_at(TECHNOLOGY));
        let (code, last) = (self.u8_at(CANISTER_CODE), last_technology(class));
        at.judge(Reason::Class, CLASS, class, Limits::between(1, CLASSES))?;
        at.at_most(Reason::Technology, TECHNOLOGY, technology, last)?;
        if code == BY_CLASS {
            return Ok(());
        }
        at.at_most(Reason::CanisterCode, CANISTER_CODE, code, LAST_CODE)
    }

    // Number 15.
    #[tactic(auto, using(findings::proofs::Steps::in_order), unfolding(findings::specs::Table::percent_finding))]
    fn percent_finding(self) -> Judged
        ensures { result ≡ percent_finding self.entry.seasons.sheet.now self.entry.at.index self.entry.at.place self.entry.row }
    {
        let (at, row) = (self.at, self.row);
        let (carburettor, most) = (row.carburettor, PERCENT_LIMIT);
        at.at_most(Reason::Carburettor, CARBURETTOR, carburettor, most)?;
        at.at_most(Reason::Hot, HOT, row.hot, most)?;
        at.at_most(Reason::Fill, FILL, row.fill, most)
    }

    // Numbers 16 and 26.
    #[tactic(auto, using(findings::proofs::Steps::in_order), unfolding(findings::specs::Table::fleet_finding))]
    fn fleet_finding(self) -> Judged
        ensures { result ≡ fleet_finding self.entry.seasons.sheet.now self.entry.at.index self.entry.at.place self.entry.row self.entry.before }
    {
        let (at, own) = (self.at, self.row.vehicles);
        at.at_most(Reason::Vehicles, VEHICLES, own, VEHICLES_LIMIT)?;
        if !has_many_rows(self.seasons.sheet) {
            return Ok(());
        }
        at.at_most(Reason::Fleet, VEHICLES, self.before + own, FLEET_LIMIT)
    }

    // Numbers 17 and 18.
    #[tactic(auto, using(findings::proofs::Steps::in_order), unfolding(findings::specs::Table::use_finding))]
    fn use_finding(self) -> Judged
        ensures { result ≡ use_finding self.entry.seasons.sheet.now self.entry.at.index self.entry.at.place self.entry.row }
    {
        let (at, row) = (self.at, self.row);
        at.at_most(Reason::Tank, TANK, self.u16_at(TANK), TANK_LIMIT)?;
        at.at_most(Reason::Trips, TRIPS, row.trips, TRIPS_LIMIT)?;
        at.at_most(Reason::Minutes, MINUTES, row.minutes, MINUTES_LIMIT)
    }

    // Number 19.
    #[tactic(auto, using(findings::proofs::Steps::in_order), unfolding(findings::specs::Table::load_finding))]
    fn load_finding(self) -> Judged
        ensures { result ≡ load_finding self.entry.seasons.sheet.now self.entry.at.index self.entry.at.place self.entry.row }
    {
        let (at, load, m_sat) = (self.at, self.row.load, self.row.saturation);
        if !no_canister(self.row.canister) {
            return at.at_most(Reason::LoadAboveSaturation, LOAD, load, m_sat);
        }
        at.at_most(Reason::LoadWithoutCanister, LOAD, load, 0)?;
        at.at_most(Reason::SaturationWithoutCanister, SATURATION, m_sat, 0)
    }

    // The saturating load is too high: the first season, and the largest that passes in all.
    #[tactic(auto, using(findings::proofs::Steps::in_order), unfolding(findings::specs::Table::saturated_site, findings::specs::Table::largest))]
    fn saturated(self, demand: Demand, reason: Reason) -> Judged
        requires { demand.canister ≡ self.row.canister }
        ensures { let s = self.entry.seasons.sheet.now in let i = self.entry.at.index in let p = self.entry.at.place in let row = self.entry.row in
            result ≡ line always (saturated_site s i p row demand.limit) reason (field (p + 18) 2 row.saturation)
            (limits 0 (largest s i p row demand.limit)) }
    {
        let saturation = self.row.saturation;
        let Some(excess) = excess_of(demand, saturation, self.seasons) else {
            return Ok(());
        };
        judge(
            self.at.site(excess.season),
            reason,
            self.at.field(SATURATION, saturation),
            Limits::up_to(excess.most),
        )
    }

    // Number 20.
    #[tactic(auto, unfolding(findings::specs::Table::saturation_finding))]
    fn saturation_finding(self) -> Judged
        ensures { result ≡ saturation_finding self.entry.seasons.sheet.now self.entry.at.index self.entry.at.place self.entry.row }
    {
        self.saturated(Demand::beside_load(self.row.canister), Reason::Exponent)
    }

    // The last two reasons of number 25.
    #[tactic(auto, using(findings::proofs::Steps::in_order), unfolding(findings::specs::Table::driven_finding))]
    fn driven_finding(self) -> Judged
        ensures { result ≡ driven_finding self.entry.seasons.sheet.now self.entry.at.index self.entry.at.place self.entry.row }
    {
        let (at, row) = (self.at, self.row);
        let driven = has_mileage(self.seasons.sheet) & (1 <= row.mileage);
        if !driven {
            return Ok(());
        }
        at.at_most(Reason::LoadBesideMileage, LOAD, row.load, 0)?;
        self.saturated(
            Demand::beside_mileage(row.canister),
            Reason::ExponentBesideMileage,
        )
    }

    // The second reason of number 25, of a sheet whose rows have a mileage.
    #[tactic(auto, using(findings::proofs::Steps::in_order))]
    fn fitted_finding(self) -> Judged
        ensures { let p = self.entry.at.place in let row = self.entry.row in
            result ≡ line (no_canister row.canister) (site p self.entry.at.index 0) Reason.MileageWithoutCanister
            (field (p + 20) 4 row.mileage) (limits 0 0) }
    {
        let (at, mileage) = (self.at, self.row.mileage);
        if !no_canister(self.row.canister) {
            return Ok(());
        }
        at.at_most(Reason::MileageWithoutCanister, MILEAGE, mileage, 0)
    }

    // Number 21, or 25 in its place.
    #[tactic(auto, using(findings::proofs::Steps::in_order), unfolding(findings::specs::Table::mileage_finding))]
    fn mileage_finding(self) -> Judged
        ensures { result ≡ mileage_finding self.entry.seasons.sheet.now self.entry.at.index self.entry.at.place self.entry.row }
    {
        let (at, mileage) = (self.at, self.row.mileage);
        if !has_mileage(self.seasons.sheet) {
            return at.at_most(Reason::RowZeros, MILEAGE, mileage, 0);
        }
        at.at_most(Reason::Mileage, MILEAGE, mileage, MILEAGE_LIMIT)?;
        self.fitted_finding()?;
        self.driven_finding()
    }

    // All of them.
    #[tactic(auto, using(findings::proofs::Steps::in_order), unfolding(findings::specs::Table::row_finding))]
    fn finding(self) -> Judged
        ensures { result ≡ row_finding self.entry.seasons.sheet.now self.entry.at.index }
    {
        self.class_finding()?;
        self.percent_finding()?;
        self.fleet_finding()?;
        self.use_finding()?;
        self.load_finding()?;
        self.saturation_finding()?;
        self.mileage_finding()
    }
}

// The first finding of the rows. An iterator over the rows with the vehicles before each would be a type for this loop alone, and no plainer.
#[tactic(auto, using(findings::proofs::Steps::in_order))]
pub fn rows_finding(seasons: PassedSeasons) -> Judged
    requires { row_place seasons.sheet.now (rows_of seasons.sheet.now) ≤ length seasons.sheet.now }
    ensures { result ≡ each_finding (row_finding seasons.entry.sheet.now) (rows_of seasons.entry.sheet.now) }
{
    let mut before: u64 = 0;
    for i in 0..rows_of(seasons.sheet) {
        RowAt::of(seasons, i, before).finding()?;
        before += vehicles_of(seasons.sheet, i);
    }
    Ok(())
}

// What passes to and from a program in another language: structs of numbers and doubles, as include/evaporation.h has them, and how they are
// made of the answers in Rattle. What they say is defined in specs/; the calls are in the crates boundary_calls and evaporation.
#![tactic(auto)]

use map_shares::{Mileages, Speeds};

mod answers;
mod cells;
pub mod filed;
mod shared;
mod species;

// A refusal's number and place; number 0 where the sheet is accepted.
#[repr(C)]
#[derive(Clone, Copy)]
pub struct EvpCheck {
    pub number: u64,
    pub place: u64,
}

// The same, with the low and the high in micrograms where the sheet is accepted.
#[repr(C)]
#[derive(Clone, Copy)]
pub struct EvpFactor {
    pub number: u64,
    pub place: u64,
    pub low: u64,
    pub high: u64,
}

// The same, with the low and the high of factors 1 to 7 in micrograms; zeros where the sheet is refused.
#[repr(C)]
#[derive(Clone, Copy)]
pub struct EvpRowFactors {
    pub number: u64,
    pub place: u64,
    pub bands: [u64; 14],
}

// Number and place are those of the report, number 0 where the text is one; and how many bytes the text has.
#[repr(C)]
#[derive(Clone, Copy)]
pub struct EvpText {
    pub number: u64,
    pub place: u64,
    pub bytes: u64,
}

// The species of a sheet's high total, in milligrams; zeros where it is refused.
#[repr(C)]
#[derive(Clone, Copy)]
pub struct EvpComposition {
    pub number: u64,
    pub place: u64,
    pub total: u64,
    pub milligrams: [u64; 29],
}

// A refusal's number and place, and which sheet it is of: 1 the first, 2 the second, 3 the two together. All 0 where the pool is accepted,
// and then how many bytes are written.
#[repr(C)]
#[derive(Clone, Copy)]
pub struct EvpPool {
    pub number: u64,
    pub place: u64,
    pub sheet: u64,
    pub bytes: u64,
}

// A refusal's number and place; number 0, and the row's count and six words, where it is read.
#[repr(C)]
#[derive(Clone, Copy)]
pub struct EvpRow {
    pub number: u64,
    pub place: u64,
    pub count: u64,
    pub words: [u64; 6],
}

// The same, with the 26 words after the rows.
#[repr(C)]
#[derive(Clone, Copy)]
pub struct EvpTotals {
    pub number: u64,
    pub place: u64,
    pub words: [u64; 26],
}

// Whether a row's owners live in town, 0 not and 1 in town, and where its vehicles drive.
#[repr(C)]
#[derive(Clone, Copy)]
pub struct EvpTravel {
    pub town: u64,
    pub mileage: Mileages,
    pub speed: Speeds,
}

// A cell: kind 0 is empty, 1 one mass in both doubles, 2 a low and a high mass. Kind 3 is no cell.
#[repr(C)]
#[derive(Clone, Copy)]
pub struct EvpCell {
    pub kind: u64,
    pub low: f64,
    pub high: f64,
}

// A refusal's number and place, and no cells; number 0 where the cells are given.
#[repr(C)]
#[derive(Clone, Copy)]
pub struct EvpRowCells {
    pub number: u64,
    pub place: u64,
    pub urban: EvpCell,
    pub rural: EvpCell,
    pub highway: EvpCell,
}

// The same for a sum.
#[repr(C)]
#[derive(Clone, Copy)]
pub struct EvpCellSum {
    pub number: u64,
    pub place: u64,
    pub cell: EvpCell,
}

// A filed figure: its digits, how many of them stand behind the point, and its unit, 0 mg, 1 g, 2 kg, 3 t.
#[repr(C)]
#[derive(Clone, Copy)]
pub struct EvpFiled {
    pub digits: u64,
    pub places: u64,
    pub unit: u64,
}

// 0 agrees, 1 fits, 2 low, 3 high, 4 unreadable; and by how many milligrams at least the figure is too low or too high, else 0.
#[repr(C)]
#[derive(Clone, Copy)]
pub struct EvpVerdict {
    pub verdict: u64,
    pub off: u64,
}

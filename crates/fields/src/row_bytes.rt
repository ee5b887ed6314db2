// The bytes of a row, and what they stand for.
ghost use Rattle.std.specs.Prelude.{◌≡◌, ◌+◌, ◌^◌, ◌<◌, ◌≤◌, length};
ghost use Rattle.sheet.specs.Integers.{u8_at, u16_at};
ghost use Rattle.sheet.specs.Bytes.{equipment_at, canister_of, tank_of, row_from};

use crate::classes::{canister_of, equipment_of, tank_of};
use crate::{u8_at, u16_at, u32_at};
use exact::{Canister, Fitted, Row};

// The 24 bytes of a row, by the place in the sheet where they start.
#[derive(Clone, Copy)]
pub struct RowBytes<'a> {
    pub sheet: &'a [u8],
    pub start: usize,
    pub ghost there: { start + 24 ≤ length sheet.now },
}

impl RowBytes<'_> {
    // What the class and technology are fitted with, if they are in the table.
    #[tactic(auto, unfolding(sheet::specs::Bytes::equipment_at))]
    pub fn equipment(self) -> Option<Fitted>
        ensures { result ≡ equipment_at self.entry.sheet.now self.entry.start }
    {
        equipment_of(
            u8_at(self.sheet, self.start),
            u8_at(self.sheet, self.start + 1),
        )
    }

    // The canister code, as it is written.
    pub fn code(self) -> u64
        ensures { result ≡ u8_at self.entry.sheet.now (self.entry.start + 2) }
    {
        u8_at(self.sheet, self.start + 2)
    }

    // The tank in tenths of a litre, as it is written.
    pub fn written_tank(self) -> u64
        ensures { result ≡ u16_at self.entry.sheet.now (self.entry.start + 6) }
    {
        u16_at(self.sheet, self.start + 6)
    }

    // The canister that counts.
    fn canister(self) -> Option<Canister>
        ensures { result ≡ canister_of (u8_at self.entry.sheet.now (self.entry.start + 2)) (equipment_at self.entry.sheet.now self.entry.start) }
    {
        canister_of(self.code(), self.equipment())
    }

    // The tank that counts.
    fn tank(self) -> u64
        ensures { result ≡ tank_of (u16_at self.entry.sheet.now (self.entry.start + 6)) (equipment_at self.entry.sheet.now self.entry.start) }
    {
        tank_of(self.written_tank(), self.equipment())
    }

    // The row that the bytes are.
    #[tactic(auto, unfolding(sheet::specs::Bytes::row_from))]
    pub fn row(self) -> Row
        ensures { (result ≡ row_from self.entry.sheet.now self.entry.start) × (result.saturation < 65536) × (result.vehicles < 2 ^ 32) }
    {
        let (s, p) = (self.sheet, self.start);
        Row {
            class: u8_at(s, p),
            canister: self.canister(),
            carburettor: u8_at(s, p + 3),
            hot: u8_at(s, p + 4),
            fill: u8_at(s, p + 5),
            tank: self.tank(),
            vehicles: u32_at(s, p + 8),
            trips: u16_at(s, p + 12),
            minutes: u16_at(s, p + 14),
            load: u16_at(s, p + 16),
            saturation: u16_at(s, p + 18),
            mileage: u32_at(s, p + 20),
        }
    }
}

// A row that is checked, with the sheet and the place that its checks ask for.
ghost use Rattle.std.specs.Prelude.{◌≡◌, ◌+◌, ◌<◌, ◌≤◌, length};
ghost use Rattle.refusals.specs.Check.{refuse};
ghost use Rattle.sheet.specs.Bytes.{equipment_at};
ghost use Rattle.sheet.specs.Sheet.{is_absent};

use crate::passed_seasons::PassedSeasons;
use exact::Row;
use fields::row_bytes::RowBytes;
use refusals::{Check, Rule, refuse};

// A row, its place, and its sheet, whose seasons have passed their checks.
#[derive(Clone, Copy)]
pub struct CheckedRow<'a> {
    pub seasons: PassedSeasons<'a>,
    pub start: usize,
    pub row: Row,
    pub ghost there: { start + 24 ≤ length seasons.sheet.now },
}

impl<'a> CheckedRow<'a> {
    // Its bytes.
    pub fn bytes(self) -> RowBytes<'a>
        ensures { (result.sheet.now ≡ self.entry.seasons.sheet.now) × (result.start ≡ self.entry.start) }
    {
        RowBytes {
            sheet: self.seasons.sheet,
            start: self.start,
        }
    }

    // Its class and technology are not in the table.
    pub fn is_absent(self) -> bool
        ensures { result ≡ is_absent (equipment_at self.entry.seasons.sheet.now self.entry.start) }
    {
        self.bytes().equipment().is_none()
    }

    // A rule applies to the row where its condition holds, and is returned with the row's place.
    pub fn refuse(self, applies: bool, rule: Rule) -> Check
        ensures { result ≡ refuse applies rule self.entry.start }
    {
        refuse(applies, rule, self.start as u64)
    }
}

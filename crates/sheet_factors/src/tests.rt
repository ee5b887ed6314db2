// The factors of a row from a list that is ready and has an entry that counts nothing.
ghost use Rattle.std.specs.Prelude.{ℕ, List, ◌<◌};
ghost use Rattle.parking.specs.SeasonList.{ListReady};

use crate::factors_at::units_with;
use crate::grid_sheet::GridSheet;
use checks::accepted::Accepted;
use parking::season_list::{Entry, Kind, SeasonList};
use row_factors::rows::SeasonRows;
use std::test::Fail;

// A season of 30 days whose parkings rise, and a row of class 8 with a small canister
const SEASON: [u8; 8] = [30, 0, 10, 0, 60, 0, 38, 2];

const ROW: [u8; 24] = [
    8, 3, 1, 7, 7, 7, 0, 0, 87, 195, 0, 0, 1, 1, 12, 0, 100, 0, 150, 0, 0, 0, 0, 0,
];

// The sheet of them, of version 1, in which each duration and each hour counts once.
fn sheet_bytes() -> [u8; 136] {
    let mut bytes = [0u8; 136];
    bytes[..8].copy_from_slice(&[69, 86, 80, 1, 0, 1, 1, 0]);
    for k in 0..48 {
        bytes[8 + 2 * k] = 1;
    }
    bytes[104..112].copy_from_slice(&SEASON);
    bytes[112..].copy_from_slice(&ROW);
    bytes
}

// A list with one entry more, which counts nothing.
fn longer(list: SeasonList) -> SeasonList
    requires { list.length < 576 }
    ensures { (cells rises : List ℕ) → ListReady cells rises list → ListReady cells rises result }
{
    let mut entries = list.entries;
    entries[list.length] = Entry {
        kind: Kind { start: 0, rise: 0 },
        count: 0,
    };
    SeasonList {
        entries,
        length: list.length + 1,
    }
}

#[test]
fn an_entry_may_count_nothing(rt: HostRuntime) -> Result<(), Fail> {
    let bytes = sheet_bytes();
    let accepted = Accepted::of(&bytes).ok().ok_or("the sheet is refused")?;
    assert_eq!(rt; accepted.seasons(), 1);
    assert_eq!(rt; accepted.rows(), 1);
    let sheet = GridSheet::new(accepted);
    let row = sheet.row(0);
    let season = sheet.season(0);
    let list = SeasonList::new(&sheet.grid, &season.rises);
    assert_eq!(rt; list.length, 288);
    let list = longer(list);
    let rows = SeasonRows {
        grid: &sheet.grid,
        list: &list,
        marks: season.at.marks,
        at: &season.at,
    };
    assert_eq!(rt;
        rows.units(row).factors,
        units_with(&sheet, 0, 0, row).factors
    );
    Ok(())
}

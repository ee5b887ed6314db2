// The cells of the map as numbers and doubles; and what is handed in, as the calls in Rattle take it.
ghost use Rattle.std.specs.Prelude.{◌≡◌};
ghost use Rattle.map_cells.specs.Sums.{cell_refusal};
ghost use Rattle.map_cells.specs.Taken.{Taken};
ghost use Rattle.map_rows.specs.Rows.{travel_refusal};
ghost use Rattle.boundary.specs.Cells.{cell_numbers, no_cell, row_numbers, sum_numbers, cell_handed, travel_handed};

use crate::answers::told;
use crate::{EvpCell, EvpCellSum, EvpCheck, EvpRowCells, EvpTravel};
use map_cells::{Cell, cell_refusal};
use map_rows::RowCells;
use map_shares::Travel;
use refusals::{Refusal, Rule, refuse};

impl From<Cell> for EvpCell {
    ghost from_gives = { λ c r. r ≡ cell_numbers c };

    fn from(c: Cell) -> EvpCell {
        match c {
            Cell::Empty => EvpCell {
                kind: 0,
                low: 0.0,
                high: 0.0,
            },
            Cell::Exact(m) => EvpCell {
                kind: 1,
                low: m,
                high: m,
            },
            Cell::Band(low, high) => EvpCell { kind: 2, low, high },
        }
    }
}

// What stands for a cell where there is none.
impl Default for EvpCell {
    ghost is_default = { λ c. c ≡ no_cell };

    #[tactic(auto, unfolding(crate::specs::Cells::no_cell))]
    fn default() -> EvpCell {
        EvpCell {
            kind: 3,
            low: 0.0,
            high: 0.0,
        }
    }
}

// Both cases stand whole: `map_or`, as in the sum below, would be written three times with the same default, once for each cell.
impl From<Result<RowCells, Refusal>> for EvpRowCells {
    ghost from_gives = { λ a r. r ≡ row_numbers a };

    fn from(a: Result<RowCells, Refusal>) -> EvpRowCells {
        match a {
            Ok(v) => EvpRowCells {
                number: 0,
                place: 0,
                urban: EvpCell::from(v.urban),
                rural: EvpCell::from(v.rural),
                highway: EvpCell::from(v.highway),
            },
            Err(refusal) => EvpRowCells {
                number: refusal.rule.number(),
                place: refusal.place,
                urban: EvpCell::default(),
                rural: EvpCell::default(),
                highway: EvpCell::default(),
            },
        }
    }
}

impl From<Result<Cell, Refusal>> for EvpCellSum {
    ghost from_gives = { λ a r. r ≡ sum_numbers a };

    fn from(a: Result<Cell, Refusal>) -> EvpCellSum {
        let EvpCheck { number, place } = told(&a);
        EvpCellSum {
            number,
            place,
            cell: a.map_or(EvpCell::default(), EvpCell::from),
        }
    }
}

// A cell handed in, where its kind and doubles make one. One mass stands in both doubles.
impl TryFrom<EvpCell> for Cell {
    type Error = Refusal;

    ghost try_from_gives = { λ c r. Taken (λ x. x) cell_refusal (cell_handed c) r };

    #[tactic(auto, unfolding(crate::specs::Cells::cell_handed))]
    fn try_from(c: EvpCell) -> Result<Cell, Refusal> {
        match c.kind {
            0 => Ok(Cell::Empty),
            1 => {
                refuse(c.low != c.high, Rule::Cell, 0)?;
                Ok(Cell::Exact(c.low))
            }
            2 => Ok(Cell::Band(c.low, c.high)),
            _ => Err(cell_refusal()),
        }
    }
}

// Where a row's vehicles drive, where the first number is 0 or 1.
impl TryFrom<EvpTravel> for Travel {
    type Error = Refusal;

    ghost try_from_gives = { λ t r. Taken (λ x. x) travel_refusal (travel_handed t) r };

    fn try_from(t: EvpTravel) -> Result<Travel, Refusal> {
        refuse(1 < t.town, Rule::Travel, 0)?;
        Ok(Travel {
            town: t.town == 1,
            mileage: t.mileage,
            speed: t.speed,
        })
    }
}

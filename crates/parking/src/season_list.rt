// The parkings that breathe, as a list made once a season: cells that start at one temperature and have one rise are one entry, and cells
// without rise or with a count of 0 are none.
ghost use Rattle.std.specs.Prelude.{◌<◌};
ghost use Rattle.parking.specs.SeasonList.{IsPlace, IsOnlyPlace, ListBreathes};

use crate::cells::{Moment, mark_of};
use crate::grid::Grid;
use bounds::hours::apart;

// What the cells of an entry have in common: how far from 14:00 their parkings start, in half-hours, and their rise.
#[derive(Clone, Copy, PartialEq, Eq)]
pub struct Kind {
    pub start: usize,
    pub rise: u64,
}

// Cells of one kind, and how much they count together.
#[derive(Clone, Copy)]
pub struct Entry {
    pub kind: Kind,
    pub count: u64,
}

// The entries of a season, of which the first `length` count. An array with room for every cell: nothing here takes from the heap, and std, the
// one library that the crates use, has no vector of fixed room.
#[derive(Clone, Copy)]
pub struct SeasonList {
    pub entries: [Entry; 576],
    pub length: usize,
}

// No cell.
const NONE: Entry = Entry {
    kind: Kind { start: 0, rise: 0 },
    count: 0,
};

// Where a cell of a kind is counted: at the entry that is looked at, if it is of that kind, or at a new one. The sums need a place of the kind
// alone; that it is the only one says that cells of one kind share the entry that is looked at.
fn place_of(entries: &[Entry; 576], kind: Kind, entry: usize, length: usize) -> usize
    requires { (entry < 576) × (length < 576) }
    ensures at { IsPlace entries.now kind entry length result }
    ensures only { IsOnlyPlace entries.now kind entry length result }
    ensures below { result < 576 }
{
    if entries[entry].kind == kind {
        entry
    } else {
        length
    }
}

impl SeasonList {
    // A list without an entry, for where none is read.
    pub const EMPTY: SeasonList = SeasonList {
        entries: [NONE; 576],
        length: 0,
    };

    // The list of a season, from the grid and the rises of its parkings. `last` says where to look for an entry; nothing has to be known of it.
    // Not inlined, so that its arrays take stack only while it runs.
    #[inline(never)]
    pub fn new(grid: &Grid, rises: &[u64; 576]) -> SeasonList
        ensures { ListBreathes grid.now.cells.counts rises.now result }
    {
        let mut entries = [NONE; 576];
        let mut last = [0usize; 48];
        let mut length: usize = 0;
        for (cell, &rise) in rises.iter().enumerate() {
            let count = grid.cells.counts[cell];
            if rise == 0 || count == 0 {
                continue;
            }
            let mark = mark_of(cell, Moment::Start);
            let kind = Kind {
                start: apart(mark),
                rise,
            };
            let place = place_of(&entries, kind, last[mark], length);
            let sum = entries[place].count + count;
            entries[place] = Entry { kind, count: sum };
            last[mark] = place;
            length = length.max(place + 1);
        }
        SeasonList { entries, length }
    }
}

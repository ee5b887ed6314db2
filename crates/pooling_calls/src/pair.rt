// Two sheets that each pass: what refuses the two together, how long their pool is, and the pooled sheet itself. It is not made for its checks: where
// both sheets pass and agree, the number of its rows and of its vehicles are all that can refuse it, as is proved in the crate pooling.
ghost use Rattle.std.specs.Prelude.{◌≡◌, ◌+◌, ◌≤◌, length};
ghost use Rattle.std.proofs.lemmas.List.Edits.{sets};
ghost use Rattle.refusals.specs.Check.{Pass, each};
ghost use Rattle.sheet.specs.Bytes.{rows_of};
ghost use Rattle.inventory.specs.ReportCall.{written};
ghost use Rattle.pooling.specs.Pool.{pool, some_differs, differ, pair_check};
ghost use Rattle.pooling.specs.Late.{Regions, fleet_check, late_check};

use checks::accepted::Accepted;
use fields::limits::{FLEET_LIMIT, MANY_ROWS_LIMIT};
use fields::{GRID_START, ROW_BYTES, row_place};
use refusals::{Check, Rule, refuse};

// Where the row count stands.
const COUNT_START: usize = 6;

// Two sheets, each of which passes the checks of a region's.
#[derive(Clone, Copy)]
pub struct Pair<'a> {
    first: Accepted<'a>,
    second: Accepted<'a>,
    pub ghost regions: { Regions first.bytes.now second.bytes.now },
}

// One of the first n bytes after the head differs.
fn bytes_differ(a: &[u8], b: &[u8], n: usize) -> bool
    requires { (8 + n ≤ length a.now) × (8 + n ≤ length b.now) }
    ensures { result ≡ some_differs a.now b.now n }
{
    let end = GRID_START + n;
    a[GRID_START..end] != b[GRID_START..end]
}

// Bytes in place of those from a place on. One after another and not by `copy_from_slice`, which would be the one thing for which the archive for
// C needs `memmove` of its host.
fn put(out: &mut [u8], place: usize, bytes: &[u8])
    requires { place + length bytes.now ≤ length out.old }
    ensures { out.new ≡ sets out.old place bytes.now }
{
    for (i, &byte) in bytes.iter().enumerate() {
        out[place + i] = byte;
    }
}

impl<'a> Pair<'a> {
    pub fn of(first: &'a [u8], second: &'a [u8]) -> Pair<'a>
        requires { Regions first.now second.now }
        ensures { (result.first.bytes.now ≡ first.now) × (result.second.bytes.now ≡ second.now) }
    {
        Pair {
            first: Accepted { bytes: first },
            second: Accepted { bytes: second },
        }
    }

    // The parking or the seasons differ.
    fn differ(&self) -> bool
        ensures { result ≡ differ self.now.first.bytes.now self.now.second.bytes.now }
    {
        if self.first.seasons() != self.second.seasons() {
            return true;
        }
        bytes_differ(
            self.first.bytes,
            self.second.bytes,
            row_place(self.first.bytes, 0) - GRID_START,
        )
    }

    // Number 26 at the rows of the second sheet, one after another; each stands behind all rows of the first. The sum is carried along by hand: a
    // `try_fold` would carry it through a closure that needs the same invariant, and is no plainer.
    #[tactic(auto, using(refusals::proofs::Chain::chained))]
    fn fleet_check(&self) -> Check
        ensures { result ≡ each (fleet_check self.now.first.bytes.now self.now.second.bytes.now) (rows_of self.now.second.bytes.now) }
    {
        let mut vehicles = self.first.fleet();
        for i in 0..self.second.rows() {
            vehicles += self.second.vehicles(i);
            let place = self.first.bytes.len() + ROW_BYTES * i;
            refuse(FLEET_LIMIT < vehicles, Rule::Fleet, place as u64)?;
        }
        Ok(())
    }

    // What is left of the pooled sheet's checks: its rows and its vehicles.
    #[tactic(auto, using(refusals::proofs::Chain::chained), unfolding(pooling::specs::Late::late_check))]
    fn late_check(&self) -> Check
        ensures { result ≡ late_check self.now.first.bytes.now self.now.second.bytes.now }
    {
        let rows = self.first.rows() + self.second.rows();
        refuse(MANY_ROWS_LIMIT < rows as u64, Rule::Rows, 6)?;
        self.fleet_check()
    }

    // The two together, with this much room for their pool.
    #[tactic(auto, using(refusals::proofs::Chain::chained, pooling::proofs::PoolAnswers::late))]
    pub fn check(&self, room: usize) -> Check
        ensures { result ≡ pair_check self.now.first.bytes.now self.now.second.bytes.now room }
    {
        refuse(self.differ(), Rule::Differ, 0)?;
        self.late_check()?;
        refuse(room < self.length(), Rule::Room, 0)
    }

    // How long the pooled sheet is: the first sheet, and the second's rows.
    pub fn length(&self) -> usize
        ensures { result ≡ length (pool self.now.first.bytes.now self.now.second.bytes.now) }
    {
        self.first.bytes.len() + ROW_BYTES * self.second.rows()
    }

    // The pooled sheet at the front of a buffer that has room for it: the first sheet with the row count of both, then the rows of the second.
    pub fn write(&self, out: &mut [u8])
        requires { length (pool self.now.first.bytes.now self.now.second.bytes.now) ≤ length out.old }
        ensures { out.new ≡ written Pass (pool self.now.first.bytes.now self.now.second.bytes.now) out.old }
    {
        let count = (self.first.rows() + self.second.rows()) as u16;
        let (_, rows) = self.second.bytes.split_at(row_place(self.second.bytes, 0));
        put(out, 0, self.first.bytes);
        put(out, COUNT_START, &count.to_le_bytes());
        put(out, self.first.bytes.len(), rows);
    }
}

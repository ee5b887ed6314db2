// A sheet that passes every check. Its parts are there to be read, so that a caller with this type need not say so in a `requires`.
ghost use Rattle.std.specs.Prelude.{◌≡◌, ℕ, ◌*◌, ◌^◌, ◌<◌, ◌≤◌, MatchResult, get_or};
ghost use Rattle.refusals.specs.Check.{Pass};
ghost use Rattle.sheet.specs.Bytes.{seasons_of, rows_of, season_at, row_at};
ghost use Rattle.sheet.specs.Versions.{has_many_rows};
ghost use Rattle.sheet.specs.RunningSums.{vehicles_before};
ghost use Rattle.sheet.specs.Sheet.{sheet_check};

use exact::Row;
use fields::range::CheckedSeason;
use refusals::Refusal;

// The bytes of a sheet that passes every check. A call names a season and a row by their numbers, so the methods take numbers and require
// that the sheet has them: j < seasons_of and i < rows_of.
#[derive(Clone, Copy)]
pub struct Accepted<'a> {
    pub bytes: &'a [u8],
    pub ghost passed: { sheet_check bytes.now ≡ Pass },
    pub ghost are_bytes: { (k : ℕ) → get_or bytes.now k 0 < 256 },
}

#[tactic(auto, using(crate::proofs::Reading::reading))]
impl<'a> Accepted<'a> {
    // The sheet of these bytes, or why it is refused.
    pub fn of(bytes: &'a [u8]) -> Result<Self, Refusal>
        ensures { MatchResult result (λ sheet. sheet.bytes.now ≡ bytes.now) (λ refusal. sheet_check bytes.now ≡ Err refusal) }
    {
        crate::check_sheet(bytes)?;
        Ok(Accepted { bytes })
    }

    // How many seasons it has.
    pub fn seasons(&self) -> usize
        ensures { (result ≡ seasons_of self.now.bytes.now) × (result ≤ 12) }
    {
        fields::seasons_of(self.bytes)
    }

    // How many rows it has.
    pub fn rows(&self) -> usize
        ensures { (result ≡ rows_of self.now.bytes.now) × (result ≤ 1000) }
    {
        fields::rows_of(self.bytes)
    }

    // Season j, counted from 0.
    pub fn season(&self, j: usize) -> CheckedSeason
        requires { j < seasons_of self.now.bytes.now }
        ensures { (result.season ≡ season_at self.now.bytes.now j) × (result.season.days < 65536) }
    {
        CheckedSeason {
            season: fields::season_at(self.bytes, j),
        }
    }

    // Row i, counted from 0.
    pub fn row(&self, i: usize) -> Row
        requires { i < rows_of self.now.bytes.now }
        ensures { (result ≡ row_at self.now.bytes.now i) × (result.saturation < 65536) × (result.vehicles < 2 ^ 32) }
    {
        fields::row_at(self.bytes, i)
    }

    // The vehicles of row i.
    pub fn vehicles(&self, i: usize) -> u64
        requires { i < rows_of self.now.bytes.now }
        ensures { (result ≡ (row_at self.now.bytes.now i).vehicles) × (result ≤ 10000000) }
    {
        fields::vehicles_of(self.bytes, i)
    }

    // The class of row i.
    #[tactic(auto, using(crate::proofs::Reading::reading), unfolding(sheet::specs::Bytes::row_at, sheet::specs::Bytes::row_from))]
    pub fn class(&self, i: usize) -> u64
        requires { i < rows_of self.now.bytes.now }
        ensures { result ≡ (row_at self.now.bytes.now i).class }
    {
        fields::u8_at(self.bytes, fields::row_place(self.bytes, i))
    }

    // The vehicles of all rows.
    #[tactic(auto, using(crate::proofs::Fleet::fleet))]
    pub fn fleet(&self) -> u64
        ensures { (result ≡ vehicles_before self.now.bytes.now (rows_of self.now.bytes.now)) × (result ≤ 320000000) }
    {
        let mut fleet: u64 = 0;
        for i in 0..self.rows() {
            fleet += self.vehicles(i);
        }
        fleet
    }

    // Whether the count of rows has two bytes.
    pub fn has_many_rows(&self) -> bool
        ensures { result ≡ has_many_rows self.now.bytes.now }
    {
        fields::has_many_rows(self.bytes)
    }
}

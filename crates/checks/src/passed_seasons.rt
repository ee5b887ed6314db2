// A sheet whose seasons have passed their own checks, which a row's checks ask about.
ghost use Rattle.std.specs.Prelude.{◌≡◌, ℕ, ◌<◌, ◌≤◌, length};
ghost use Rattle.sheet.specs.Bytes.{seasons_of, row_place, season_at};
ghost use Rattle.sheet.specs.Range.{SeasonInRange};

use fields::range::CheckedSeason;

// The bytes of a sheet whose seasons are there, and each is in range. Accepted has the same two methods, proved from what it knows: a trait
// for them would be no plainer, since every function takes one of the two types only.
#[derive(Clone, Copy)]
pub struct PassedSeasons<'a> {
    pub sheet: &'a [u8],
    pub ghost there: { row_place sheet.now 0 ≤ length sheet.now },
    pub ghost in_range: { (j : ℕ) → j < seasons_of sheet.now → SeasonInRange (season_at sheet.now j) },
}

#[tactic(auto, using(sheet::proofs::Versions::start_between))]
impl PassedSeasons<'_> {
    // How many seasons there are.
    pub fn count(self) -> usize
        ensures { result ≡ seasons_of self.entry.sheet.now }
    {
        fields::seasons_of(self.sheet)
    }

    // Season j, counted from 0.
    pub fn season(self, j: usize) -> CheckedSeason
        requires { j < seasons_of self.sheet.now }
        ensures { result.season ≡ season_at self.entry.sheet.now j }
    {
        CheckedSeason {
            season: fields::season_at(self.sheet, j),
        }
    }
}

// What came of the vectors that were tried.
use std::ops::Add;
use std::{fmt, io};

// Whether an answer is right; of a band its width, and how far off the exact value was. Three numbers and no enum: a band that is not right
// has a width too.
#[derive(Clone, Copy, Debug, Default, PartialEq, Eq)]
pub struct Verdict {
    pub right: bool,
    pub width: u64,
    pub distance: u64,
}

// How many were tried and how many were right; the widest band, and the farthest that an exact value was off. No input has 2^64 vectors,
// so the counts wrap and ask for no bound.
#[derive(Clone, Copy, Debug, Default, PartialEq, Eq)]
pub struct Tally {
    pub tried: u64,
    pub right: u64,
    pub widest: u64,
    pub farthest: u64,
}

// On an answer that is no band
impl From<bool> for Verdict {
    fn from(right: bool) -> Verdict {
        Verdict {
            right,
            width: 0,
            distance: 0,
        }
    }
}

// Of one vector
impl From<Verdict> for Tally {
    fn from(verdict: Verdict) -> Tally {
        Tally {
            tried: 1,
            right: u64::from(verdict.right),
            widest: verdict.width,
            farthest: verdict.distance,
        }
    }
}

impl From<bool> for Tally {
    fn from(right: bool) -> Tally {
        Tally::from(Verdict::from(right))
    }
}

impl Tally {
    // Of one vector; where its answer is not right, `print` writes a line.
    pub fn of<V: Into<Verdict>, P: FnOnce() -> io::Result<()>>(
        verdict: V,
        print: P,
    ) -> io::Result<Tally>
        requires { P.IsAlwaysCallable print }
    {
        let verdict = verdict.into();
        if !verdict.right {
            print()?;
        }
        Ok(verdict.into())
    }

    // Prints its line, behind a name, and hands it on.
    pub fn printed(self, rt: &impl Print, name: &str) -> io::Result<Tally> {
        println!(rt; "{name} {self}")?;
        Ok(self)
    }

    // How many were tried and how many were right, with a word for right ones between them
    pub fn counts(self, word: &str) -> Counts<'_> {
        Counts { tally: self, word }
    }
}

// The two counts of a tally, and the word between them
#[derive(Clone, Copy)]
pub struct Counts<'a> {
    tally: Tally,
    word: &'a str,
}

impl fmt::Display for Counts<'_> {
    fn fmt<W: fmt::Write>(&self, f: &mut fmt::Formatter<W>) -> fmt::Result {
        write!(f, "{} {} {}", self.tally.tried, self.word, self.tally.right)
    }
}

impl fmt::Display for Tally {
    fn fmt<W: fmt::Write>(&self, f: &mut fmt::Formatter<W>) -> fmt::Result {
        write!(f, "{}", self.counts("right"))
    }
}

impl Add for Tally {
    type Output = Tally;

    fn add(self, other: Tally) -> Tally {
        Tally {
            tried: self.tried.wrapping_add(other.tried),
            right: self.right.wrapping_add(other.right),
            widest: self.widest.max(other.widest),
            farthest: self.farthest.max(other.farthest),
        }
    }
}

// Whether an answer is the one that is expected, and a line where it is not; `what` says what was tried, and vectors are counted from 1.
pub fn compare<A: Copy + PartialEq + fmt::Display>(
    rt: &impl Print,
    what: &str,
    position: u64,
    expected: A,
    found: A,
) -> io::Result<Tally> {
    Tally::of(
        found == expected,
        || println!(rt; "{what} {position}: expected {expected}, found {found}"),
    )
}

// The answer for a sheet: accepted, or where it is refused.
use refusals::Check;
use std::fmt;

// Where a sheet is refused. The number is no `Rule`, since the input may expect one that no rule has.
#[derive(Clone, Copy, Debug, PartialEq, Eq)]
pub struct Refusal {
    pub number: u64,
    pub place: u64,
}

#[derive(Clone, Copy, Debug, PartialEq, Eq)]
pub struct Answer(pub Result<(), Refusal>);

impl From<refusals::Refusal> for Refusal {
    fn from(refusal: refusals::Refusal) -> Refusal {
        Refusal {
            number: refusal.rule.number(),
            place: refusal.place,
        }
    }
}

impl From<Check> for Answer {
    fn from(found: Check) -> Answer {
        Answer(found.map_err(Refusal::from))
    }
}

// The answer that a number and a place of an input stand for: both are 0 where the sheet is accepted. A place beside number 0 is of no answer
// that a call gives, and is kept as that of a refusal with number 0.
impl From<(u64, u64)> for Answer {
    fn from((number, place): (u64, u64)) -> Answer {
        if (number == 0) & (place == 0) {
            return Answer(Ok(()));
        }
        Answer(Err(Refusal { number, place }))
    }
}

impl Answer {
    // The same, where number 0 stands for an accepted sheet whatever the place is
    pub fn by_number(number: u64, place: u64) -> Answer {
        if number == 0 {
            return Answer(Ok(()));
        }
        Answer(Err(Refusal { number, place }))
    }

    // The number of a refusal, 0 where the sheet is accepted
    pub fn number(self) -> u64 {
        self.0.err().map_or(0, |refusal| refusal.number)
    }
}

impl fmt::Display for Refusal {
    fn fmt<W: fmt::Write>(&self, f: &mut fmt::Formatter<W>) -> fmt::Result {
        if self.number == 0 {
            return f.write_str("accepted");
        }
        write!(f, "refused {} at {}", self.number, self.place)
    }
}

impl fmt::Display for Answer {
    fn fmt<W: fmt::Write>(&self, f: &mut fmt::Formatter<W>) -> fmt::Result {
        match self.0 {
            Ok(()) => f.write_str("accepted"),
            Err(refusal) => write!(f, "{refusal}"),
        }
    }
}

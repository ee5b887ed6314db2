// The finding that is expected for a sheet, or the one that the explanation gives: the check's answer, the reason with its record, and the
// field with what may stand there.
use findings::Finding;
use std::fmt;
use vectors::answer::Answer;
use vectors::items::{Item, Rest};

// A finding, with its line: its number and place are those that the check answers with, both 0 where the sheet is accepted.
#[derive(Clone, Copy, Debug, PartialEq, Eq)]
pub struct Found(Finding);

impl From<Finding> for Found {
    fn from(finding: Finding) -> Found {
        Found(finding)
    }
}

impl Found {
    // What a finding has of the check's answer
    pub fn answer(self) -> Answer {
        (self.0.number, self.0.place).into()
    }
}

impl<'a> Item<'a> for Found {
    fn read(input: &mut Rest<'a>) -> Option<Found> {
        let (number, reason, season): (u8, u8, u8) = (input.item()?, input.item()?, input.item()?);
        let (place, index): (u16, u16) = (input.item()?, input.item()?);
        let (at, bytes): (u16, u16) = (input.item()?, input.item()?);
        let (value, least, most): (u32, u32, u32) = (input.item()?, input.item()?, input.item()?);
        Some(Found(Finding {
            number: number.into(),
            place: place.into(),
            reason: reason.into(),
            index: index.into(),
            season: season.into(),
            at: at.into(),
            bytes: bytes.into(),
            value: value.into(),
            least: least.into(),
            most: most.into(),
        }))
    }
}

impl fmt::Display for Found {
    fn fmt<W: fmt::Write>(&self, f: &mut fmt::Formatter<W>) -> fmt::Result {
        let found = self.0;
        write!(f, "{} reason {}", self.answer(), found.reason)?;
        write!(f, " index {} season {}", found.index, found.season)?;
        write!(f, " field {} size {}", found.at, found.bytes)?;
        write!(
            f,
            " value {} least {} most {}",
            found.value, found.least, found.most
        )
    }
}

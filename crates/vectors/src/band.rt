// The two ends of a band.
use crate::items::{Item, Rest};
use std::fmt;

#[derive(Clone, Copy, Debug, PartialEq, Eq)]
pub struct Band {
    pub low: u64,
    pub high: u64,
}

impl<'a> Item<'a> for Band {
    fn read(input: &mut Rest<'a>) -> Option<Band> {
        Some(Band {
            low: input.item()?,
            high: input.item()?,
        })
    }
}

impl fmt::Display for Band {
    fn fmt<W: fmt::Write>(&self, f: &mut fmt::Formatter<W>) -> fmt::Result {
        write!(f, "{} to {}", self.low, self.high)
    }
}

// What is found wrong on a sheet. The table of findings is in specs/, its laws in proofs/; the code that
// makes them is in season_findings, row_findings and explanation.
#![tactic(auto)]

use crate::reasons::Reason;

pub mod reasons;
pub mod spans;

// The first thing that is wrong, or all zeros. `evp_explain` returns it to C by value, so it is ten numbers; in Rattle a finding is the
// error of a `Result` until then.
#[repr(C)]
#[derive(Clone, Copy, Default, PartialEq, Eq, Debug)]
pub struct Finding {
    // The number and the place that the sheet's check returns, and which of the reasons of this number it is, from 1.
    pub number: u64,
    pub place: u64,
    pub reason: u64,
    // Which season or row, from 0; and the first season in which the row's m_sat is too high, from 0.
    pub index: u64,
    pub season: u64,
    // The first byte to look at, and how many belong to it; 0 bytes stand for the length of the sheet.
    pub at: u64,
    pub bytes: u64,
    // The number that stands there, or the sum; and the limits, both included, that it is outside of.
    pub value: u64,
    pub least: u64,
    pub most: u64,
}

// The record that a line of the table is about: its place, its index and a season of the row.
#[derive(Clone, Copy, PartialEq, Eq, Debug)]
pub struct Site {
    pub place: u64,
    pub index: u64,
    pub season: u64,
}

// A field: its first byte, its bytes and the number that stands there.
#[derive(Clone, Copy, PartialEq, Eq, Debug)]
pub struct Field {
    pub at: u64,
    pub bytes: u64,
    pub value: u64,
}

// The least and the most of it.
#[derive(Clone, Copy, PartialEq, Eq, Debug)]
pub struct Limits {
    pub least: u64,
    pub most: u64,
}

// A line of the table whose field is outside its limits.
#[derive(Clone, Copy, PartialEq, Eq, Debug)]
pub struct Found {
    pub site: Site,
    pub reason: Reason,
    pub field: Field,
    pub limits: Limits,
}

// Lines of the table find nothing wrong, or say what the first of them has found.
pub type Judged = Result<(), Found>;

impl From<Found> for Finding {
    ghost use Rattle.std.specs.Prelude.{◌≡◌};
    ghost use Rattle.findings.specs.Lines.{entry};

    ghost from_gives = { λ found finding. finding ≡ entry found };

    fn from(found: Found) -> Finding {
        Finding {
            number: found.reason.rule().number(),
            place: found.site.place,
            reason: found.reason.nth(),
            index: found.site.index,
            season: found.site.season,
            at: found.field.at,
            bytes: found.field.bytes,
            value: found.field.value,
            least: found.limits.least,
            most: found.limits.most,
        }
    }
}

impl Limits {
    ghost use Rattle.std.specs.Prelude.{◌≡◌};
    ghost use Rattle.findings.specs.Lines.{limits};

    pub fn between(least: u64, most: u64) -> Limits
        ensures { result ≡ limits least most }
    {
        Limits { least, most }
    }

    // Any number that is at most this one.
    pub fn up_to(most: u64) -> Limits
        ensures { result ≡ limits 0 most }
    {
        Limits { least: 0, most }
    }

    // This number alone.
    pub fn only(value: u64) -> Limits
        ensures { result ≡ limits value value }
    {
        Limits {
            least: value,
            most: value,
        }
    }
}

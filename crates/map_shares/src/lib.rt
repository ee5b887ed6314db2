// How a row's masses are shared among urban, rural and highway roads, after section 4.7 of the guidebook: definitions and laws.
#![tactic(auto)]

// `Span`, `Words`, `Mileages` and `Speeds` are C's, with their members in this order (include/evaporation.h); `Mechanisms` and `Roads`,
// which would say two of them, are Rattle's alone.

// The low and the high of one mechanism, in milligrams.
#[repr(C)]
#[derive(Clone, Copy)]
pub struct Span {
    pub low: u64,
    pub high: u64,
}

// A row's six words of the report.
#[repr(C)]
#[derive(Clone, Copy)]
pub struct Words {
    pub diurnal: Span,
    pub soak: Span,
    pub running: Span,
}

// How far a row's vehicles drive on each road kind; only the proportions count, so any unit will do.
#[repr(C)]
#[derive(Clone, Copy)]
pub struct Mileages {
    pub urban: u64,
    pub rural: u64,
    pub highway: u64,
}

// How fast they drive there. The urban speed plays no part.
#[repr(C)]
#[derive(Clone, Copy)]
pub struct Speeds {
    pub rural: u64,
    pub highway: u64,
}

// Whether a row's owners live in town, and where its vehicles drive. `town` is a yes or a no that is only asked; C hands in a number, in a
// struct of its own that `TryFrom` reads.
#[derive(Clone, Copy)]
pub struct Travel {
    pub town: bool,
    pub mileage: Mileages,
    pub speed: Speeds,
}

// A fraction: this many parts out of all.
#[derive(Clone, Copy)]
pub struct Part {
    pub part: u64,
    pub all: u64,
}

// One of each of the three mechanisms.
#[derive(Clone, Copy)]
pub struct Mechanisms<T> {
    pub diurnal: T,
    pub soak: T,
    pub running: T,
}

// One for each of the three road kinds of one row.
#[derive(Clone, Copy)]
pub struct Roads<T> {
    pub urban: T,
    pub rural: T,
    pub highway: T,
}

// What part of each mechanism's mass falls on one road kind.
pub type Road = Mechanisms<Part>;

// A road kind's shares of the three mechanisms, in milligrams.
pub type Shares = Mechanisms<u64>;

// The shares of the lows, cut down, and those of the highs, cut up. The lows stand together and the highs too, and not as three spans, since
// a cell sums each of the two by itself.
#[derive(Clone, Copy)]
pub struct RoadShares {
    pub low: Shares,
    pub high: Shares,
}

// Those of the three road kinds of one row.
pub type RowShares = Roads<RoadShares>;

// The values of a sheet that document 01's exact masses are functions of, in the units of the sheet.
#![tactic(auto)]

// The size of a carbon canister.
#[derive(Clone, Copy, Debug, PartialEq, Eq)]
pub enum Canister {
    Small,
    Medium,
    Large,
}

// What a class and technology of Table 3-11 are fitted with: a canister or none, and a tank in tenths of a litre.
#[derive(Clone, Copy)]
pub struct Fitted {
    pub canister: Option<Canister>,
    pub tank: u64,
}

// One season. Its numbers are u64, as the factors calculated from them are. Where a sheet is read, `season_at` of the crate fields promises
// that the days and the temperatures have 16 bits. A u16 would be converted in each formula, and be no plainer.
#[derive(Clone, Copy)]
pub struct Season {
    pub days: u64,
    // Lowest and highest temperature in tenths of °C, each the number of its 16 bits (two's complement).
    pub lowest: u64,
    pub highest: u64,
    // Vapour pressure in tenths of kPa.
    pub vp: u64,
}

// One row, with the canister and the tank that count for it: the class's where the sheet leaves them to the class.
#[derive(Clone, Copy)]
pub struct Row {
    // A number and no enum, since document 01 sums by ranges of it, "cars (1 to 3), light-duty (4), two-wheelers (5 to 9)", and since a row is read
    // before its class is known to be in the table.
    pub class: u64,
    pub canister: Option<Canister>,
    // Shares of carburettor vehicles and of hot trips, and the fill level, in percent.
    pub carburettor: u64,
    pub hot: u64,
    pub fill: u64,
    // Tenths of a litre.
    pub tank: u64,
    pub vehicles: u64,
    // Hundredths of a trip a day.
    pub trips: u64,
    // Minutes per trip.
    pub minutes: u64,
    // Canister load at parking start and saturating load, in tenths of a gram.
    pub load: u64,
    pub saturation: u64,
    // The odometer in km, 0 where the load is written. No enum of the two, since number 25 refuses a row that has a mileage beside a load.
    pub mileage: u64,
}

// The limits of a sheet, each named once for the code; sheet/specs/Limits.antt names them for the definitions.

// The versions that are read, from 1 on.
pub const VERSION_LIMIT: u64 = 4;

pub const SEASONS_LIMIT: u64 = 12;

pub const ROWS_LIMIT: u64 = 32;

// From version 4 on.
pub const MANY_ROWS_LIMIT: u64 = 1000;

// The sum of each list of counts, at least 1.
pub const COUNTS_LIMIT: u64 = 1000;

// The sum of a grid, at least 1.
pub const GRID_LIMIT: u64 = 1000000;

// The days of a season, at least 1, and of all seasons together.
pub const DAYS_LIMIT: u64 = 366;

// Tenths of °C below and above 0.
pub const COLD_LIMIT: u64 = 300;

pub const WARM_LIMIT: u64 = 500;

// Tenths of kPa.
pub const VP_LEAST: u64 = 300;

pub const VP_LIMIT: u64 = 1100;

pub const PERCENT_LIMIT: u64 = 100;

// Tenths of a litre.
pub const TANK_LIMIT: u64 = 1500;

pub const VEHICLES_LIMIT: u64 = 10000000;

// Of all rows together, from version 4 on.
pub const FLEET_LIMIT: u64 = 100000000;

// Hundredths of a trip a day.
pub const TRIPS_LIMIT: u64 = 1200;

pub const MINUTES_LIMIT: u64 = 1440;

// Kilometres.
pub const MILEAGE_LIMIT: u64 = 1000000;

// The bytes of the longest sheet: a grid, 12 seasons and 1,000 rows.
pub const LONGEST: u64 = 25256;

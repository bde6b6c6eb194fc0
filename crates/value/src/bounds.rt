// The bounds of numbers, days and times that document 01 states, and what an hour and the parts of a second count.

// "1 to 18 digits", "coefficient below 10^18", "scale is at most 5"
pub const MOST_DIGITS: usize = 18;

pub const NUMBER_LIMIT: u64 = 1000000000000000000;

pub const MOST_SCALE: u8 = 5;

// "1 to 35"
pub const MOST_REF: usize = 35;

// "year 0001 to 9999"
pub const LAST_YEAR: u16 = 9999;

pub const LAST_MONTH: u8 = 12;

// "`hh:mm:ss` up to 23:59:59"
pub const LAST_HOUR: u8 = 23;

pub const LAST_MINUTE: u8 = 59;

pub const LAST_SECOND: u8 = 59;

// "fractions count in microseconds": those of a tenth, a hundredth and a thousandth of a second, and the most that a fraction has.
pub const TENTH: u32 = 100000;

pub const HUNDREDTH: u32 = 10000;

pub const THOUSANDTH: u32 = 1000;

pub const LAST_MICRO: u32 = 10 * TENTH - 1;

// "minutes at most 59, up to 14:00", "offset minutes plus 840"
pub const LAST_ZONE_HOUR: u8 = 14;

pub const HOUR_MINUTES: u16 = 60;

pub const ZERO_OFFSET: u16 = 840;

pub const LAST_OFFSET: u16 = 2 * ZERO_OFFSET;

// Where the parts of a written DATE or DTM stand, from its first byte on: `YYYY-MM-DD`, `T`, `hh:mm:ss`, a fraction, and a zone.

// A year has four digits, every other part two.
pub const YEAR_DIGITS: usize = 4;

pub const FIRST_DASH: usize = YEAR_DIGITS;

pub const MONTH: usize = FIRST_DASH + 1;

pub const SECOND_DASH: usize = MONTH + 2;

pub const DAY: usize = SECOND_DASH + 1;

pub const DATE_END: usize = DAY + 2;

// After the `T`.
pub const HOUR: usize = DATE_END + 1;

pub const FIRST_COLON: usize = HOUR + 2;

pub const MINUTE: usize = FIRST_COLON + 1;

pub const SECOND_COLON: usize = MINUTE + 2;

pub const SECOND: usize = SECOND_COLON + 1;

pub const CLOCK_END: usize = SECOND + 2;

// "a point and one to three digits": the digits, and the place after them.
pub const TENTHS: usize = CLOCK_END + 1;

pub const HUNDREDTHS: usize = TENTHS + 1;

pub const THOUSANDTHS: usize = HUNDREDTHS + 1;

pub const FRACTION_END: usize = THOUSANDTHS + 1;

// The point and six digits that a fraction has at most.
pub const MICROS_SIZE: usize = 7;

// "sign `hh:mm`", from the sign on.
pub const ZONE_COLON: usize = 3;

pub const ZONE_MINUTE: usize = ZONE_COLON + 1;

pub const ZONE_END: usize = ZONE_MINUTE + 2;

// The longest of all.
pub const MOMENT_SIZE: usize = CLOCK_END + MICROS_SIZE + ZONE_END;

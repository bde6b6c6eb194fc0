// Where the parts of a stored value stand, from its first byte on, and how many bytes it has (document 01, "Content and its image").
use text::width::{WIDTH_16, WIDTH_32, WIDTH_64};

// "REF, TXT, IBAN, CCY: 16-bit byte length, UTF-8": the most bytes that such a length says.
pub const MOST_BYTES: usize = 65535;

// "NUM: 64 bits"
pub const NUMBER_SIZE: usize = WIDTH_64;

// "AMT: three currency letters, scale byte, coefficient in 64 bits"
pub const CURRENCY_SIZE: usize = 3;

pub const SCALE: usize = CURRENCY_SIZE;

pub const COEFFICIENT: usize = SCALE + 1;

pub const AMOUNT_SIZE: usize = COEFFICIENT + WIDTH_64;

// "DATE: 16-bit year, month, day"
pub const MONTH: usize = WIDTH_16;

pub const DAY: usize = MONTH + 1;

pub const DATE_SIZE: usize = DAY + 1;

// "DTM: DATE, hour, minute, second, 32-bit microseconds, 16-bit offset minutes"
pub const HOUR: usize = DATE_SIZE;

pub const MINUTE: usize = HOUR + 1;

pub const SECOND: usize = MINUTE + 1;

pub const CLOCK_SIZE: usize = 3;

pub const MICROS: usize = HOUR + CLOCK_SIZE;

pub const OFFSET: usize = MICROS + WIDTH_32;

pub const MOMENT_SIZE: usize = OFFSET + WIDTH_16;

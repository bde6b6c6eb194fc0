// How many bytes a number of 16, 32 or 64 bits has.

pub const WIDTH_16: usize = 2;

pub const WIDTH_32: usize = 4;

pub const WIDTH_64: usize = 8;

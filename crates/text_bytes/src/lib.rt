// Numbers as big-endian bytes, and parts of slices: written into a lent buffer, and read.
#![tactic(auto)]

pub mod number; // number.rt: numbers as bytes, and parts, written and read

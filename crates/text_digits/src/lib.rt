// Numbers as decimal digits, written into a lent buffer.
#![tactic(auto)]

pub mod decimal; // decimal.rt: a number's digits

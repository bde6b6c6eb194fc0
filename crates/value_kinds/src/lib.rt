// A value of any type, chosen by the number of its kind, from its raw text.
#![tactic(auto)]

pub mod check; // check.rt: the raw text of a leaf, judged
mod chars; // chars.rt: the bytes of a text
pub mod write; // write.rt: a value's bytes and how many there are

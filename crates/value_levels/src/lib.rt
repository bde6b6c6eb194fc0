// The levels of bytes: the classes that a leaf's text is of, each within the one below it, and how far bytes of one reach.
#![tactic(auto)]

pub mod table; // table.rt: the level of each byte
mod blocks; // blocks.rt: a block of bytes at a time
pub mod class; // class.rt: over the bytes of a level
pub mod plain; // plain.rt: over the bytes that stand for themselves

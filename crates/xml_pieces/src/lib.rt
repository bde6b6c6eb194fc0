// Over what texts and values are made of: characters and entities, rows of `]`, given bytes, runs of a class. Each function
// takes any bytes and any place, and answers the place after what it goes over, or the place at which nothing of that kind goes on.
#![tactic(auto)]

pub mod bracket; // bracket.rt: a row of `]`
pub mod piece; // piece.rt: a character or an entity
pub mod run; // run.rt: runs of bytes of one class
pub mod word; // word.rt: given bytes

// The place at which no such construct goes on.
#[derive(Clone, Copy)]
pub struct Stopped {
    pub at: usize,
}

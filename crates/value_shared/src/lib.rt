// What the code of several types shares.
#![tactic(auto)]

pub mod blanks; // blanks.rt: blanks at both ends
pub mod place; // place.rt: a byte of a slice, a byte into a lent buffer

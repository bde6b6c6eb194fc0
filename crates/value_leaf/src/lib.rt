// The text of a leaf from a place of a file on, by the checkers of its kind: where it ends, and how many bytes its value has in an image.
#![tactic(auto)]

pub mod found; // found.rt: what is told of a leaf's text
pub mod slow; // slow.rt: any text

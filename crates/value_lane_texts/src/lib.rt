// The text of a leaf of TXTk or REF from a place of a file on: where it ends, and how many bytes its value has in an image.
#![tactic(auto)]

pub mod texts; // texts.rt: texts and references

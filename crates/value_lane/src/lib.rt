// The text of a leaf from a place of a file on: where it ends, and how many bytes its value has in an image.
#![tactic(auto)]

pub mod codes; // codes.rt: account numbers
pub mod figures; // figures.rt: amounts and days
pub mod leaf; // leaf.rt: the entry, by the number of a kind

// Where the walk begins: the root's tag, with its attributes.
#![tactic(auto)]

mod hints; // hints.rt: the root's attributes
pub mod begin; // begin.rt: the root's tag
